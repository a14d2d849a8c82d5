//! The drain: the end of a relay that takes what all feeders put.
ghost use Rattle.std.specs.Prelude.{◌≡◌, ◌∷◌, All, IfOk, OnErr};
ghost use Rattle.ids_reporter.specs.{AreAllTaken, IsAt, IsBackIn, IsDrainOf, IsFeederOf, IsLeft, back_of, feeders_of, known, number_of, puts_of, taken_of, with_feeder, with_taken, Drains};

use crate::feeder::Feeder;
use crate::relay::Relay;
use crate::rule::{Feeds, Knower, Taken, Takes};
use std::sync::Wait;

/// The relay's queue was empty, and nothing was taken.
#[derive(Clone, Copy, Debug, PartialEq, Eq)]
pub struct Empty;

/// Takes the pairs of all feeders. Contracts see the pairs that it took, in order, and the feeders that are back.
#[derive(Drop)]
pub struct Drain {
    pub(crate) pass: Knower,
}

impl Drain {
    /// The next pair in the queue. `Empty` changes nothing; once all feeders are back, it comes exactly where as many
    /// pairs of each were taken as it had put.
    /// Steps: one try of the queue. Waits: as the queue. By: bound `Wait`; no loop.
    pub fn take<R: Wait>(&mut self, rt: &R, relay: &Relay) -> Result<Taken, Empty>
        requires mine { IsDrainOf relay.now self.old }
        ensures mine { IsDrainOf relay.now self.new }
        ensures taken { IfOk result (λ pair. known self.new ≡ with_taken pair (known self.old)) }
        ensures left { IfOk result (IsLeft self.old) }
        ensures empty { OnErr result (known self.new ≡ known self.old) }
        ensures all { OnErr result (AreAllTaken self.new) }
    {
        let pair = relay.line.pop_as::<Takes, R>(rt, &mut self.pass);
        pair.ok_or(Empty)
    }

    /// As `take`, in one attempt, which fails also where a feeder is still at the pair.
    pub(crate) fn try_take(&mut self, relay: &Relay) -> Result<Taken, Empty>
        requires mine { IsDrainOf relay.now self.old }
        ensures mine { IsDrainOf relay.now self.new }
        ensures taken { IfOk result (λ pair. known self.new ≡ with_taken pair (known self.old)) }
        ensures empty { OnErr result (known self.new ≡ known self.old) }
    {
        relay.line.try_pop_as::<Takes>(&mut self.pass).ok_or(Empty)
    }

    /// Takes a feeder back.
    pub fn welcome(&mut self, relay: &Relay, feeder: Feeder)
        requires mine { IsDrainOf relay.now self.old }
        requires feeder { IsFeederOf relay.now feeder }
        ensures mine { IsDrainOf relay.now self.new }
        ensures back { known self.new ≡ Drains (feeders_of self.old) (taken_of self.old) ((number_of feeder, puts_of feeder) ∷ back_of self.old) }
    {
        relay.line.absorb::<Feeds>(&mut self.pass, feeder.pass);
        relay.line.learn_as::<Takes>(&mut self.pass);
    }

    /// Takes all feeders back.
    pub(crate) fn welcome_all(&mut self, relay: &Relay, mut feeders: Vec<Feeder>)
        requires mine { IsDrainOf relay.now self.old }
        requires feeders { All (IsFeederOf relay.now) feeders.items }
        ensures mine { IsDrainOf relay.now self.new }
        ensures same { (feeders_of self.new ≡ feeders_of self.old) × (taken_of self.new ≡ taken_of self.old) }
        ensures back { All (IsBackIn self.new) feeders.items }
    {
        while let Some(feeder) = feeders.pop() {
            self.welcome(relay, feeder);
        }
    }

    /// The feeder of the next number, which is `source`.
    #[tactic(auto, using(crate::proofs::RuleLemmas::makes))]
    pub(crate) fn feeder(&mut self, relay: &Relay, source: u8) -> Feeder
        requires mine { IsDrainOf relay.now self.old }
        requires next { source ≡ feeders_of self.old }
        ensures mine { IsDrainOf relay.now self.new }
        ensures made { known self.new ≡ with_feeder (known self.old) }
        ensures feeder { IsAt relay.now source 0 result }
    {
        let pass = relay.line.another::<Feeds>(&mut self.pass);
        Feeder {
            pass,
            source,
            puts: 0,
            told: 0,
            apart: [0; 16],
        }
    }
}
