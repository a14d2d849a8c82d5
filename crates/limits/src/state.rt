//! The limits of rate and traffic together.

ghost use Rattle.std.specs.Prelude.{◌≡◌, ◌≤◌, ℕ, List, [], ◌∷◌, IfSome};
ghost use Rattle.ids_config.specs.Parts.{Parts};
ghost use Rattle.chain_spec.specs.{Candidate, EndBy};
ghost use Rattle.chain_spec.specs.Fates.{place_of};
ghost use Rattle.chain_spec.specs.declared.fate.Fate.TheVariants.{AtRate};
ghost use Rattle.limits.specs.Limiting.{Stands, answer_to};
ghost use Rattle.limits.specs.Meters.{HasInterval, answer_of, after_message, is_allowed, after_any};

use crate::meter::Meter;
use chain_spec::Fate;
use ids_config::Config;
use std::marker::Model;

/// The limits of rate and traffic, with what they have left.
#[derive(Debug, Drop)]
pub struct LimitState {
    rate: Option<Meter>,
    traffic: Option<Meter>,
}

impl Model for LimitState {
    ghost use Rattle.limits.specs.Meters.{Meters};

    ghost Value = { Meters };

    ghost use Rattle.limits.specs.StateView.{meters_of, HaveIntervals};

    ghost view = { meters_of };

    ghost invariant = { HaveIntervals };
}

impl LimitState {
    /// The limits of a configuration, before any message. Takes no memory.
    /// By: no loop; no allocator.
    pub fn make(config: &Config) -> LimitState
        ensures stands { Stands config.now [] result }
    {
        let parts = config.parts();
        LimitState {
            rate: parts.rate.map(Meter::make),
            traffic: parts.traffic.map(Meter::make),
        }
    }

    /// The fate of a message of so many bytes at the tick, which counts from now on: for the
    /// rate in any case, and for the traffic where it is sent.
    /// Steps: constant; at most two divisions. By: no loop; answer `Fate`, no NoMemory.
    pub fn admit(&mut self, tick: u64, bytes: u32) -> Fate
        ensures answer { (config : Parts) (before : List Candidate) → Stands config before self.old
            → EndBy (λ one. one.tick) tick before
            → result ≡ answer_to config before (record { tick = tick; bytes = bytes }) }
        ensures stands { (config : Parts) (before : List Candidate) → Stands config before self.old
            → EndBy (λ one. one.tick) tick before
            → Stands config (record { tick = tick; bytes = bytes } ∷ before) self.new }
        ensures late { place_of AtRate ≤ place_of result }
    {
        self.ask(tick, bytes)
    }

    fn ask(&mut self, tick: u64, bytes: u32) -> Fate
        ensures answer { result ≡ answer_of tick bytes self.old }
        ensures after { self.new ≡ after_message tick bytes self.old }
    {
        if !takes(&mut self.rate, tick, 1) {
            Fate::AtRate
        } else if !takes(&mut self.traffic, tick, u64::from(bytes)) {
            Fate::AtTraffic
        } else {
            Fate::Sent
        }
    }
}

/// Takes so much, where there is a limit, and answers whether there was room for it.
fn takes(meter: &mut Option<Meter>, tick: u64, weight: u64) -> bool
    requires { IfSome meter.old HasInterval }
    ensures answer { result ≡ is_allowed tick weight meter.old }
    ensures after { meter.new ≡ after_any tick weight meter.old }
{
    match meter {
        Some(meter) => meter.takes(tick, weight),
        None => true,
    }
}
