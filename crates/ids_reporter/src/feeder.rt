//! A feeder: one source's end of a relay.
ghost use Rattle.std.specs.Prelude.{◌≡◌, ◌+◌, ◌<◌, ◌≤◌, ◌^◌, OnOk, OnErr};
ghost use Rattle.ids_reporter.specs.Relays.{IsAt, IsFeederOf, IsFeeding, number_of, puts_of};

use crate::presence::{Presence, TRIES, pause};
use crate::relay::Relay;
use crate::rule::{Knower, Puts, Taken};
use std::sync::Wait;

/// Is told before the first try of each put, in the thread that makes it, and not before a later one. A test's gate
/// lets feeders wait for each other here.
pub trait FeedGate {
    /// A feeder is about to put the pair of this index.
    /// Steps: `OpenFeed`: constant. Memory: `OpenFeed`: none. Waits: as its gate; `OpenFeed`: no. By: no body.
    fn before(&self, feeder: u8, index: u64);
}

/// A gate that stops nobody.
#[derive(Clone, Copy, Debug)]
pub struct OpenFeed;

impl FeedGate for OpenFeed {
    fn before(&self, _feeder: u8, _index: u64) {}
}

/// The relay's queue was full, and nothing was put.
#[derive(Clone, Copy, Debug, PartialEq, Eq)]
pub struct Full;

/// Puts the pairs of one source, numbered from 0.
#[derive(Drop)]
pub struct Feeder {
    pub(crate) pass: Knower,
    pub(crate) source: u8,
    pub(crate) puts: u64,
    // How many puts a gate was told of: a put that was given up counts.
    pub(crate) told: u64,
    // Feeders lie side by side, and each is written at each put: so no two share a cache line.
    pub(crate) apart: [u64; 16],
}

impl Feeder {
    /// How many pairs were put.
    pub fn puts(&self) -> u64
        ensures { result ≡ puts_of self.now }
    {
        self.puts
    }

    /// Puts the next pair: the feeder's number, and `puts()` of before. `Full` changes nothing.
    /// Steps: one try of the queue. Waits: as the queue. By: bound `Wait`; no loop.
    pub fn put<R: Wait>(&mut self, rt: &R, relay: &Relay) -> Result<(), Full>
        requires mine { IsFeederOf relay.now self.old }
        requires few { puts_of self.old < 2 ^ 40 }
        ensures put { OnOk result (IsAt relay.now (number_of self.old) (puts_of self.old + 1) self.new) }
        ensures full { OnErr result (IsAt relay.now (number_of self.old) (puts_of self.old) self.new) }
    {
        let pair = Taken {
            source: self.source,
            index: self.puts,
        };
        let pushed = relay.line.push_as::<Puts, R>(rt, &mut self.pass, pair);
        pushed.map_err(|_| Full)?;
        self.puts += 1;
        Ok(())
    }

    /// Puts the next pair, or gives it up: not while the drain is at work. It tries again where another feeder is in
    /// the way, too.
    fn put_next(&mut self, relay: &Relay, presence: &Presence) -> Result<(), Full>
        requires mine { IsFeederOf relay.now self.old }
        requires few { puts_of self.old < 2 ^ 40 }
        ensures put { OnOk result (IsAt relay.now (number_of self.old) (puts_of self.old + 1) self.new) }
        ensures full { OnErr result (IsAt relay.now (number_of self.old) (puts_of self.old) self.new) }
    {
        for tries in 0..TRIES {
            let pair = Taken {
                source: self.source,
                index: self.puts,
            };
            if relay.line.try_push_as::<Puts>(&mut self.pass, pair).is_ok() {
                self.puts += 1;
                return Ok(());
            }
            if !presence.has_drain() {
                break;
            }
            pause(tries);
        }
        Err(Full)
    }

    /// Puts the pairs of a source of so many messages, each after one word to the gate, until all are put or one is
    /// given up.
    pub(crate) fn put_some<G: FeedGate>(
        &mut self,
        relay: &Relay,
        messages: u64,
        gate: &G,
        presence: &Presence,
    )
        requires few { messages ≤ 2 ^ 40 }
        requires feeding { IsFeeding relay.now (number_of self.old) messages self.old }
        ensures feeding { IsFeeding relay.now (number_of self.old) messages self.new }
    {
        while self.puts < messages {
            if self.told <= self.puts {
                gate.before(self.source, self.puts);
                self.told = self.puts + 1;
            }
            if let Err(Full) = self.put_next(relay, presence) {
                return;
            }
        }
    }
}
