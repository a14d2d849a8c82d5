//! The drain of a run, which writes the message that each pair names as it takes it.
ghost use Rattle.std.specs.Prelude.{◌≡◌, [], ◌∷◌, ◌++◌, List, IfOk, OnOk};
ghost use Rattle.ids_frame.specs.Messages.{joined};
ghost use Rattle.ids_reporter.specs.{IsWorking, StaysAtWork, named, AreAllTaken};
ghost use Rattle.ids_reporter.specs.Sources.{Sources};

use crate::drain::{Drain, Empty};
use crate::presence::{Presence, TRIES, pause};
use crate::relay::Relay;
use crate::rule::Taken;
use crate::source::Source;
use ids_types::NoMemory;
use std::alloc::Global;
use std::sync::Wait;

/// A drain with the bytes that were written. Want of memory is told at the end: a drain that stopped would leave its
/// feeders waiting.
#[derive(Drop)]
pub(crate) struct Outlet {
    pub(crate) drain: Drain,
    pub(crate) out: Vec<u8>,
    pub(crate) written: Result<(), NoMemory>,
    // How many pairs are still to be taken, so that none is waited for in vain.
    left: u64,
}

impl Outlet {
    /// With room for all messages of the sources.
    pub(crate) fn make(alloc: Global, drain: Drain, sources: &[Source]) -> Result<Outlet, NoMemory>
        ensures drain { IfOk result (λ outlet. outlet.drain ≡ drain) }
        ensures out { IfOk result (λ outlet. outlet.out.items ≡ []) }
    {
        let size = sources.iter().fold(0, |size: usize, source| size.saturating_add(source.size()));
        let left = sources
            .iter()
            .fold(0, |left: u64, source| left.saturating_add(source.len()));
        let out = Vec::with_capacity(alloc, size)?;
        Ok(Outlet {
            drain,
            out,
            written: Ok(()),
            left,
        })
    }

    /// Takes pairs until all are taken, or one is given up.
    pub(crate) fn take_some(&mut self, relay: &Relay, sources: &[Source], presence: &Presence)
        requires { IsWorking relay.now sources.now self.old }
        ensures works { StaysAtWork relay.now sources.now self.old self.new }
    {
        for _ in 0..self.left {
            if let Err(Empty) = self.take_next(relay, sources, presence) {
                break;
            }
        }
        presence.end_drain();
    }

    /// Takes the next pair, or gives it up: not while feeders are at work.
    fn take_next(
        &mut self,
        relay: &Relay,
        sources: &[Source],
        presence: &Presence,
    ) -> Result<(), Empty>
        requires { IsWorking relay.now sources.now self.old }
        ensures works { StaysAtWork relay.now sources.now self.old self.new }
    {
        for tries in 0..TRIES {
            if let Ok(pair) = self.drain.try_take(relay) {
                self.write(sources, pair);
                return Ok(());
            }
            if !presence.has_feeders(tries) {
                break;
            }
            pause(tries);
        }
        Err(Empty)
    }

    /// Takes all pairs of feeders that are back.
    pub(crate) fn take_rest<R: Wait>(&mut self, rt: &R, relay: &Relay, sources: &[Source])
        requires { IsWorking relay.now sources.now self.old }
        ensures works { StaysAtWork relay.now sources.now self.old self.new }
        ensures all { AreAllTaken self.new.drain }
    {
        for _ in rt.forever() {
            match self.drain.take(rt, relay) {
                Ok(pair) => self.write(sources, pair),
                Err(Empty) => return,
            }
        }
        unreachable!()
    }

    /// Writes the message that a pair names, after those of the pairs before it.
    #[tactic(auto, using(crate::proofs::ForwardLemmas::named_more, crate::proofs::ForwardLemmas::written_more))]
    fn write(&mut self, sources: &[Source], pair: Taken)
        ensures drain { self.new.drain ≡ self.old.drain }
        ensures out { (pairs : List Taken) → OnOk self.old.written (self.old.out.items ≡ joined (named sources.now pairs))
            → OnOk self.new.written (self.new.out.items ≡ joined (named sources.now (pairs ++ pair ∷ []))) }
    {
        self.left = self.left.saturating_sub(1);
        if self.written.is_ok() {
            let message = message_named(sources, pair);
            self.written = self.out.extend_from_slice(message).map_err(|_| NoMemory);
        }
    }
}

/// The bytes of the message that a pair names, or none.
fn message_named(sources: &[Source], pair: Taken) -> &[u8]
    ensures { result.now ≡ joined (named sources.now (pair ∷ [])) }
{
    match sources.get(usize::from(pair.source)) {
        Some(source) if pair.index < source.len() => source.message(pair.index),
        _ => &[],
    }
}
