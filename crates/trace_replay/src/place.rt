//! Places at which callers are handed over, round by round, to threads that last.
ghost use Rattle.std.specs.Prelude.{◌≡◌, ◌%◌, ◌^◌, IfErr, IfSome};
ghost use Rattle.trace_replay.specs.{StandsAt, IsPlaceOf};

use crate::caller::Caller;
use counted_slot::{Counted, FREE, Fits, TAKEN};
use ids_types::NoMemory;
use report_api::Shared;
use std::snapshot::Snapshot;
use std::{hint, thread};
use trace_text::Trace;

/// No caller is here: it waits for its next round, or makes its calls.
const EMPTY: u64 = FREE;

/// A caller that is to make the calls of its round.
pub(crate) const DUE: u64 = 1 << 32;

/// A caller that made them.
pub(crate) const PLAYED: u64 = 2 << 32;

/// How many looks keep the processor between them; later ones give it away.
const QUICK_LOOKS: u64 = 8;

/// For how many spins they keep it.
const SPINS: u32 = 32;

/// A caller at its place, with how many rounds it played, and whether it is to play the next one.
#[derive(Drop)]
pub(crate) struct Hand {
    pub(crate) caller: Caller,
    pub(crate) rounds: u64,
    pub(crate) due: bool,
}

/// Whose place it is, and of which replay.
#[derive(Drop)]
pub(crate) struct Part {
    pub(crate) shared: Snapshot<Shared>,
    pub(crate) trace: Snapshot<Trace>,
    pub(crate) number: u8,
}

impl Fits for Hand {
    ghost use Rattle.trace_replay.specs.Standing.{StandsAt};

    type Tag = Part;

    ghost fits = { λ part hand. StandsAt part.shared.value part.trace.value part.number hand };
}

/// One caller's place, which threads share.
#[derive(Drop)]
pub(crate) struct Place {
    pub(crate) slot: Counted<Option<Hand>>,
}

impl Place {
    /// The place of a caller, who is not here yet.
    pub(crate) fn new(shared: &Shared, trace: &Trace, number: u8) -> Place
        ensures { IsPlaceOf shared.now trace.now number result }
    {
        let part = Part {
            shared: Snapshot::of(shared),
            trace: Snapshot::of(trace),
            number,
        };
        Place {
            slot: Counted::new(None, &part),
        }
    }

    /// What is to be seen here: `DUE`, `PLAYED`, or neither. It says where to look, and no proof rests on it.
    pub(crate) fn seen(&self) -> u64 {
        self.slot.load()
    }

    /// Takes the caller that is here, if the place is still as it was seen.
    pub(crate) fn take(&self, seen: u64) -> Option<Hand>
        requires { seen % 2 ^ 32 ≡ 0 }
        ensures { IfSome result (StandsAt self.now.slot.shared.value self.now.slot.trace.value self.now.slot.number) }
    {
        let (found, claim) = self.slot.turn(seen, TAKEN);
        if found != seen {
            claim.done();
            return None;
        }
        claim.put(None, EMPTY)
    }

    /// Puts a caller here. The place is free for it at once, or as good as; a caller for whom it never was would be
    /// told as want of memory.
    pub(crate) fn put(&self, mut hand: Hand, word: u64) -> Result<(), NoMemory>
        requires hand { StandsAt self.now.slot.shared.value self.now.slot.trace.value self.now.slot.number hand }
        requires word { word % 2 ^ 32 ≡ 0 }
    {
        for looks in 0..u64::MAX {
            match self.try_put(hand, word) {
                Ok(()) => return Ok(()),
                Err(back) => hand = back,
            }
            pause(looks);
        }
        Err(NoMemory)
    }

    // Puts a caller here, unless another thread is at the place.
    fn try_put(&self, hand: Hand, word: u64) -> Result<(), Hand>
        requires hand { StandsAt self.now.slot.shared.value self.now.slot.trace.value self.now.slot.number hand }
        requires word { word % 2 ^ 32 ≡ 0 }
        ensures { IfErr result (λ back. back ≡ hand) }
    {
        let (found, claim) = self.slot.turn(EMPTY, TAKEN);
        if found != EMPTY {
            claim.done();
            return Err(hand);
        }
        let _ = claim.put(Some(hand), word);
        Ok(())
    }
}

/// Waits for a moment. Who looked often before gives the processor away.
pub(crate) fn pause(looks: u64) {
    if looks < QUICK_LOOKS {
        for _ in 0..SPINS {
            hint::spin_loop();
        }
    } else {
        thread::yield_now();
    }
}
