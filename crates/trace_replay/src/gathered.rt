//! The log of a replay's manager: the history of its turns.
ghost use Rattle.std.specs.Prelude.{◌≡◌, [], IfOk, OnOk, false};

use filter_chain::{Log, record_turn, reserve_turn};
use ids_types::{Entry, History, NoMemory, Parcel, TurnHead};
use std::alloc::Global;

/// The turns so far. A turn for which there was no memory is missed, and then the replay ends.
#[derive(Debug, Drop)]
pub(crate) struct Gathered {
    pub(crate) history: History,
    pub(crate) missed: bool,
}

impl Gathered {
    /// No turn yet.
    pub(crate) fn make(alloc: Global) -> Result<Gathered, NoMemory>
        ensures { IfOk result (λ g. g.history.turns ≡ []) }
    {
        Ok(Gathered {
            history: History::make(alloc, 0, 0, 0)?,
            missed: false,
        })
    }

    /// Whether the last turn is there.
    pub(crate) fn check(&self) -> Result<(), NoMemory>
        ensures { OnOk result (self.now.missed ≡ false) }
    {
        if self.missed {
            return Err(NoMemory);
        }
        Ok(())
    }
}

impl<B: Parcel> Log<B> for Gathered {
    ghost use Rattle.trace_replay.specs.Rounds.{gathers};

    ghost noted = { gathers };

    fn note(&mut self, head: &TurnHead, items: &[Entry<B>]) {
        let room = reserve_turn(items, &mut self.history);
        self.missed = room.is_err();
        if room.is_ok() {
            record_turn(head, items, &mut self.history);
        }
    }
}
