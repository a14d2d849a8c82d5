//! What turns gave so far: how much they sent, and what each hands on to the next.

ghost use Rattle.std.specs.Prelude.{◌≡◌, [], IfOk, OnOk};
ghost use Rattle.filter_chain.specs.Transcripts.{IsEmpty};
ghost use Rattle.chain_plain.specs.Telling.{Tallies};

use filter_chain::Transcript;
use ids_types::{NoMemory, TurnOut};
use std::alloc::Global;

/// What turns sent, and the number that each hands on to the next.
#[derive(Debug, Drop)]
pub struct Tally {
    pub transcript: Transcript,
    pub limited: Vec<u64>,
}

impl Tally {
    /// Before the first turn, with room for the numbers of so many.
    /// Steps: as `Transcript::make`. Memory: may answer want of memory; what was sent grows later.
    pub fn make(alloc: Global, turns: u64) -> Result<Tally, NoMemory>
        ensures transcript { IfOk result (λ tally. IsEmpty tally.transcript) }
        ensures limited { IfOk result (λ tally. tally.limited.items ≡ []) }
    {
        Ok(Tally {
            transcript: Transcript::make(alloc, turns)?,
            limited: Vec::with_capacity(alloc, turns as usize)?,
        })
    }

    /// Adds a turn: its output, and the number that it hands on.
    /// Steps: as `Transcript::add`. Memory: may answer want of memory. By: `Tallies`; no loop.
    pub fn add(&mut self, out: &TurnOut, limited: u64) -> Result<(), NoMemory>
        ensures { OnOk result (Tallies out.now limited self.old self.new) }
    {
        self.transcript.add(out)?;
        Ok(self.limited.push(limited)?)
    }
}
