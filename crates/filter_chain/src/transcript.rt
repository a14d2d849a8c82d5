//! What turns sent.
ghost use Rattle.std.specs.Prelude.{IfOk, OnOk};
ghost use Rattle.filter_chain.specs.Transcripts.{Adds, IsEmpty};

use ids_types::{NoMemory, TurnOut};
use std::alloc::Global;

/// What turns sent, one after the other, and how many bytes were sent by the end of each.
#[derive(Debug, Drop)]
pub struct Transcript {
    pub sent: Vec<u8>,
    pub ends: Vec<u64>,
    /// How many messages were sent, counted up to 2^64 - 1.
    pub messages: u64,
}

impl Transcript {
    /// Before the first turn, with room for the ends of so many.
    /// Memory: may answer want of memory; what was sent grows later.
    pub fn make(alloc: Global, turns: u64) -> Result<Transcript, NoMemory>
        ensures { IfOk result IsEmpty }
    {
        Ok(Transcript {
            sent: Vec::new(alloc),
            ends: Vec::with_capacity(alloc, turns as usize)?,
            messages: 0,
        })
    }

    /// Adds what a turn sent.
    /// Steps: the bytes that the turn sent. Memory: may answer want of memory. By: `Adds`; read off.
    pub fn add(&mut self, out: &TurnOut) -> Result<(), NoMemory>
        ensures { OnOk result (Adds out.now self.old self.new) }
    {
        self.sent.extend_from_slice(out.sent())?;
        self.ends.push(self.sent.len() as u64)?;
        self.messages = self.messages.saturating_add(u64::from(out.messages()));
        Ok(())
    }
}
