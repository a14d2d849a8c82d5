//! A sink in memory, whose puts can be made to fail.

ghost use Rattle.std.specs.Prelude.{◌≡◌, [], IfOk, OnErr};
ghost use Rattle.ids_outside.specs.{CountsCall, WriteFollows, no_misses, PutTakes, PutCause, hearing};
ghost use Rattle.ids_outside.specs.Bodies.{sink_taken, sink_misses, sink_plan};

use crate::fault_log::{Missed, Script};
use crate::faults::WriteFault;
use crate::shelf::Sink;
use ids_types::NoMemory;
use std::alloc::Global;

/// A sink that keeps what it takes in memory, for tests. The puts whose numbers are listed fail.
#[derive(Debug, Drop)]
pub struct MemorySink {
    taken: Vec<u8>,
    script: Script,
    missed: Missed,
}

impl MemorySink {
    /// A sink that has taken nothing. Its puts are numbered from 0, and those in `fails` fail.
    /// Memory: none; its answer has NoMemory, and no path gives it. By: no loop; an empty list takes none.
    pub fn make(alloc: Global, fails: Vec<u64>) -> Result<MemorySink, NoMemory>
        ensures empty { IfOk result (λ sink. sink_taken sink ≡ []) }
        ensures plan { IfOk result (λ sink.
            sink_plan sink ≡ record { fails = fails.items; calls = 0 }) }
        ensures faults { IfOk result (λ sink. sink_misses sink ≡ no_misses) }
    {
        Ok(MemorySink {
            taken: Vec::new(alloc),
            script: Script { fails, calls: 0 },
            missed: Missed::new(),
        })
    }

    /// The bytes that it has taken so far.
    pub fn taken(&self) -> &[u8]
        ensures { result.now ≡ sink_taken self.now }
    {
        self.taken.as_slice()
    }

    /// How many puts have failed, up to 2^64 - 1.
    pub fn fault_count(&self) -> u64
        ensures { result ≡ (sink_misses self.now).failed }
    {
        self.missed.failed
    }
}

impl Sink for MemorySink {
    ghost hears = { λ sink. hearing (sink_taken sink) (sink_misses sink) };

    /// A put that fails takes nothing.
    fn put(&mut self, piece: &[u8]) -> Result<(), WriteFault>
        ensures takes { PutTakes (sink_taken self.old) (sink_taken self.new) piece.now result }
        ensures cause { PutCause (sink_misses self.old) (sink_misses self.new) result }
        ensures err { OnErr result (sink_taken self.new ≡ sink_taken self.old) }
        ensures follows { WriteFollows (sink_plan self.old) result }
        ensures counts { CountsCall (sink_plan self.old) (sink_plan self.new) }
    {
        if self.script.next_fails() {
            self.missed.fail();
            return Err(WriteFault::Failed);
        }
        if self.taken.extend_from_slice(piece).is_err() {
            self.missed.refuse();
            return Err(WriteFault::NoMemory);
        }
        Ok(())
    }
}
