//! Runs over a shelf and a sink that want memory: their status and their text.

ghost use Rattle.std.specs.Prelude.{◌-◌, ◌^◌, None};
ghost use Rattle.ids_outside.specs.{silent, deaf};

use crate::shelves::{shelf_of, sink_of, words_of};
use crate::tables::{Lines, each_line_holds};
use crate::telling::push_end;
use ids_outside::{MemoryShelf, MemorySink, ReadFault, Shelf, Sink, WriteFault};
use idsm_run::run_plain;
use std::alloc::Global;
use std::test::Fail;

/// Counts calls, of which the one of this number, from 0, wants memory.
#[derive(Drop)]
struct Wanting {
    at: u64,
    calls: u64,
}

impl Wanting {
    /// Whether the next call wants memory.
    fn next_wants(&mut self) -> bool {
        let wants = self.calls == self.at;
        self.calls = self.calls.wrapping_add(1);
        wants
    }
}

/// A shelf in memory of which one call wants memory and does nothing; so does one that fails. It tells
/// nothing, and its count of refusals stands at the greatest one.
#[derive(Drop)]
struct WantingShelf {
    inner: MemoryShelf,
    wanting: Wanting,
}

impl Shelf for WantingShelf {
    ghost shows = { λ _. silent (record { count = 0; last = None; refused = 2 ^ 64 - 1 }) };

    fn read(&mut self, alloc: Global, name: &str, limit: u64) -> Result<Vec<u8>, ReadFault> {
        if self.wanting.next_wants() {
            return Err(ReadFault::NoMemory);
        }
        match self.inner.read(alloc, name, limit) {
            Ok(bytes) => Ok(bytes),
            Err(_) => Err(ReadFault::NoMemory),
        }
    }

    fn create(&mut self, name: &str) -> Result<(), WriteFault> {
        if self.wanting.next_wants() || self.inner.create(name).is_err() {
            return Err(WriteFault::NoMemory);
        }
        Ok(())
    }

    fn append(&mut self, name: &str, piece: &[u8]) -> Result<(), WriteFault> {
        if self.wanting.next_wants() || self.inner.append(name, piece).is_err() {
            return Err(WriteFault::NoMemory);
        }
        Ok(())
    }
}

/// A sink in memory of which one put wants memory and takes nothing, as the shelf.
#[derive(Drop)]
struct WantingSink {
    inner: MemorySink,
    wanting: Wanting,
}

impl Sink for WantingSink {
    ghost hears = { λ _. deaf (record { failed = 0; refused = 2 ^ 64 - 1 }) };

    fn put(&mut self, piece: &[u8]) -> Result<(), WriteFault> {
        if self.wanting.next_wants() || self.inner.put(piece).is_err() {
            return Err(WriteFault::NoMemory);
        }
        Ok(())
    }
}

/// Counts from 0 up to the call that wants memory; where the text is no number, none does.
fn wants_at(at: &str) -> Wanting {
    let at = at.parse::<u64>().unwrap_or(u64::MAX);
    Wanting { at, calls: 0 }
}

/// Appends how a run ends in which this call of the shelf and this put want memory.
pub(crate) fn tell_wanting(
    alloc: Global,
    given: &str,
    wanting: &str,
    told: &mut Vec<u8>,
) -> Result<(), Fail> {
    let (call, put) = wanting.split_once(" ").unwrap_or((wanting, "-"));
    let words = words_of(alloc, given)?;
    let mut out = WantingSink {
        inner: sink_of(alloc, "-")?,
        wanting: wants_at(put),
    };
    let mut shelf = WantingShelf {
        inner: shelf_of(alloc, given, "-")?,
        wanting: wants_at(call),
    };
    let status = run_plain(alloc, &words, &mut shelf, &mut out);
    push_end(told, status, &shelf.inner, &out.inner)
}

/// The calls of the shelf are two reads, the creation of `m`, one append and the creation of `r`.
const WANTING: &str = "fold c j m r | . | T 5 0 0 0/R 0 0 0 1 - 0:0:a1b2/
0 - => 8 | no memory/
1 - => 8 | no memory/
2 - => 8 | no memory/
3 - => 8 | no memory/ | m=#
4 - => 8 | no memory/ | m=#110483002a00010002a1b2
- 0 => 8 | m=#110483002a00010002a1b2 | r=
2 0 => 8
5 1 => 0 | turns 1 entries 1 messages 1 records 0/ | m=#110483002a00010002a1b2 | r=";

#[test]
fn want_of_memory_ends_a_run_with_its_status_and_its_text(rt: HostRuntime) -> Result<(), Fail> {
    each_line_holds(&rt, rt.alloc(), Lines::Wanting, WANTING)
}
