//! Which calls of the shelf a run makes, and how many. The calls of a shelf in memory are numbered, and the listed one
//! fails: where a run leaves it to the test's own next call to fail, it made as many calls as that call's number.

use crate::shelves::{shelf_of, sink_of, words_of};
use crate::tables::{Lines, each_line_holds, run};
use ids_outside::{MemoryShelf, Shelf};
use std::alloc::Global;
use std::sync::Wait;
use std::test::Fail;
use std::thread::Threads;
use text_spec::push_number;

/// Whether no call has failed, and the next one does.
fn fails_next(alloc: Global, shelf: &mut MemoryShelf) -> bool {
    shelf.fault_count() == 0 && shelf.read(alloc, "c", 67_108_864).is_err()
}

/// Appends the status of the run where it makes exactly so many calls.
pub(crate) fn tell_count<R: Threads + Wait + Sync>(
    rt: &R,
    alloc: Global,
    given: &str,
    calls: &str,
    told: &mut Vec<u8>,
) -> Result<(), Fail> {
    let words = words_of(alloc, given)?;
    let mut out = sink_of(alloc, "-")?;
    let mut shelf = shelf_of(alloc, given, calls)?;
    let status = run(rt, alloc, Lines::Counts, &words, &mut shelf, &mut out);
    if fails_next(alloc, &mut shelf) {
        push_number(told, status as u64)?;
    }
    Ok(())
}

/// A bad configuration ends the run before the journal is read, be it there or not.
const REFUSED: &str = "fold c j m | .
0 => 2

fold c j m r | {}
1 => 5

fold c x m r | {}
1 => 5

fold c j m r | . | ?
2 => 6

decode c | #110483002a00010002a1b2
1 => 0

decode c | ?
1 => 10

migrate c m | {}
1 => 5

migrate c m | .
3 => 0";

#[test]
fn what_is_refused_makes_no_call_more(rt: HostRuntime) -> Result<(), Fail> {
    each_line_holds(&rt, rt.alloc(), Lines::Counts, REFUSED)
}

/// Of the four turns of the first run two send nothing, and one sends two messages. The calls are two reads, the creation
/// of `m`, two appends, and the creation of `r`. The replay of two turns that send and three that do not creates and appends
/// its journal besides.
const TURNS: &str =
    "fold c j m r | . | T 1 0 0 0/T 2 0 0 0/R 0 0 0 1 - -/R 0 1 0 2 - -/T 3 0 0 0/T 4 0 0 0/R 0 2 0 3 - -/
6 => 0

fold c j m r | .
4 => 0

fold c j m r | . | T 1 0 0 0/T 2 0 0 0/
4 => 0

replay c j m r o | . | N/R 0 0 1 - -/E 5/N 6/E 7/N/R 0 0 1 - -/E 8/
8 => 0";

#[test]
fn each_turn_that_sends_is_one_append(rt: HostRuntime) -> Result<(), Fail> {
    each_line_holds(&rt, rt.alloc(), Lines::Counts, TURNS)
}
