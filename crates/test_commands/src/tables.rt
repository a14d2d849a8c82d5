//! Tables of runs, in blocks with an empty line between them. The first line of a block gives a run, and each one below it,
//! `FAILS => WANTED`, which of its calls fails, and what is then wanted of it. Where the first line has the arrow, those
//! below it give the runs.

use crate::calls::tell_count;
use crate::disks::tell_over_disk;
use crate::shelves::{shelf_of, sink_of, words_of};
use crate::telling::push_end;
use crate::wanting::tell_wanting;
use ids_outside::{MemoryShelf, MemorySink};
use idsm_run::{OpenGate, is_replay, is_report, run_plain, run_replay, run_report};
use std::alloc::Global;
use std::sync::Wait;
use std::test::Fail;
use std::thread::Threads;

/// What the lines of a table give, and want of it.
#[derive(Clone, Copy)]
pub(crate) enum Lines {
    /// The numbers of the call of the shelf and of the put that fail, or `-`. Wanted is how the run ends.
    Ends,
    /// How many calls of the shelf it makes, by the run that its words choose. Wanted is its status.
    Counts,
    /// As `Ends`, but the call and the put want memory.
    Wanting,
    /// As `Ends` over a disk, with the number of its call that fails after the two.
    Disks,
}

/// Replays, and returns the status: 255 where a manager goes with another one than 0, or none with 0.
fn replay<R: Threads + Sync>(
    rt: &R,
    alloc: Global,
    words: &[String],
    shelf: &mut MemoryShelf,
    out: &mut MemorySink,
) -> u8 {
    let (status, manager) = run_replay(rt, alloc, words, shelf, out, &OpenGate);
    if manager.is_some() == (status == 0) {
        status
    } else {
        255
    }
}

/// Reports, and returns the status: 255 where a drain goes with another one than 0, or none with 0.
fn report<R: Threads + Wait + Sync>(
    rt: &R,
    alloc: Global,
    words: &[String],
    shelf: &mut MemoryShelf,
    out: &mut MemorySink,
) -> u8 {
    let (status, drain) = run_report(rt, alloc, words, shelf, out);
    if drain.is_some() == (status == 0) {
        status
    } else {
        255
    }
}

/// Runs the words as the lines ask for, and returns the status.
pub(crate) fn run<R: Threads + Wait + Sync>(
    rt: &R,
    alloc: Global,
    lines: Lines,
    words: &[String],
    shelf: &mut MemoryShelf,
    out: &mut MemorySink,
) -> u8 {
    match lines {
        Lines::Ends | Lines::Counts if is_replay(words) => replay(rt, alloc, words, shelf, out),
        Lines::Ends if is_report(words) => report(rt, alloc, words, shelf, out),
        _ => run_plain(alloc, words, shelf, out),
    }
}

/// Appends how a run ends in which these calls fail.
fn tell_end<R: Threads + Wait + Sync>(
    rt: &R,
    alloc: Global,
    lines: Lines,
    given: &str,
    fails: &str,
    told: &mut Vec<u8>,
) -> Result<(), Fail> {
    let (call, put) = fails.split_once(" ").unwrap_or((fails, "-"));
    let words = words_of(alloc, given)?;
    let mut out = sink_of(alloc, put)?;
    let mut shelf = shelf_of(alloc, given, call)?;
    let status = run(rt, alloc, lines, &words, &mut shelf, &mut out);
    push_end(told, status, &shelf, &out)
}

/// Appends what comes of a line.
fn tell<R: Threads + Wait + Sync>(
    rt: &R,
    alloc: Global,
    lines: Lines,
    given: &str,
    fails: &str,
    told: &mut Vec<u8>,
) -> Result<(), Fail> {
    match lines {
        Lines::Counts => tell_count(rt, alloc, given, fails, told),
        Lines::Wanting => tell_wanting(alloc, given, fails, told),
        Lines::Disks => tell_over_disk(alloc, given, fails, told),
        _ => tell_end(rt, alloc, lines, given, fails, told),
    }
}

/// The same of a block.
fn block_holds<R: Threads + Wait + Sync>(
    rt: &R,
    alloc: Global,
    lines: Lines,
    block: &'static str,
) -> Result<(), Fail> {
    let (head, rest) = block.split_once("\n").ok_or("a line below the first")?;
    let mut told = Vec::new(alloc);
    for line in rest.lines() {
        let (given, (fails, wanted)) = match head.split_once(" => ") {
            Some(both) => (line, both),
            None => (head, line.split_once(" => ").unwrap_or((line, ""))),
        };
        told.clear();
        tell(rt, alloc, lines, given, fails, &mut told)?;
        if told.as_slice() != wanted.as_bytes() {
            return Err(Fail::new(line));
        }
    }
    Ok(())
}

/// Fails with the first line of the table of which something else comes than it wants.
pub(crate) fn each_line_holds<R: Threads + Wait + Sync>(
    rt: &R,
    alloc: Global,
    lines: Lines,
    table: &'static str,
) -> Result<(), Fail> {
    for block in table.split("\n\n") {
        block_holds(rt, alloc, lines, block)?;
    }
    Ok(())
}
