//! A replay whose callers and turn wait for each other in each round.

use crate::replays::meeting::Meeting;
use crate::shelves::{shelf_of, sink_of, words_of};
use ids_outside::{MemoryShelf, MemorySink};
use idsm_run::{run_plain, run_replay};
use std::alloc::Global;
use std::test::Fail;
use std::thread::Threads;

/// Two rounds, each of two callers with two reports each, and a turn beside them.
const GIVEN: &str =
    r#"replay c j m r o | {"form":1,"instance":18,"callers":2,"ring":4,"events":[{"id":42,"sensor":3}]} | N 5/R 0 0 1 - -/R 0 0 1 - -/R 1 0 1 - -/R 1 0 1 - -/E 5/N 6/R 0 0 1 - -/R 0 0 1 - -/R 1 0 1 - -/R 1 0 1 - -/E 6/"#;

/// Whether the replay ends well, and its two callers and the turn beside them met in both rounds.
fn replayed<R: Threads + Sync>(
    rt: &R,
    alloc: Global,
    words: &[String],
    shelf: &mut MemoryShelf,
    out: &mut MemorySink,
) -> bool {
    let gate = Meeting::of(2);
    let (status, manager) = run_replay(rt, alloc, words, shelf, out, &gate);
    status == 0 && manager.is_some() && gate.have_met(2)
}

/// Whether all three meet in each round of a replay, and a check of what it wrote finds the same.
fn meet<R: Threads + Sync>(rt: &R, alloc: Global) -> Result<bool, Fail> {
    let words = words_of(alloc, GIVEN)?;
    let check = words_of(alloc, "check c o m")?;
    let mut out = sink_of(alloc, "-")?;
    let mut shelf = shelf_of(alloc, GIVEN, "-")?;
    let have_met = replayed(rt, alloc, &words, &mut shelf, &mut out);
    let is_same = run_plain(alloc, &check, &mut shelf, &mut out) == 0;
    let told = b"turns 5 entries 8 losses 0 without 0\nsame\n".as_slice();
    Ok(have_met && is_same && out.taken() == told)
}

#[test]
fn two_callers_and_the_turn_beside_them_meet_in_each_round(rt: HostRuntime) -> Result<(), Fail> {
    assert!(rt; meet(&rt, rt.alloc())?);
    Ok(())
}
