//! Runs of `keep` in which a call of the disk fails, and what a crash leaves of them.

use crate::disks::{disk_of, run_over};
use crate::shelves::shelf_of;
use std::alloc::Global;
use std::test::Fail;

/// Three events that are stored and not sent, in an event memory of two records, and five turns, each with a report: of the
/// events 0, 1, 0, 2 and 1.
const KEEP: &str =
    r##"keep d c j | {"form":1,"instance":18,"memory":2,"events":[{"id":1,"sensor":0,"send":false,"store":true},{"id":2,"sensor":0,"send":false,"store":true},{"id":3,"sensor":0,"send":false,"store":true}]} | T 1 0 0 0/R 0 0 0 1 - -/T 2 0 0 0/R 0 1 1 1 - -/T 3 0 0 0/R 0 2 0 1 - -/T 4 0 0 0/R 0 3 2 1 - -/T 5 0 0 0/R 0 4 1 1 - -/"##;

/// How a `keep` ends after 0, 1, and up to 5 saves.
const ENDED: &str = "13 | disk failed after 0/
13 | disk failed after 1/
13 | disk failed after 2/
13 | disk failed after 3/
13 | disk failed after 4/
0 | saved 5/";

/// How a `recall` ends where the memory after 0, 1, and up to 5 turns is kept. The third turn's event comes again and
/// moves to the end; that of the fourth displaces the record stored longest ago, and so does that of the fifth, which
/// begins anew.
const RECALLED: &str = "0 | records 0/ | r=
0 | records 1/ | r=S 0 1 0 1 1 1 - -/
0 | records 2/ | r=S 0 1 0 1 1 1 - -/S 1 2 0 1 2 2 - -/
0 | records 2/ | r=S 1 2 0 1 2 2 - -/S 0 1 0 2 1 3 - -/
0 | records 2/ | r=S 0 1 0 2 1 3 - -/S 2 3 0 1 4 4 - -/
0 | records 2/ | r=S 2 3 0 1 4 4 - -/S 1 2 0 1 5 5 - -/";

/// For each call that fails, after how many saves the `keep` ends. In the last run no call fails.
/// A beginning has three calls. The first two saves go to slots that are shut, and have four: the body and then the
/// gate are written, each with a sync. Each save after them has two more, which shut its slot first.
const SAVES: &str = "000 0000 1111 222222 333333 444444 5";

/// The value that the crash gives to what was not synced, and for each call that fails, after how many turns the
/// memory is recalled. A gate that was not yet synced is open where the crash gives 1.
const ROWS: &str = "0 => 000 0000 1111 222222 333333 444444 5
1 => 000 0011 1122 222233 333344 444455 5
255 => 000 0000 1111 222222 333333 444444 5";

/// Whether this is the line of that digit, from 0.
fn is_line(lines: &str, digit: u8, told: &[u8]) -> bool {
    match lines.lines().nth(usize::from(digit.wrapping_sub(b'0'))) {
        Some(line) => line.as_bytes() == told,
        None => false,
    }
}

/// Whether a `keep` whose call of this number fails ends after so many saves, and the memory after so many turns is
/// recalled that a crash leaves, as two digits tell them.
fn leaves(alloc: Global, fails: &str, fill: u8, wanted: (u8, u8)) -> Result<bool, Fail> {
    let mut told = Vec::new(alloc);
    let mut shelf = shelf_of(alloc, KEEP, "-")?;
    let disk = disk_of(alloc, "+", fails)?;
    let disk = run_over(alloc, KEEP, &mut shelf, "-", disk, &mut told)?.crash(fill);
    let is_ended = is_line(ENDED, wanted.0, &told);
    told.clear();
    run_over(alloc, "recall d r", &mut shelf, "-", disk, &mut told)?;
    Ok(is_ended && is_line(RECALLED, wanted.1, &told))
}

/// Whether each call failing in turn leaves the numbers of saves and of turns that the row tells.
fn is_left(alloc: Global, row: &str) -> Result<bool, Fail> {
    let (fill, row) = row.split_once(" => ").ok_or("an arrow")?;
    let fill = fill.parse::<u8>()?;
    let mut call = 0u8;
    for wanted in SAVES.bytes().zip(row.bytes()) {
        if wanted != (b' ', b' ') {
            let fails = format!(in alloc; "{call}")?;
            if !leaves(alloc, fails.as_str(), fill, wanted)? {
                return Ok(false);
            }
            call = call.wrapping_add(1);
        }
    }
    Ok(call == 30)
}

#[test]
fn a_crash_leaves_the_memory_of_the_turns_that_were_saved_or_of_one_more(
    rt: HostRuntime,
) -> Result<(), Fail> {
    for row in ROWS.lines() {
        if !is_left(rt.alloc(), row)? {
            return Err(Fail::new(row));
        }
    }
    Ok(())
}
