//! Runs over a disk in which a call fails.

use crate::tables::{Lines, each_line_holds};
use std::test::Fail;

/// The put is the last step: where it fails, all turns were saved.
const KEEPS: &str =
    r##"keep d c j | {"form":1,"instance":18,"memory":2,"events":[{"id":1,"sensor":0,"send":false,"store":true},{"id":2,"sensor":0,"send":false,"store":true},{"id":3,"sensor":0,"send":false,"store":true}]} | T 1 0 0 0/R 0 0 0 1 - -/T 2 0 0 0/R 0 1 1 1 - -/T 3 0 0 0/R 0 2 0 1 - -/T 4 0 0 0/R 0 3 2 1 - -/T 5 0 0 0/R 0 4 1 1 - -/ over +
- 0 - => 7 then 0 | records 2/ | r=S 2 3 0 1 4 4 - -/S 1 2 0 1 5 5 - -/

keep d c j | {"form":1,"instance":18,"memory":2,"events":[{"id":1,"sensor":0,"send":false,"store":true},{"id":2,"sensor":0,"send":false,"store":true},{"id":3,"sensor":0,"send":false,"store":true}]} | T 1 0 0 0/R 0 0 0 1 - -/T 2 0 0 0/R 0 1 1 1 - -/T 3 0 0 0/R 0 2 0 1 - -/T 4 0 0 0/R 0 3 2 1 - -/T 5 0 0 0/R 0 4 1 1 - -/ over 0100000000000000070000002400050258090003000000000000000a0000000000000014018000000100000a000002a1b2+
- 0 3 => 7 then 0 | records 1/ | r=S 5 600 9 3 10 20 8000000100000a00 a1b2/"##;

#[test]
fn a_put_that_fails_undoes_no_save(rt: HostRuntime) -> Result<(), Fail> {
    each_line_holds(&rt, rt.alloc(), Lines::Disks, KEEPS)
}

/// A `recall` makes three calls of the disk, and then creates MEMORY and appends to it once, where there is a record.
/// A create that fails leaves the file of the `recall` before.
const RECALLS: &str =
    "recall d r over 0100000000000000070000002400050258090003000000000000000a0000000000000014018000000100000a000002a1b2+
- - 0 => 13 | disk failed/ then 0 | records 1/ | r=S 5 600 9 3 10 20 8000000100000a00 a1b2/
- - 1 => 13 | disk failed/ then 0 | records 1/ | r=S 5 600 9 3 10 20 8000000100000a00 a1b2/
- - 2 => 13 | disk failed/ then 0 | records 1/ | r=S 5 600 9 3 10 20 8000000100000a00 a1b2/
- - 3 => 0 | records 1/ | r=S 5 600 9 3 10 20 8000000100000a00 a1b2/ then 13 | disk failed/ | r=S 5 600 9 3 10 20 8000000100000a00 a1b2/
0 - - => 7 | cannot write/ then 0 | records 1/ | r=S 5 600 9 3 10 20 8000000100000a00 a1b2/
1 - - => 7 | cannot write/ | r= then 0 | records 1/ | r=S 5 600 9 3 10 20 8000000100000a00 a1b2/
2 - - => 0 | records 1/ | r=S 5 600 9 3 10 20 8000000100000a00 a1b2/ then 7 | cannot write/ | r=S 5 600 9 3 10 20 8000000100000a00 a1b2/
- 0 - => 7 | r=S 5 600 9 3 10 20 8000000100000a00 a1b2/ then 0 | records 1/ | r=S 5 600 9 3 10 20 8000000100000a00 a1b2/

recall d r over +
0 - - => 7 | cannot write/ then 0 | records 0/ | r=
1 - - => 0 | records 0/ | r= then 7 | cannot write/ | r=

recall d r over 01+
0 0 - => 7 then 14 | bad disk: slot 0/";

#[test]
fn each_failing_call_of_a_recall_is_told(rt: HostRuntime) -> Result<(), Fail> {
    each_line_holds(&rt, rt.alloc(), Lines::Disks, RECALLS)
}

/// Recordings that are none or cannot be read. Call 0 of the disk is the one that fails, so the `recall` after each run
/// tells that it is still to come.
const REFUSED: &str =
    r##"keep d c j | {"form":1,"instance":18,"memory":2,"events":[{"id":1,"sensor":0,"send":false,"store":true},{"id":2,"sensor":0,"send":false,"store":true},{"id":3,"sensor":0,"send":false,"store":true}]} | T 1 0 0 0/R 0 0 0 1 - -/T 2 0 0 0/R 0 1 1 1 - -/T 3 0 0 0/R 0 2 0 1 - -/T 4 0 0 0/R 0 3 2 1 - -/T 5 0 0 0/R 0 4 1 1 - -/ over +
0 - 0 => 3 | cannot read c/ then 13 | disk failed/
1 - 0 => 3 | cannot read j/ then 13 | disk failed/

keep d c j | {} | T 1 0 0 0/R 0 0 0 1 - -/T 2 0 0 0/R 0 1 1 1 - -/T 3 0 0 0/R 0 2 0 1 - -/T 4 0 0 0/R 0 3 2 1 - -/T 5 0 0 0/R 0 4 1 1 - -/ over +
- 0 0 => 7 then 13 | disk failed/"##;

#[test]
fn a_bad_recording_leaves_the_disk_alone(rt: HostRuntime) -> Result<(), Fail> {
    each_line_holds(&rt, rt.alloc(), Lines::Disks, REFUSED)
}
