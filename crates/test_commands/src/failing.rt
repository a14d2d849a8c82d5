//! Runs in which a call of the shelf fails, or a put. A table gives them by their numbers, from 0.

use crate::tables::{Lines, each_line_holds};
use std::test::Fail;

/// Three turns, each with a message of eight bytes: two reads, the creation of `m`, three appends, the creation of `r`.
/// Of four turns two send nothing, and one sends two messages.
const FOLDS: &str =
    "fold c j m r | . | T 1 0 0 0/R 0 0 0 1 - -/T 2 0 0 0/R 0 1 0 1 - -/T 3 0 0 0/R 0 2 0 1 - -/
0 - => 3 | cannot read c/
1 - => 3 | cannot read j/
2 - => 7 | cannot write/
3 - => 7 | cannot write/ | m=#
4 - => 7 | cannot write/ | m=#100483002a000100
5 - => 7 | cannot write/ | m=#100483002a000100100483002a000100
6 - => 7 | cannot write/ | m=#100483002a000100100483002a000100100483002a000100
7 0 => 7 | m=#100483002a000100100483002a000100100483002a000100 | r=
7 1 => 0 | turns 3 entries 3 messages 3 records 0/ | m=#100483002a000100100483002a000100100483002a000100 | r=
0 0 => 7
4 0 => 7 | m=#100483002a000100
- 0 => 7 | m=#100483002a000100100483002a000100100483002a000100 | r=

fold c j m r | . | T 1 0 0 0/T 2 0 0 0/R 0 0 0 1 - -/R 0 1 0 2 - -/T 3 0 0 0/T 4 0 0 0/R 0 2 0 3 - -/
3 - => 7 | cannot write/ | m=#
4 - => 7 | cannot write/ | m=#100483002a000100100483002a000200
5 - => 7 | cannot write/ | m=#100483002a000100100483002a000200100483002a000300";

#[test]
fn each_failing_call_leaves_a_first_part(rt: HostRuntime) -> Result<(), Fail> {
    each_line_holds(&rt, rt.alloc(), Lines::Ends, FOLDS)
}

/// One report that is stored: two reads, the creation of `m`, one append where the report is sent, the creation of `r`,
/// and one append of the memory's text.
const STORES: &str =
    r##"fold c j m r | {"form":1,"instance":18,"memory":1,"events":[{"id":42,"sensor":3,"store":true}]} | T 1 0 0 0/R 0 0 0 1 - -/
4 - => 7 | cannot write/ | m=#100483002a000100
5 - => 7 | cannot write/ | m=#100483002a000100 | r=
6 - => 0 | turns 1 entries 1 messages 1 records 1/ | m=#100483002a000100 | r=S 0 42 3 1 1 1 - -/

fold c j m r | {"form":1,"instance":18,"memory":1,"events":[{"id":42,"sensor":3,"send":false,"store":true}]} | T 1 0 0 0/R 0 0 0 1 - -/
3 - => 7 | cannot write/ | m=#
4 - => 7 | cannot write/ | m=# | r=
5 - => 0 | turns 1 entries 1 messages 0 records 1/ | m=# | r=S 0 42 3 1 1 1 - -/"##;

#[test]
fn the_event_memory_is_written_last(rt: HostRuntime) -> Result<(), Fail> {
    each_line_holds(&rt, rt.alloc(), Lines::Ends, STORES)
}

/// `decode` reads once and puts once, and nothing of an empty file; `migrate` reads once, creates `m` and appends once;
/// `check` reads three files, each judged before the next is read.
const OTHERS: &str = "decode c | #110483002a00010002a1b2
0 - => 3 | cannot read c/
0 0 => 7
- 0 => 7
1 1 => 0 | M 18 3 42 1 0 - s:a1b2 -/

decode c | #
- 0 => 0

migrate c m | .
0 - => 3 | cannot read c/
1 - => 7 | cannot write/
2 - => 7 | cannot write/ | m=#
2 0 => 7 | m=#

migrate c m | {}
- 0 => 7

check c j k | . | T 5 0 0 0/R 0 0 0 1 - 0:0:a1b2/ | #110483002a00010002a1b2
0 - => 3 | cannot read c/ | k=#110483002a00010002a1b2
1 - => 3 | cannot read j/ | k=#110483002a00010002a1b2
2 - => 3 | cannot read k/ | k=#110483002a00010002a1b2
3 - => 0 | same/ | k=#110483002a00010002a1b2

check c j k | {} | T 5 0 0 0/R 0 0 0 1 - 0:0:a1b2/ | #110483002a00010002a1b2
1 - => 5 | bad config 4 at top/ | k=#110483002a00010002a1b2

check c j k | . | ? | #110483002a00010002a1b2
2 - => 6 | bad journal line 1: 1/ | k=#110483002a00010002a1b2

check c j k | . | T 5 0 0 0/R 0 0 0 1 - 0:0:a1b2/ | #110483002a00010002a1b2
- 0 => 7 | k=#110483002a00010002a1b2

check c j k | . | T 5 0 0 0/R 0 0 0 1 - 0:0:a1b2/ | #110483002a00010002a1
- 0 => 7 | k=#110483002a00010002a1";

#[test]
fn what_comes_first_is_told(rt: HostRuntime) -> Result<(), Fail> {
    each_line_holds(&rt, rt.alloc(), Lines::Ends, OTHERS)
}

/// One read or two, the creation of `m`, and one append.
const SEALS: &str = "sign c 5 j m | #4a656665 | #110483002a00010002a1b2
0 - => 3 | cannot read c/
1 - => 3 | cannot read j/
2 - => 7 | cannot write/
3 - => 7 | cannot write/ | m=#
4 0 => 7 | m=#150483002a00010002a1b200280000000000000005e2ac6bcdcebf0b1d6f707a414cfc1400f93a6d542947082990ebef90da4484df

verify c 5 j m | #4a656665 | #150483002a00010002a1b200280000000000000005e2ac6bcdcebf0b1d6f707a414cfc1400f93a6d542947082990ebef90da4484df
0 - => 3 | cannot read c/
1 - => 3 | cannot read j/
2 - => 7 | cannot write/
3 - => 7 | cannot write/ | m=#

bundle 64 c m | #100483002a000100100483002a000100100483002a000100100483002a000100100483002a000100100483002a000100100483002a000100100483002a000100100483002a000100
0 - => 3 | cannot read c/
1 - => 7 | cannot write/
2 - => 7 | cannot write/ | m=#

unbundle c m | #00080040100483002a000100100483002a000100100483002a000100100483002a000100100483002a000100100483002a000100100483002a000100100483002a00010000010008100483002a000100
0 - => 3 | cannot read c/
1 - => 7 | cannot write/
2 - => 7 | cannot write/ | m=#";

#[test]
fn each_failing_call_of_sealing_and_packing_is_told(rt: HostRuntime) -> Result<(), Fail> {
    each_line_holds(&rt, rt.alloc(), Lines::Ends, SEALS)
}

/// One report that is sent and stored: two reads, and the creation and one append of each of `m`, `r` and `o`.
const REPLAYS: &str =
    r##"replay c j m r o | {"form":1,"instance":18,"memory":1,"events":[{"id":42,"sensor":3,"store":true}]} | N/R 0 0 1 - -/E 5/
2 - => 7 | cannot write/
3 - => 7 | cannot write/ | m=#
4 - => 7 | cannot write/ | m=#100483002a000100
5 - => 7 | cannot write/ | m=#100483002a000100 | r=
6 - => 7 | cannot write/ | m=#100483002a000100 | r=S 0 42 3 1 5 5 - -/
7 - => 7 | cannot write/ | m=#100483002a000100 | r=S 0 42 3 1 5 5 - -/ | o=
8 0 => 7 | m=#100483002a000100 | r=S 0 42 3 1 5 5 - -/ | o=T 5 0 0 0/R 0 0 0 1 - -/T 5 0 0 0/
8 1 => 0 | turns 2 entries 1 losses 0 without 0/ | m=#100483002a000100 | r=S 0 42 3 1 5 5 - -/ | o=T 5 0 0 0/R 0 0 0 1 - -/T 5 0 0 0/"##;

#[test]
fn each_failing_call_of_a_replay_is_told(rt: HostRuntime) -> Result<(), Fail> {
    each_line_holds(&rt, rt.alloc(), Lines::Ends, REPLAYS)
}

/// Two reads, the creation of `m`, and one append, where there is a message.
const REPORTS: &str = "report m c j | #100483002a000100 | #
0 - => 3 | cannot read c/
1 - => 3 | cannot read j/
2 - => 7 | cannot write/
3 - => 7 | cannot write/ | m=#
4 - => 0 | sources 2 messages 1/ | m=#100483002a000100

report m c j | # | #
3 - => 0 | sources 2 messages 0/ | m=#

report m c j | #100483002a000100 | #
- 0 => 7 | m=#100483002a000100";

#[test]
fn each_failing_call_of_a_report_is_told(rt: HostRuntime) -> Result<(), Fail> {
    each_line_holds(&rt, rt.alloc(), Lines::Ends, REPORTS)
}

/// The creation and one append of each of three files: of the configuration `m`, the trace `r` and the journal `o`.
const GEN: &str = "gen --rounds 1 m r o
0 - => 7 | cannot write/
1 - => 7 | cannot write/ | m=#
2 - => 7 | cannot write/ | m
3 - => 7 | cannot write/ | m | r=
4 - => 7 | cannot write/ | m | r
5 - => 7 | cannot write/ | m | r | o=";

#[test]
fn gen_stops_where_a_write_fails(rt: HostRuntime) -> Result<(), Fail> {
    each_line_holds(&rt, rt.alloc(), Lines::Ends, GEN)
}
