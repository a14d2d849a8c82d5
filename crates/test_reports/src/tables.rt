//! Reports and controls by one pass, turns over the filter chain, and closes: what they answer, worked out by hand.

use crate::steps::each_step_holds;
use std::test::*;

/// Each table is behind an empty line.
const TABLES: &str =
    r##"{"form":1,"instance":18,"ring":8,"events":[{"id":42,"sensor":3},{"id":7,"sensor":0}],"internal":{"lost_events":1}}
# Event 1 is internal.
# A refusal is no call. The mode of an internal event can be set, but no sensor reports one.
event 0 9 => unknown event
event 0 1 => unknown event
count 0 9 0 => unknown event
count 0 0 0 => zero count
report 0 1 0 0 0 => unknown event
mode 0 2 OFF => unknown event
calls 0 => caller 0 calls 0
count 0 0 1 => accepted 0
mode 0 1 OFF => accepted 1
state 0 7 => accepted 2
event 0 0 => accepted 3
calls 0 => caller 0 calls 4
turn 5 => T 5 0 0 0/R 0 0 0 1 - -/C 0 1 M 1 OFF/C 0 2 S 7/R 0 3 0 1 - -/ 2 #100483002a000100100483002a000100

{"form":1,"instance":18,"ring":8,"classes":[{"size":8,"number":4},{"size":1024,"number":4}],"events":[{"id":42,"sensor":3}]}
# A context goes into the smallest class that fits. No class fits 1,025 bytes.
context 0 0 0 => accepted 0
context 0 0 8 => accepted 1
context 0 0 9 => accepted 2
context 0 0 1025 => without 3
turn 5 => T 5 0 1 0/R 0 0 0 1 - -/R 0 1 0 1 - 0:0:0101010101010101/R 0 2 0 1 - 1:0:020202020202020202/R 0 3 0 1 - !/ 4 #100483002a000100110483002a000100080101010101010101110483002a00010009020202020202020202100483002a000100

{"form":1,"instance":18,"ring":4,"classes":[{"size":8,"number":1},{"size":64,"number":1}],"events":[{"id":42,"sensor":3}]}
# Full classes are told by the number that each look showed, and a full ring by one. A lost control is not
# counted.
report 0 0 1 4 17 => accepted 0
report 0 0 1 4 17 => accepted 1
report 0 0 1 4 17 => without 2 1 1
report 0 0 9 0 17 => accepted 3
context 0 0 4 => lost 4
state 0 7 => lost 4
turn 5 => T 5 1 1 0/R 0 0 0 1 0000000000000011 0:0:00000000/R 0 1 0 1 0000000000000011 1:0:01010101/R 0 2 0 1 0000000000000011 !1.1/R 0 3 0 9 0000000000000011 -/ 4 #130483002a00010000000000000000110400000000130483002a00010000000000000000110401010101120483002a0001000000000000000011120483002a0009000000000000000011

{"form":1,"instance":18,"ring":2,"classes":[{"size":4,"number":1}],"events":[{"id":42,"sensor":3}]}
# A buffer that comes back is claimed again, by the next number.
context 0 0 3 => accepted 0
context 0 0 1 => without 1 1
turn 1 => T 1 0 1 0/R 0 0 0 1 - 0:0:000000/R 0 1 0 1 - !1/ 2 #110483002a00010003000000100483002a000100
context 0 0 1 => accepted 2
turn 1 => T 1 0 0 0/R 0 2 0 1 - 0:1:02/ 1 #110483002a0001000102

{"form":1,"instance":18,"events":[{"id":42,"sensor":3}]}
# A tick below the last one, or above 2^62, changes nothing.
turn 10 => T 10 0 0 0/ 0 #
event 0 0 => accepted 0
turn 9 => tick back
turn 4611686018427387905 => tick too large
tell turns => 1
turn 10 => T 10 0 0 0/R 0 0 0 1 - -/ 1 #100483002a000100
tell turns => 2
turn 4611686018427387904 => T 4611686018427387904 0 0 0/ 0 #
turn 4611686018427387905 => tick too large
tell turns => 3

{"form":1,"instance":18,"ring":2,"events":[{"id":42,"sensor":3},{"id":7,"sensor":0}],"internal":{"lost_events":1}}
# The second event tells of lost ones.
# What was lost is told once.
event 0 0 => accepted 0
event 0 0 => accepted 1
event 0 0 => lost 2
turn 5 => T 5 1 0 0/R 0 0 0 1 - -/R 0 1 0 1 - -/ 3 #1004800007000100100483002a000100100483002a000100
turn 5 => T 5 0 0 0/ 0 #
event 0 0 => accepted 2

{"form":1,"instance":18,"ring":4,"classes":[{"size":1,"number":1}],"events":[{"id":42,"sensor":3},{"id":8,"sensor":0}],"internal":{"lost_contexts":1}}
# The second event tells of missing contexts.
context 0 0 1 => accepted 0
context 0 0 1 => without 1 1
context 0 0 2 => without 2
turn 7 => T 7 0 2 0/R 0 0 0 1 - 0:0:00/R 0 1 0 1 - !1/R 0 2 0 1 - !/ 4 #1004800008000200110483002a0001000100100483002a000100100483002a000100

{"form":1,"instance":18,"rate":{"interval":1000,"events":2},"events":[{"id":42,"sensor":3},{"id":9,"sensor":0}],"internal":{"limited":1}}
# Two messages in each 1,000 ticks. The second event tells of what was held back.
# A turn begins with the number that the turn before it held back.
event 0 0 => accepted 0
event 0 0 => accepted 1
event 0 0 => accepted 2
turn 100 => T 100 0 0 0/R 0 0 0 1 - -/R 0 1 0 1 - -/R 0 2 0 1 - -/ 2 #100483002a000100100483002a000100
turn 1000 => T 1000 0 0 1/ 1 #1004800009000100
turn 1000 => T 1000 0 0 0/ 0 #

{"form":1,"instance":18,"events":[{"id":42,"sensor":3,"nth":2,"block":[1]}]}
# Every second event passes, and none in state 1.
# A control takes effect for what was reported after it.
count 0 0 1 => accepted 0
state 0 1 => accepted 1
count 0 0 2 => accepted 2
state 0 0 => accepted 3
count 0 0 3 => accepted 4
mode 0 0 BRIEF_BYPASSING_FILTERS => accepted 5
count 0 0 4 => accepted 6
turn 5 => T 5 0 0 0/R 0 0 0 1 - -/C 0 1 S 1/R 0 2 0 2 - -/C 0 3 S 0/R 0 4 0 3 - -/C 0 5 M 0 BRIEF_BYPASSING_FILTERS/R 0 6 0 4 - -/ 2 #100483002a000300100483002a000400

{"form":1,"instance":18,"callers":2,"memory":2,"classes":[{"size":4,"number":2}],"events":[{"id":42,"sensor":3,"store":true},{"id":7,"sensor":0,"store":true},{"id":9,"sensor":1,"send":false,"store":true}]}
# Two callers, and a memory of two records for three events, of which the last is not sent.
# The rests tell how many turns were made at each, and then how many calls of each caller, rest by rest.
tell rests => 0
tell memory => 0/
rest => rested
context 1 0 2 => accepted 0
count 0 1 5 => accepted 1
turn 3 => T 3 0 0 0/R 1 0 0 1 - 0:0:0000/R 0 0 1 5 - -/ 2 #110483002a0001000200001004800007000500
rest => rested
tell memory => 2/S 0 42 3 1 3 3 - 0000/S 1 7 0 5 3 3 - -/
event 1 2 => accepted 2
count 1 0 0 => zero count
turn 4 => T 4 0 0 0/R 1 1 2 1 - -/ 0 #
tell memory => 2/S 1 7 0 5 3 3 - -/S 2 9 1 1 4 4 - -/
rest => rested
tell rests => 3 0 1 2 0 0 1 1 1 2
tell late 0 => 0

{"form":1,"instance":18,"ring":4,"classes":[{"size":4,"number":1}],"events":[{"id":42,"sensor":3,"aggregate":{"interval":10,"context":"FIRST"}}]}
# One buffer, and windows of 10 ticks that keep the first context.
# An open window keeps its buffer over turns; the turn that closes it gives the buffer back.
context 0 0 4 => accepted 0
turn 100 => T 100 0 0 0/R 0 0 0 1 - 0:0:00000000/ 0 #
context 0 0 4 => without 1 1
turn 105 => T 105 0 1 0/R 0 1 0 1 - !1/ 0 #
context 0 0 4 => without 2 1
turn 110 => T 110 0 1 0/R 0 2 0 1 - !1/ 1 #110483002a0002000400000000
context 0 0 4 => accepted 3
tell late 0 => 0
turn 120 => T 120 0 0 0/R 0 3 0 1 - 0:1:03030303/ 1 #100483002a000100

{"form":1,"instance":18,"ring":2,"events":[{"id":42,"sensor":3},{"id":7,"sensor":0}],"internal":{"lost_events":1}}
# The second event tells of lost ones.
# A close after the last turn has nothing to take. One that is refused leaves the passes in place.
event 0 0 => accepted 0
event 0 0 => accepted 1
event 0 0 => lost 2
turn 5 => T 5 1 0 0/R 0 0 0 1 - -/R 0 1 0 1 - -/ 3 #1004800007000100100483002a000100100483002a000100
close 4 => tick back
close 4611686018427387905 => tick too large
tell passes => 1
close 5 => T 5 0 0 0/ 0 # totals 2 1 0
tell passes => 0
tell turns => 2
tell rests => 0
event 0 0 => no pass
turn 6 => T 6 0 0 0/ 0 #

{"form":1,"instance":18,"ring":2,"events":[{"id":42,"sensor":3},{"id":7,"sensor":0}],"internal":{"lost_events":1}}
# The second event tells of lost ones.
# A close takes all that is left, with every position taken too. A lost control is not counted.
event 0 0 => accepted 0
state 0 1 => accepted 1
state 0 2 => lost 2
event 0 0 => lost 2
event 0 0 => lost 2
close 0 => T 0 2 0 0/R 0 0 0 1 - -/C 0 1 S 1/ 2 #1004800007000200100483002a000100 totals 2 2 0

{"form":1,"instance":18,"callers":2,"ring":4,"classes":[{"size":8,"number":1},{"size":64,"number":1}],"events":[{"id":42,"sensor":3}]}
# It counts what misses its context, whichever pass reported it.
context 0 0 4 => accepted 0
context 1 0 4 => accepted 1
context 0 0 4 => without 2 1 1
turn 5 => T 5 0 1 0/R 0 0 0 1 - 0:0:00000000/R 1 0 0 1 - 1:0:00000000/R 0 1 0 1 - !1.1/ 3 #110483002a0001000400000000110483002a0001000400000000100483002a000100
context 1 0 64 => accepted 3
context 1 0 9 => without 4 2
close 5 => T 5 0 1 0/R 1 1 0 1 - 1:1:01010101010101010101010101010101010101010101010101010101010101010101010101010101010101010101010101010101010101010101010101010101/R 1 2 0 1 - !2/ 2 #110483002a0001004001010101010101010101010101010101010101010101010101010101010101010101010101010101010101010101010101010101010101010101010101010101100483002a000100 totals 5 0 2

{"form":1,"instance":18,"events":[{"id":42,"sensor":3,"aggregate":{"interval":10,"context":"FIRST"}}]}
# Windows of 10 ticks.
# A window that is open at the end gives nothing.
event 0 0 => accepted 0
turn 0 => T 0 0 0 0/R 0 0 0 1 - -/ 0 #
event 0 0 => accepted 1
close 9 => T 9 0 0 0/R 0 1 0 1 - -/ 0 # totals 2 0 0"##;

#[test]
fn each_table_holds(rt: HostRuntime) -> Result<(), Fail> {
    for table in TABLES.split("\n\n") {
        each_step_holds(rt.alloc(), table)?;
    }
    Ok(())
}
