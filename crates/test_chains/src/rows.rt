//! Histories that were worked out by hand from docs/CONFIGURATION.md.
//!
//! A line of a table is `TOP | EVENT | JOURNAL => WANTED`. TOP and EVENT are what the configuration of one event has
//! besides, at its top and in its event, which may go on with further events; `.` is nothing. Wanted are the number of
//! messages, the messages in hexadecimal digits after `#`, and the text of the event memory after `=`. `/` is a line
//! feed.

use crate::both::told_by_both;
use std::alloc::Global;
use std::test::Fail;
use text_spec::{push_hex, push_number};

/// Modes, block states and every nth. What a mode or a state drops, and what bypasses the filters, is not
/// counted for the nth. A control takes effect for what stands after it, and for its own event alone.
const GATED: &str =
    r##". | ,"mode":"BRIEF" | T 5 0 0 0/R 0 0 0 1 - 0:0:a1b2/ => 1 #100483002a000100 =
. | ,"mode":"OFF" | T 5 0 0 0/R 0 0 0 1 - 0:0:a1b2/ => 0 # =
. | ,"mode":"BRIEF_BYPASSING_FILTERS","block":[0],"nth":5 | T 5 0 0 0/R 0 0 0 1 8000000100000a00 0:0:a1b2/ => 1 #120483002a0001008000000100000a00 =
. | ,"mode":"DETAILED_BYPASSING_FILTERS","threshold":{"interval":9,"count":9} | T 5 0 0 0/R 0 0 0 1 - 0:0:a1b2/ => 1 #110483002a00010002a1b2 =
. | ,"nth":3 | T 5 0 0 0/R 0 0 0 1 - -/R 0 1 0 2 - -/R 0 2 0 3 - -/R 0 3 0 4 - -/R 0 4 0 5 - -/R 0 5 0 6 - -/R 0 6 0 7 - -/ => 2 #100483002a000300100483002a000600 =
. | ,"nth":2,"block":[1] | T 5 0 0 0/R 0 0 0 1 - -/C 0 1 S 1/R 0 2 0 2 - -/C 0 3 S 0/R 0 4 0 3 - -/ => 1 #100483002a000300 =
. | ,"nth":2,"block":[1],"mode":"DETAILED_BYPASSING_FILTERS" | T 5 0 0 0/R 0 0 0 1 - -/C 0 1 S 1/R 0 2 0 2 - -/C 0 3 S 0/R 0 4 0 3 - -/ => 3 #100483002a000100100483002a000200100483002a000300 =
. | ,"nth":2 | T 5 0 0 0/R 0 0 0 1 - -/C 0 1 M 0 BRIEF_BYPASSING_FILTERS/R 0 2 0 2 - -/C 0 3 M 0 BRIEF/R 0 4 0 3 - -/ => 2 #100483002a000200100483002a000300 =
. | ,"nth":2 | T 5 0 0 0/R 0 0 0 1 - -/C 0 1 M 0 OFF/R 0 2 0 2 - -/T 6 0 0 0/R 0 3 0 3 - -/C 0 4 M 0 DETAILED/R 0 5 0 4 - -/ => 1 #100483002a000400 =
,"state":1 | ,"block":[1,3] | T 5 0 0 0/R 0 0 0 1 - -/C 0 1 S 2/R 0 2 0 2 - -/C 0 3 S 3/T 6 0 0 0/R 0 4 0 3 - -/C 1 0 S 0/R 0 5 0 4 - -/ => 2 #100483002a000200100483002a000400 =
. | ,"nth":2},{"id":9,"sensor":0,"nth":2 | T 5 0 0 0/R 0 0 0 1 - -/R 0 1 1 2 - -/C 0 2 M 1 OFF/R 0 3 1 3 - -/R 0 4 0 4 - -/ => 1 #100483002a000400 =
. | . | T 5 0 0 0/C 0 0 S 1/C 0 1 M 0 OFF/ => 0 # ="##;

/// Aggregation. A window closes at the first turn at which it is due, before that turn's items, and windows
/// close in the order of their events. It gives the sum of the counts, the opener's timestamp, and the first
/// or the last context. What a mode drops or lets bypass meanwhile does not touch it. One that is open at the
/// end gives nothing.
const AGGREGATED: &str =
    r##". | ,"aggregate":{"interval":10,"context":"FIRST"} | T 100 0 0 0/R 0 0 0 2 - -/T 105 0 0 0/R 0 1 0 3 - -/T 110 0 0 0/R 0 2 0 1 - -/ => 1 #100483002a000500 =
. | ,"aggregate":{"interval":10,"context":"FIRST"} | T 0 0 0 0/R 0 0 0 65535 - -/R 0 1 0 1 - -/T 10 0 0 0/ => 1 #100483002affff00 =
. | ,"aggregate":{"interval":10,"context":"FIRST"} | T 0 0 0 0/R 0 0 0 1 - -/T 9 0 0 0/R 0 1 0 2 - -/T 25 0 0 0/R 0 2 0 4 - -/T 34 0 0 0/T 35 0 0 0/ => 2 #100483002a000300100483002a000400 =
. | ,"aggregate":{"interval":10,"context":"FIRST"} | T 0 0 0 0/R 0 0 0 1 - -/R 0 1 0 1 - 0:0:a1/R 0 2 0 1 - 0:1:b2/T 10 0 0 0/ => 1 #110483002a00030001a1 =
. | ,"aggregate":{"interval":10,"context":"LAST"} | T 0 0 0 0/R 0 0 0 1 - 0:0:a1/R 0 1 0 1 - 0:1:b2/R 0 2 0 1 - -/T 10 0 0 0/ => 1 #110483002a00030001b2 =
. | ,"aggregate":{"interval":10,"context":"LAST"} | T 0 0 0 0/R 0 0 0 1 - -/R 0 1 0 1 8000000100000a00 -/T 10 0 0 0/ => 1 #100483002a000200 =
. | ,"aggregate":{"interval":10,"context":"LAST"} | T 0 0 0 0/R 0 0 0 1 8000000100000a00 -/R 0 1 0 1 0000000000000001 -/T 10 0 0 0/ => 1 #120483002a0002008000000100000a00 =
. | ,"aggregate":{"interval":1,"context":"FIRST"} | T 5 0 0 0/R 0 0 0 1 - -/T 5 0 0 0/R 0 1 0 1 - -/T 6 0 0 0/ => 1 #100483002a000200 =
. | ,"nth":2,"aggregate":{"interval":10,"context":"FIRST"} | T 0 0 0 0/R 0 0 0 1 - -/R 0 1 0 2 - -/R 0 2 0 3 - -/R 0 3 0 4 - -/T 10 0 0 0/ => 1 #100483002a000600 =
. | ,"aggregate":{"interval":10,"context":"FIRST"} | T 0 0 0 0/R 0 0 0 1 - -/C 0 1 M 0 OFF/R 0 2 0 2 - -/T 10 0 0 0/ => 1 #100483002a000100 =
. | ,"mode":"BRIEF","aggregate":{"interval":10,"context":"FIRST"} | T 0 0 0 0/R 0 0 0 1 - 0:0:a1/C 0 1 M 0 DETAILED/R 0 2 0 1 - 0:1:b2/T 10 0 0 0/ => 1 #110483002a00020001b2 =
. | ,"aggregate":{"interval":10,"context":"FIRST"} | T 0 0 0 0/R 0 0 0 1 - -/C 0 1 M 0 DETAILED_BYPASSING_FILTERS/R 0 2 0 2 - -/T 10 0 0 0/ => 2 #100483002a000200100483002a000100 =
. | ,"aggregate":{"interval":10,"context":"FIRST"}},{"id":9,"sensor":0,"aggregate":{"interval":5,"context":"LAST"}},{"id":8,"sensor":0 | T 0 0 0 0/R 0 0 1 1 - -/T 3 0 0 0/R 0 1 0 1 - -/T 20 0 0 0/R 0 2 2 3 - -/ => 3 #100483002a00010010048000090001001004800008000300 ="##;

/// Thresholds. An item passes from the sum on, in a window of its own event. The tick of a joined item is
/// that of the turn that closed its window.
const REACHED: &str =
    r##". | ,"threshold":{"interval":100,"count":3} | T 0 0 0 0/R 0 0 0 1 - -/R 0 1 0 1 - -/R 0 2 0 1 - -/R 0 3 0 1 - -/ => 2 #100483002a000100100483002a000100 =
. | ,"threshold":{"interval":100,"count":3} | T 0 0 0 0/R 0 0 0 3 - -/R 0 1 0 1 - -/ => 2 #100483002a000300100483002a000100 =
. | ,"threshold":{"interval":100,"count":3} | T 7 0 0 0/R 0 0 0 2 - -/T 106 0 0 0/R 0 1 0 1 - -/T 107 0 0 0/R 0 2 0 2 - -/T 206 0 0 0/R 0 3 0 1 - -/T 207 0 0 0/R 0 4 0 2 - -/ => 2 #100483002a000100100483002a000100 =
. | ,"threshold":{"interval":100,"count":65535} | T 0 0 0 0/R 0 0 0 65534 - -/R 0 1 0 1 - -/R 0 2 0 65535 - -/ => 2 #100483002a000100100483002affff00 =
. | ,"threshold":{"interval":100,"count":3}},{"id":9,"sensor":0,"threshold":{"interval":100,"count":3} | T 0 0 0 0/R 0 0 0 2 - -/R 0 1 1 2 - -/R 0 2 0 1 - -/R 0 3 1 1 - -/ => 2 #100483002a0001001004800009000100 =
. | ,"aggregate":{"interval":10,"context":"FIRST"},"threshold":{"interval":20,"count":3} | T 0 0 0 0/R 0 0 0 2 - -/T 10 0 0 0/R 0 1 0 1 - -/T 20 0 0 0/R 0 2 0 2 - -/T 30 0 0 0/ => 1 #100483002a000100 =
. | ,"nth":2,"threshold":{"interval":100,"count":3} | T 0 0 0 0/R 0 0 0 9 - -/R 0 1 0 2 - -/R 0 2 0 9 - -/R 0 3 0 1 - -/ => 1 #100483002a000100 ="##;

/// Rate and traffic. Windows begin at multiples of the interval. What the traffic holds back has used up the
/// rate; a shorter message may still have room. Bypassing modes do not pass by. What is not to be sent is not
/// held back, and held-back items of the internal event that tells of them are not counted.
const LIMITED: &str =
    r##","rate":{"interval":1000,"events":2},"internal":{"limited":1} | },{"id":9,"sensor":0 | T 100 0 0 0/R 0 0 0 1 - -/R 0 1 0 1 - -/R 0 2 0 1 - -/T 1000 0 0 1/ => 3 #100483002a000100100483002a0001001004800009000100 =
,"traffic":{"interval":1000,"bytes":20} | . | T 0 0 0 0/R 0 0 0 1 - -/R 0 1 0 1 - -/R 0 2 0 1 - -/T 1 0 0 1/ => 2 #100483002a000100100483002a000100 =
,"rate":{"interval":10,"events":1} | . | T 9 0 0 0/R 0 0 0 1 - -/T 10 0 0 0/R 0 1 0 1 - -/T 19 0 0 0/R 0 2 0 1 - -/T 20 0 0 1/R 0 3 0 1 - -/ => 3 #100483002a000100100483002a000100100483002a000100 =
,"rate":{"interval":1000,"events":2},"traffic":{"interval":1000,"bytes":8} | . | T 0 0 0 0/R 0 0 0 1 - -/R 0 1 0 1 - -/R 0 2 0 1 - -/T 1 0 0 2/ => 1 #100483002a000100 =
,"rate":{"interval":1000,"events":2},"traffic":{"interval":10,"bytes":8} | . | T 0 0 0 0/R 0 0 0 1 - -/R 0 1 0 1 - -/T 10 0 0 1/R 0 2 0 1 - -/T 1000 0 0 1/R 0 3 0 1 - -/ => 2 #100483002a000100100483002a000100 =
,"traffic":{"interval":1000,"bytes":20} | . | T 0 0 0 0/R 0 0 0 1 - 0:0:a1a2a3/R 0 1 0 1 - 0:1:a1a2a3/R 0 2 0 1 - -/T 1 0 0 1/ => 2 #110483002a00010003a1a2a3100483002a000100 =
,"rate":{"interval":1,"events":0} | ,"mode":"DETAILED_BYPASSING_FILTERS"},{"id":9,"sensor":0,"send":false | T 0 0 0 0/R 0 0 0 1 - -/R 0 1 1 1 - -/T 0 0 0 1/ => 0 # =
,"rate":{"interval":1000,"events":2} | ,"send":false | T 0 0 0 0/R 0 0 0 1 - -/R 0 1 0 1 - -/R 0 2 0 1 - -/T 1 0 0 0/ => 0 # =
,"rate":{"interval":1000,"events":1},"internal":{"limited":1} | },{"id":9,"sensor":0 | T 1 0 0 0/R 0 0 0 1 - -/R 0 1 0 1 - -/T 2 0 0 1/T 3 0 0 0/T 1000 0 0 0/ => 1 #100483002a000100 =
,"rate":{"interval":1000,"events":1} | ,"aggregate":{"interval":10,"context":"FIRST"}},{"id":9,"sensor":0 | T 985 0 0 0/R 0 0 0 1 - -/T 990 0 0 0/R 0 1 1 1 - -/T 1000 0 0 0/ => 2 #1004800009000100100483002a000100 ="##;

/// Internal events. They stand at the head of their turn, in the order lost events, lost contexts, limited,
/// whatever their indexes; they tell at most 65,535, and pass the filters of their own event. A control of
/// their turn comes after them.
const INTERNAL: &str =
    r##","internal":{"lost_events":1} | },{"id":9,"sensor":0 | T 5 1 0 0/R 0 0 0 1 - -/R 0 1 0 1 - -/T 5 0 0 0/L 0 2 0/ => 3 #1004800009000100100483002a000100100483002a000100 =
,"internal":{"lost_events":1} | },{"id":9,"sensor":0 | T 5 70000 0 0/ => 1 #1004800009ffff00 =
. | },{"id":9,"sensor":0 | T 5 7 8 0/T 6 0 0 0/ => 0 # =
,"rate":{"interval":1000,"events":2},"internal":{"lost_events":3,"lost_contexts":2,"limited":1} | },{"id":9,"sensor":0},{"id":8,"sensor":0},{"id":7,"sensor":0 | T 5 2 0 0/R 0 0 0 1 - -/R 0 1 0 1 - -/T 1000 3 4 1/ => 4 #1004800007000200100483002a00010010048000070003001004800008000400 =
,"internal":{"lost_contexts":1} | },{"id":9,"sensor":0,"nth":2 | T 5 0 1 0/T 6 0 2 0/T 7 0 0 0/T 8 0 3 0/T 9 0 4 0/ => 2 #10048000090002001004800009000400 =
,"internal":{"lost_events":1} | },{"id":9,"sensor":0 | T 5 1 0 0/C 0 0 M 1 OFF/T 6 2 0 0/C 0 1 M 1 BRIEF/T 7 3 0 0/ => 2 #10048000090001001004800009000300 =
,"state":1,"internal":{"lost_events":1} | },{"id":9,"sensor":0,"block":[1] | T 5 1 0 0/C 0 0 S 0/T 6 2 0 0/ => 1 #1004800009000200 =
,"internal":{"lost_events":1} | },{"id":9,"sensor":0,"aggregate":{"interval":10,"context":"FIRST"} | T 0 3 0 0/T 5 4 0 0/T 10 5 0 0/ => 1 #1004800009000700 ="##;

/// The event memory. An event that was displaced begins anew. A record has the last timestamp and context, or
/// none; its sum stays at 65,535. It is after the filters, and the limits hold nothing back from it.
const STORED: &str =
    r##","memory":2 | ,"send":false,"store":true},{"id":9,"sensor":0,"send":false,"store":true},{"id":8,"sensor":0,"send":false,"store":true | T 1 0 0 0/R 0 0 0 1 - -/T 2 0 0 0/R 0 1 1 1 - -/T 3 0 0 0/R 0 2 0 1 - -/T 4 0 0 0/R 0 3 2 1 - -/T 5 0 0 0/R 0 4 1 1 - -/ => 0 # =S 2 8 0 1 4 4 - -/S 1 9 0 1 5 5 - -/
,"memory":0 | ,"send":false,"store":true},{"id":9,"sensor":0,"send":false,"store":true},{"id":8,"sensor":0,"send":false,"store":true | T 1 0 0 0/R 0 0 0 1 - -/T 2 0 0 0/R 0 1 1 1 - -/T 3 0 0 0/R 0 2 0 1 - -/T 4 0 0 0/R 0 3 2 1 - -/T 5 0 0 0/R 0 4 1 1 - -/ => 0 # =
,"memory":1 | ,"send":false,"store":true | T 1 0 0 0/R 0 0 0 2 8000000100000a00 0:0:a1b2/T 4 0 0 0/R 0 1 0 3 - -/ => 0 # =S 0 42 3 5 1 4 - -/
,"memory":1 | ,"send":false,"store":true | T 1 0 0 0/R 0 0 0 2 - -/T 4 0 0 0/R 0 1 0 3 8000000100000a00 0:0:a1b2/ => 0 # =S 0 42 3 5 1 4 8000000100000a00 a1b2/
,"memory":1 | ,"send":false,"store":true,"mode":"BRIEF" | T 1 0 0 0/R 0 0 0 1 - 0:0:a1b2/ => 0 # =S 0 42 3 1 1 1 - -/
,"memory":1 | ,"send":false,"store":true | T 1 0 0 0/R 0 0 0 65535 - -/R 0 1 0 1 - -/ => 0 # =S 0 42 3 65535 1 1 - -/
,"memory":1,"rate":{"interval":1000,"events":1} | ,"store":true | T 1 0 0 0/R 0 0 0 1 - -/R 0 1 0 1 - 0:0:a1/T 2 0 0 1/ => 1 #100483002a000100 =S 0 42 3 2 1 1 - a1/
,"memory":1 | ,"send":false,"store":true,"threshold":{"interval":100,"count":3} | T 1 0 0 0/R 0 0 0 2 - -/T 2 0 0 0/R 0 1 0 1 - -/R 0 2 0 5 - -/ => 0 # =S 0 42 3 6 2 2 - -/
,"memory":1 | ,"store":true,"aggregate":{"interval":10,"context":"FIRST"} | T 0 0 0 0/R 0 0 0 2 8000000100000a00 -/R 0 1 0 3 - 0:0:a1/T 12 0 0 0/ => 1 #130483002a0005008000000100000a0001a1 =S 0 42 3 5 12 12 8000000100000a00 a1/
,"memory":1,"internal":{"lost_events":1} | ,"store":true},{"id":9,"sensor":0,"store":true | T 1 0 0 0/R 0 0 0 1 - -/T 2 3 0 0/R 0 1 0 1 - -/ => 3 #100483002a0001001004800009000300100483002a000100 =S 0 42 3 1 2 2 - -/
,"memory":2 | ,"send":false,"store":true,"aggregate":{"interval":10,"context":"FIRST"}},{"id":9,"sensor":0,"send":false,"store":true | T 0 0 0 0/R 0 0 0 1 - -/T 5 0 0 0/R 0 1 1 1 - -/T 10 0 0 0/R 0 2 1 2 - -/ => 0 # =S 0 42 3 1 10 10 - -/S 1 9 0 3 5 10 - -/"##;

/// What both chains give for a line, as it is wanted.
fn told(alloc: Global, given: &str) -> Result<Vec<u8>, Fail> {
    let (top, rest) = given.split_once(" | ").ok_or("an event")?;
    let (event, journal) = rest.split_once(" | ").ok_or("a journal")?;
    let top = top.trim_start_matches('.');
    let event = event.trim_start_matches('.');
    let config = format!(in alloc;
        "{{\"form\":1,\"instance\":18{top},\"events\":[{{\"id\":42,\"sensor\":3{event}}}]}}"
    )?;
    let journal = journal.replace(alloc, "/", "\n")?;
    let told = told_by_both(alloc, config.as_str(), journal.as_bytes())?;
    let mut text = Vec::new(alloc);
    push_number(&mut text, told.tally.transcript.messages)?;
    text.extend_from_slice(b" #")?;
    push_hex(&mut text, &told.tally.transcript.sent)?;
    text.extend_from_slice(b" =")?;
    for &byte in &told.memory {
        text.push(if byte == b'\n' { b'/' } else { byte })?;
    }
    Ok(text)
}

#[test]
fn worked_histories_give_the_same_by_both_chains(rt: HostRuntime) -> Result<(), Fail> {
    for table in [GATED, AGGREGATED, REACHED, LIMITED, INTERNAL, STORED] {
        for line in table.lines() {
            let (given, wanted) = line.split_once(" => ").ok_or("what is wanted")?;
            let told = told(rt.alloc(), given)?;
            assert!(rt; told.as_slice() == wanted.as_bytes(), "{line}");
        }
    }
    Ok(())
}
