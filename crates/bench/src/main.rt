//! How long calls take: those of a report queue, reports, and turns of the main function, beside the atomic operations
//! that they make.
//!
//! Layer 12, tests and times. Over `report_queue`, `report_api`, `main_function` and `event_chain`. With the word
//! `count` it makes a few rounds and prints how many items went through, which is the same each time; with no word it
//! prints the tables of times. No clause says how fast anything is.
#![tactic(auto)]

mod rings;
mod rounds;
mod times;

use rings::{FEW, FILTERED, MANY};
use std::rt::Env;
use std::{env, io};
use times::Bench;

/// The context data of reports that have none, and of those that have some.
const NONE: &[u8] = &[];

const SOME: &[u8] = &[7; 16];

fn main(rt: HostRuntime) -> io::Result<()> {
    let counts = env::args(&rt)?.skip(1).next().is_some();
    let bench = Bench { rt: &rt, counts };
    // How many items a batch of puts has, how many one of takes, and how many rounds there are.
    let alone = (256, 64, if counts { 3 } else { 20_000 });
    let beside = (256, 64, if counts { 3 } else { 4_000 });
    let turn = (1_000, 1_000, if counts { 3 } else { 5_000 });
    let empty = (0, 64, turn.2);
    bench.head("   queue    bare")?;
    for (title, callers, size) in [
        ("one thread", 1, alone),
        ("two callers beside a taker", 2, beside),
        ("four callers beside a taker", 4, beside),
    ] {
        let bare = bench.bare(callers, 1, size);
        bench.pair(title, bench.queue(callers, size).zip(bare))?;
    }
    bench.head(" reports    bare")?;
    for (title, context, rings) in [("reports", NONE, 1), ("reports with 16 bytes", SOME, 2)] {
        let bare = bench.bare(1, rings, alone);
        bench.pair(title, bench.reports(context, alone).zip(bare))?;
    }
    bench.head("   turns    bare")?;
    for (title, config, context, rings) in [
        ("a report's share of a turn", MANY, NONE, 1),
        ("  with 16 bytes", MANY, SOME, 2),
        ("  through all filters", FILTERED, NONE, 1),
        ("  with 16 bytes through all filters", FILTERED, SOME, 2),
    ] {
        let bare = bench.bare(1, rings, turn);
        bench.takes(title, bench.turns(config, context, turn).zip(bare))?;
    }
    bench.head("    1024      16")?;
    let few = bench.turns(FEW, NONE, empty);
    bench.takes("an empty turn", bench.turns(MANY, NONE, empty).zip(few))
}
