//! What no clause says of a relay and of what is forwarded, shown by runs. They show when a relay is full or empty,
//! that feeders run beside each other, and that a gate is told of each put once.
//!
//! Layer 12, tests and times. Over `ids_reporter`. A program and no tests, so that the gate runs it as two compilers
//! build it. It prints a line for each row, with `yes` where it holds.
#![tactic(auto)]

mod forwarding;
mod gates;
mod relay;

use crate::forwarding::{feeders_meet, is_told_of_each_put, sources_are_merged};
use crate::relay::is_full_at_the_third;
use std::io;

fn main(rt: HostRuntime) -> io::Result<()> {
    let full = is_full_at_the_third(&rt);
    tell(
        &rt,
        "a relay of two is full at the third put, and empty behind two takes",
        full,
    )?;
    tell(&rt, "eight sources are merged", sources_are_merged(&rt))?;
    tell(&rt, "eight feeders meet", feeders_meet(&rt))?;
    let told = is_told_of_each_put(&rt);
    tell(
        &rt,
        "eight sources of 200 messages stay in their order, each put told once",
        told,
    )
}

/// Prints a row, and whether it holds.
fn tell<R: Print>(rt: &R, row: &str, holds: Option<bool>) -> io::Result<()> {
    let answer = match holds {
        Some(true) => "yes",
        Some(false) => "no",
        None => "no memory",
    };
    println!(rt; "{row}: {answer}")
}
