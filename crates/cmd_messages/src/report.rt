//! The top call of `report`.

ghost use Rattle.cmd_steps.specs.Words.{IsTrue, SameBut, command_of, map, report, report_of, string_bytes, written_in};
ghost use Rattle.cmd_messages.specs.Reported.{Reports};

use crate::reporting::report_files;
use cmd_steps::{say_usage, tell_finished};
use cmd_words::{Request, parse};
use ids_outside::{Shelf, Sink};
use ids_reporter::Drain;
use std::alloc::Global;
use std::sync::Wait;
use std::thread::Threads;

/// Runs the report that the words after the program's name ask for, and returns its status, with the drain that took
/// all messages where the status is 0.
///
/// `report OUT FILE ..` forwards the messages of 1 to 8 managers, a file each, into one file: a feeder for each, in a
/// thread of its own, through one queue, beside the drain that writes them. Each manager's messages are in their order.
/// Steps: each FILE as by `ids_reporter::Source::read`, and looked for among the instances of those before, at most
/// eight; `forward`, and its bytes; one read for each input, one append at most. Memory: may answer want of memory:
/// status 8. Waits: joins a thread for each file; as the queue, its shelf and its sink. By: `ran` (`Reports`); bounds
/// `Threads`, `Wait`; read off.
#[tactic(auto, using(cmd_words::proofs::CommandLemmas::no_report))]
pub fn run_report<R: Threads + Wait + Sync, H: Shelf, K: Sink>(
    rt: &R,
    alloc: Global,
    words: &[String],
    shelf: &mut H,
    out: &mut K,
) -> (u8, Option<Drain>)
    // What the run did or why it stopped, with its status, its text, what stands in the files, and its drain.
    ensures ran { Reports (report_of (command_of (map string_bytes words.now))) result.1 result.0
        (H.shows shelf.old) (H.shows shelf.new) (K.hears out.old) (K.hears out.new) }

    // Whatever the status, no file changes but the one that the report writes.
    ensures others { IsTrue (H.shows shelf.old).tells → SameBut
        (written_in report (report_of (command_of (map string_bytes words.now))))
        (H.shows shelf.old).files (H.shows shelf.new).files }
{
    match parse(alloc, words) {
        Ok(Some(Request::Report(names))) => {
            tell_finished(alloc, report_files(rt, alloc, names, shelf), out)
        }
        _ => (say_usage(out), None),
    }
}
