//! The top calls: from the words of a command to its status.

ghost use Rattle.cmd_steps.specs.Words.{CanRun, IsTrue, Ran, SameBut, Some, are_read_by_clap, asked, command_of, map, plain_of, replay, replay_of, string_bytes, written_in, written_of};
ghost use Rattle.idsm_run.specs.Asked.{Performs};
ghost use Rattle.idsm_run.specs.Replayed.{Replays};

use crate::check::check;
use crate::explain::explain;
use crate::fold::fold;
use crate::generating::generate_files;
use crate::migrate::migrate;
use crate::replaying::replay_files;
use cmd_files::{NO_MEMORY, Stop, say, tell};
use cmd_messages::{bundle, decode_file, export_file, sign, unbundle, verify};
use cmd_steps::{say_usage, tell_finished};
use cmd_words::{Request, parse};
use ids_outside::{Shelf, Sink};
use ids_types::NoMemory;
use std::alloc::Global;
use std::thread::Threads;
use trace_replay::{Gate, RunManager};

/// Runs the command that the words after the program's name ask for, and returns its status: 0 where
/// it was done, and else why not. It waits for nobody.
///
/// `fold CONFIG JOURNAL MESSAGES MEMORY` writes the messages and the event memory of a journal,
/// `check CONFIG JOURNAL MESSAGES` compares a file with the journal's messages, `decode MESSAGES` puts a
/// line for each message of a file, `gen CONFIG TRACE JOURNAL` generates a recording by its options, and
/// `migrate CONFIG NEW` writes the text of a configuration in the second form. `sign KEY START MESSAGES SIGNED` adds a
/// counter and a tag to each message, and `verify KEY START SIGNED MESSAGES` checks them and takes them off;
/// `bundle SIZE MESSAGES UNITS` packs messages whole into units, and `unbundle UNITS MESSAGES` takes them out again.
/// `explain CONFIG JOURNAL` puts the journal with what became of each item, and an account for each event;
/// `export FORMAT MESSAGES` puts the messages of a file as lines of JSON or as a capture.
/// Steps: `fold`, `check`: CONFIG as by `config_json::read`, JOURNAL as by `journal::read`, its turns as by
/// `chain_plain::outcome`, and the bytes written or compared. `decode`: MESSAGES read, its messages gone over once, and
/// the bytes of their lines. `gen`: as `generate`. `migrate`: CONFIG, read and printed. `sign`, `verify`: as `seal`,
/// `unseal`. `bundle`, `unbundle`: as `pack` and `count`, `unpack` and `count`. `explain`: as `fold`, and then as
/// `chain_endings::explain`. `export`: as `export_file`. One read for each input, one append at most for each turn.
/// Memory: may answer want of memory: status 8. Waits: as its shelf and its sink. By: `ran` (`Ran`); read off; no
/// `Threads`.
pub fn run_plain<H: Shelf, K: Sink>(
    alloc: Global,
    words: &[String],
    shelf: &mut H,
    out: &mut K,
) -> u8
    // What the run did or why it stopped, with its status, its text, and what stands in the files.
    ensures ran { Ran (plain_of (command_of (map string_bytes words.now))) (are_read_by_clap (map string_bytes words.now)) result
        (H.shows shelf.old) (H.shows shelf.new) (K.hears out.old) (K.hears out.new) }

    // Whatever the status, no file changes but those that the command writes.
    ensures others { IsTrue (H.shows shelf.old).tells → SameBut
        (written_of (plain_of (command_of (map string_bytes words.now))))
        (H.shows shelf.old).files (H.shows shelf.new).files }
{
    let request = match parse(alloc, words) {
        Ok(request) => request,
        Err(NoMemory) => return say(b"no memory\n", NO_MEMORY, out),
    };
    let Some(request) = request else {
        return say_usage(out);
    };
    match perform(alloc, request, shelf) {
        None => say_usage(out),
        Some(end) => tell(alloc, end, out),
    }
}

/// Does what is asked for, and returns the line that tells of it, or nothing where another call runs it.
fn perform<'a, H: Shelf>(
    alloc: Global,
    request: Request<'a>,
    shelf: &mut H,
) -> Option<Result<Vec<u8>, Stop<&'a str>>>
    requires { CanRun request }
    ensures { Performs (plain_of (Some (asked request.entry))) result (H.shows shelf.old) (H.shows shelf.new) }
{
    match request {
        Request::Fold(names) => Some(fold(alloc, names, shelf)),
        Request::Check(names) => Some(check(alloc, names, shelf)),
        Request::Decode(name) => Some(decode_file(alloc, name, shelf)),
        Request::Gen(given) => Some(generate_files(alloc, given, shelf)),
        Request::Migrate(names) => Some(migrate(alloc, names, shelf)),
        Request::Sign(names) => Some(sign(alloc, names, shelf)),
        Request::Verify(names) => Some(verify(alloc, names, shelf)),
        Request::Bundle(names) => Some(bundle(alloc, names, shelf)),
        Request::Unbundle(names) => Some(unbundle(alloc, names, shelf)),
        Request::Explain(names) => Some(explain(alloc, names, shelf)),
        Request::Export(names) => Some(export_file(alloc, names, shelf)),
        Request::Replay(_) | Request::Report(_) | Request::Keep(_) | Request::Recall(_) => None,
    }
}

/// Runs the replay that the words after the program's name ask for, and returns its status, with the manager that
/// made the turns where the status is 0.
///
/// `replay CONFIG TRACE MESSAGES MEMORY JOURNAL` replays a trace: a thread for each of its callers, beside the turns of
/// a manager, which makes what no thread has begun; and it writes the messages, the event memory and the journal of the
/// history that this gave.
/// Steps: CONFIG as by `config_json::read`, TRACE as by `trace_text::read`, `replay`, and the bytes of messages, memory
/// and journal; one read for each input, one append at most for each turn. Memory: may answer want of memory: status 8.
/// Waits: as `replay`; as its shelf, its sink and its gate. By: `ran` (`Replays`); bound `Threads`; read off.
#[tactic(auto, using(cmd_words::proofs::CommandLemmas::no_replay))]
pub fn run_replay<R: Threads + Sync, H: Shelf, K: Sink, G: Gate + Sync>(
    rt: &R,
    alloc: Global,
    words: &[String],
    shelf: &mut H,
    out: &mut K,
    gate: &G,
) -> (u8, Option<RunManager>)
    // What the run did or why it stopped, with its status, its text, what stands in the files, and its manager.
    ensures ran { Replays (replay_of (command_of (map string_bytes words.now))) result.1 result.0
        (H.shows shelf.old) (H.shows shelf.new) (K.hears out.old) (K.hears out.new) }

    // Whatever the status, no file changes but those that the replay writes.
    ensures others { IsTrue (H.shows shelf.old).tells → SameBut
        (written_in replay (replay_of (command_of (map string_bytes words.now))))
        (H.shows shelf.old).files (H.shows shelf.new).files }
{
    match parse(alloc, words) {
        Ok(Some(Request::Replay(names))) => {
            tell_finished(alloc, replay_files(rt, alloc, names, shelf, gate), out)
        }
        _ => (say_usage(out), None),
    }
}
