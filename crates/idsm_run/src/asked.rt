//! The one call of the program: which run the words ask for.

ghost use Rattle.std.specs.Prelude.{◌≡◌, map, string_bytes};
ghost use Rattle.idsm_run.specs.Asked.{RunsAs, name_of_disk, on_disk, top_call};

use crate::run::{run_plain, run_replay};
use cmd_disk::run_keep;
use cmd_files::{NO_MEMORY, say};
use cmd_messages::run_report;
use cmd_words::{is_keep, is_replay, is_report};
use ids_outside::{Shelf, Sink};
use memory_disk::Disk;
use std::alloc::Global;
use std::sync::Wait;
use std::thread::Threads;
use trace_replay::OpenGate;

/// Runs what the words after the program's name ask for, and returns its status: `keep` and `recall` over the disk that
/// `disk_of` makes of the second word, `replay` by a gate that is open, `report`, or any other command.
/// Steps: the first word compared with four, and as the one of `run_keep`, `run_replay`, `run_report` and `run_plain`
/// that it calls. Memory: for `keep` and `recall` that of the second word, and of what makes the disk; and as that
/// call. Waits: as that call. By: `RunsAs`; bounds `Threads`, `Wait`; no loop.
pub fn run_asked<
    R: Threads + Wait + Sync,
    H: Shelf,
    K: Sink,
    D: Disk + Drop,
    F: FnOnce(String) -> D + Drop,
>(rt: &R, alloc: Global, words: &[String], shelf: &mut H, out: &mut K, disk_of: F) -> u8
    requires { F.IsAlwaysCallable disk_of }
    // Which run it is, over which disk, and what that run does.
    ensures { RunsAs (F.post disk_of) D.shows (top_call (map string_bytes words.now)) (map string_bytes words.now) result
        (H.shows shelf.old) (H.shows shelf.new) (K.hears out.old) (K.hears out.new) }
{
    if is_keep(words) {
        run_on_disk(alloc, words, shelf, out, disk_of)
    } else if is_replay(words) {
        let (status, _manager) = run_replay(rt, alloc, words, shelf, out, &OpenGate);
        status
    } else if is_report(words) {
        let (status, _drain) = run_report(rt, alloc, words, shelf, out);
        status
    } else {
        run_plain(alloc, words, shelf, out)
    }
}

/// Runs the work on a disk that the words ask for, over the disk of the second word, and returns its status.
fn run_on_disk<H: Shelf, K: Sink, D: Disk + Drop, F: FnOnce(String) -> D + Drop>(
    alloc: Global,
    words: &[String],
    shelf: &mut H,
    out: &mut K,
    disk_of: F,
) -> u8
    requires { F.IsAlwaysCallable disk_of }
    ensures { RunsAs (F.post disk_of) D.shows on_disk (map string_bytes words.now) result
        (H.shows shelf.old) (H.shows shelf.new) (K.hears out.old) (K.hears out.new) }
{
    let Ok(name) = String::from_str(alloc, second(words)) else {
        return say(b"no memory\n", NO_MEMORY, out);
    };
    let (status, _disk) = run_keep(alloc, words, shelf, out, disk_of(name));
    status
}

/// The second word, empty where there is none.
fn second(words: &[String]) -> &str
    ensures { result.now ≡ name_of_disk (map string_bytes words.now) }
{
    match words {
        [_, name, ..] => name.as_str(),
        _ => "",
    }
}
