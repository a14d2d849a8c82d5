//! The top call of the commands over a disk.

ghost use Rattle.std.specs.Prelude.{◌≡◌};
ghost use Rattle.cmd_steps.specs.Words.{IsTrue, SameBut, Tells, command_of, disk_of, map, plain_end, string_bytes, written_of};
ghost use Rattle.cmd_disk.specs.Runs.{RunsOnDisk};

use crate::ended::Ended;
use crate::keeping::keep;
use crate::recalling::recall;
use cmd_files::tell;
use cmd_steps::say_usage;
use cmd_words::{Request, parse};
use ids_outside::{Shelf, Sink};
use memory_disk::Disk;
use std::alloc::Global;

/// Runs the work on a disk that the words after the program's name ask for, and returns its status, with the disk.
///
/// `keep DISK CONFIG JOURNAL` folds a journal and saves its event memory on the disk after each turn, in place of what
/// is there. `recall DISK MEMORY` writes what the disk keeps as text. The disk is the one that is handed in: no call
/// looks at its name.
/// Steps: `keep`: as `read_inputs`, the turns folded once more, and one `Store::save` a turn; `recall`: `Store::begin`,
/// and the records' text written. Memory: may answer want of memory: status 8; all that `keep` wants is taken before
/// its first save, but for the text of a disk that failed. Waits: as its shelf, its sink and its disk. By: `ran`
/// (`RunsOnDisk`); read off; no `Threads`.
#[tactic(auto, using(cmd_words::proofs::CommandLemmas::no_disk))]
pub fn run_keep<H: Shelf, K: Sink, D: Disk>(
    alloc: Global,
    words: &[String],
    shelf: &mut H,
    out: &mut K,
    disk: D,
) -> (u8, D)
    // What the run did or why it stopped, with its status, its text, what stands in the files, and what crashes leave.
    ensures ran { RunsOnDisk D.shows (disk_of (command_of (map string_bytes words.now))) result.0
        (H.shows shelf.old) (H.shows shelf.new) (K.hears out.old) (K.hears out.new) disk result.1 }

    // Whatever the status, no file changes but the one that the command writes.
    ensures others { IsTrue (H.shows shelf.old).tells → SameBut
        (written_of (disk_of (command_of (map string_bytes words.now))))
        (H.shows shelf.old).files (H.shows shelf.new).files }
{
    match parse(alloc, words) {
        Ok(Some(Request::Keep(names))) => told(alloc, keep(alloc, names, shelf, disk), out),
        Ok(Some(Request::Recall(names))) => told(alloc, recall(alloc, names, shelf, disk), out),
        _ => (say_usage(out), disk),
    }
}

/// Tells how work on a disk ended, and hands the disk back.
fn told<K: Sink, D: Disk>(alloc: Global, ended: Ended<'_, Vec<u8>, D>, out: &mut K) -> (u8, D)
    ensures told { Tells (plain_end ended.entry.end) result.0 (K.hears out.old) (K.hears out.new) }
    ensures disk { result.1 ≡ ended.entry.disk }
{
    let Ended { end, disk } = ended;
    (tell(alloc, end, out), disk)
}
