//! The command `replay`: the messages, the event memory and the journal of a trace that is replayed by threads.

ghost use Rattle.std.specs.Prelude.{◌≡◌};
ghost use Rattle.cmd_steps.specs.Words.{CanWrite, Cuts, EndsAs, IfOk, IsTrue, WritesApart, finished_end, five_of, length, map, output_of, replay as replay_command, replay_outputs};
ghost use Rattle.idsm_run.specs.Replayed.{Replayed as HasReplayed};

use crate::fold::new_file;
use crate::replay_texts::{Texts, print_texts};
use crate::traces::read_asked;
use cmd_files::{NewFile, Stop};
use cmd_steps::{Finished, write_work};
use cmd_words::ReplayNames;
use ids_outside::Shelf;
use std::alloc::Global;
use std::thread::Threads;
use trace_replay::{Gate, Replayed, RunManager, replay};

/// Replays a trace, and returns the line that tells what was replayed, with the manager: the messages of each turn that
/// sends some are written by one append, and then the text of the event memory, and the journal. All memory is taken
/// before the first file is made.
pub(crate) fn replay_files<'a, R: Threads + Sync, H: Shelf, G: Gate + Sync>(
    rt: &R,
    alloc: Global,
    names: ReplayNames<'a>,
    shelf: &mut H,
    gate: &G,
) -> Result<Finished<RunManager>, Stop<&'a str>>
    requires { WritesApart (replay_command (five_of names)) }
    ensures ends { EndsAs (replay_command (five_of names.entry)) (finished_end result) (H.shows shelf.old) (H.shows shelf.new) }
    ensures replayed { IsTrue (H.shows shelf.old).tells → IfOk result (λ f.
        HasReplayed (five_of names.entry) f.made f.line.items (H.shows shelf.old).files (H.shows shelf.new).files) }
{
    let asked = read_asked(alloc, names, shelf)?;
    let replayed = replay(rt, alloc, &asked.config, &asked.trace, gate)?;
    let texts = print_texts(alloc, &replayed)?;
    let Texts {
        memory,
        journal,
        line,
    } = texts;
    let line = write_work(&new_files(names, &replayed, &memory, &journal), line, shelf)?;
    Ok(Finished {
        line,
        made: replayed.manager,
    })
}

/// The messages, of which each turn that sends some has a piece, the text of the event memory, and the journal.
fn new_files<'f>(
    names: ReplayNames<'f>,
    replayed: &'f Replayed,
    memory: &'f [u8],
    journal: &'f [u8],
) -> [NewFile<'f>; 3]
    requires cuts { Cuts 0 replayed.now.ends.items (length replayed.now.sent.items) }
    requires apart { WritesApart (replay_command (five_of names)) }
    ensures can { CanWrite result }
    ensures files { map output_of result
        ≡ replay_outputs (five_of names.entry) replayed.now.sent.items memory.now journal.now }
{
    [
        new_file(names.messages, &replayed.sent, &replayed.ends),
        new_file(names.memory, memory, &[]),
        new_file(names.journal, journal, &[]),
    ]
}
