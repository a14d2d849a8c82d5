//! The command `fold`: the messages and the event memory of a recorded history.

ghost use Rattle.std.specs.Prelude.{◌≡◌};
ghost use Rattle.cmd_steps.specs.Words.{CanWrite, Cuts, EndsAs, IfOk, WritesApart, entries_of, files_of, fold as fold_command, fold_outputs, length, fold_line as line_of, map, output_of, plain_end};

use chain_plain::Folded;
use cmd_files::{NewFile, Stop};
use cmd_steps::{Judged, read_inputs, write_work};
use cmd_words::FoldNames;
use ids_outside::Shelf;
use ids_types::NoMemory;
use std::alloc::Global;

/// Folds a journal, and returns the line that tells what was folded: the messages of each turn that sends some are
/// written by one append, and then the text of the event memory. All memory is taken before the first file is made.
#[tactic(auto, using(cmd_spec::proofs::JournalLemmas::cut_at_ends))]
pub(crate) fn fold<'a, H: Shelf>(
    alloc: Global,
    names: FoldNames<'a>,
    shelf: &mut H,
) -> Result<Vec<u8>, Stop<&'a str>>
    requires { WritesApart (fold_command (files_of names)) }
    ensures { EndsAs (fold_command (files_of names.entry)) (plain_end result) (H.shows shelf.old) (H.shows shelf.new) }
{
    let inputs = read_inputs(alloc, names.from, shelf)?;
    let journal = &inputs.journal;
    let memory = journal.folded.memory.print(alloc)?;
    let line = fold_text(alloc, journal)?;
    write_work(&new_files(names, &journal.folded, &memory), line, shelf)
}

/// The messages, of which each turn that sends some has a piece, and the text of the event memory.
fn new_files<'f>(names: FoldNames<'f>, folded: &'f Folded, memory: &'f [u8]) -> [NewFile<'f>; 2]
    requires cuts { Cuts 0 folded.now.ends.items (length folded.now.sent.items) }
    requires apart { WritesApart (fold_command (files_of names)) }
    ensures can { CanWrite result }
    ensures files { map output_of result ≡ fold_outputs (files_of names.entry) folded.now.sent.items memory.now }
{
    [
        new_file(names.messages, &folded.sent, &folded.ends),
        new_file(names.memory, memory, &[]),
    ]
}

/// A file that is to be written.
pub(crate) fn new_file<'f>(name: &'f str, bytes: &'f [u8], cuts: &'f [u64]) -> NewFile<'f>
    ensures { result ≡ record { name = name.entry; bytes = bytes.entry; cuts = cuts.entry } }
{
    NewFile { name, bytes, cuts }
}

/// `turns T entries E messages M records K`, and a line feed: what was folded.
fn fold_text(alloc: Global, journal: &Judged) -> Result<Vec<u8>, NoMemory>
    ensures { IfOk result (λ text. text.items ≡ line_of
        (length journal.now.history.turns) (length (entries_of journal.now.history.turns))
        journal.now.folded.messages (length journal.now.folded.memory.rows)) }
{
    let turns = journal.history.turns();
    let entries = journal.history.total_entries();
    let messages = journal.folded.messages;
    let records = journal.folded.memory.len();
    let text = format!(in alloc;
        "turns {turns} entries {entries} messages {messages} records {records}\n"
    )?;
    Ok(text.into_bytes())
}
