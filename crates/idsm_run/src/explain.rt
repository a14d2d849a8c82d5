//! The command `explain`: what became of each item of a recorded history.

ghost use Rattle.cmd_steps.specs.Words.{EndsAs, explain_command, plain_end, recording};

use cmd_files::Stop;
use cmd_steps::read_inputs;
use cmd_words::RecordingNames;
use ids_outside::Shelf;
use std::alloc::Global;

/// Returns the text of a journal with what became of each item, and an account for each event. What the journal was
/// judged by is given back before the text is made.
pub(crate) fn explain<'a, H: Shelf>(
    alloc: Global,
    names: RecordingNames<'a>,
    shelf: &mut H,
) -> Result<Vec<u8>, Stop<&'a str>>
    ensures { EndsAs (explain_command (recording names.entry)) (plain_end result) (H.shows shelf.old) (H.shows shelf.new) }
{
    let inputs = read_inputs(alloc, names, shelf)?;
    let journal = inputs.journal;
    drop(journal.folded);
    let text = chain_endings::explain(alloc, &inputs.config, &journal.history, &journal.losses)?;
    Ok(text)
}
