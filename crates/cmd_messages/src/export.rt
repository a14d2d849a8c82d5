//! The command `export`: the messages of a file, for other programs.

ghost use Rattle.cmd_steps.specs.Words.{EndsAs, Judges, does, export_command, exported_of, messages_judged, only_said, plain_end, seen_as};
ghost use Rattle.message_export.specs.Exported.{exported};

use crate::Line;
use cmd_files::{MAX_EXPORT_BYTES, Refusal, Stop, read_file};
use cmd_words::ExportNames;
use ids_outside::Shelf;
use message_export::{ExportFault, Format, export};
use std::alloc::Global;

/// Returns the messages of the file in the format that is asked for.
/// Steps: MESSAGES read, and then as `message_export::export`. Memory: may answer want of memory. Waits: as its shelf.
/// By: `EndsAs`; read off.
pub fn export_file<'a, H: Shelf>(alloc: Global, names: ExportNames<'a>, shelf: &mut H) -> Line<'a>
    ensures { EndsAs (export_command (exported_of names.entry)) (plain_end result) (H.shows shelf.old) (H.shows shelf.new) }
{
    let bytes = read_file(alloc, names.messages, MAX_EXPORT_BYTES, shelf)?;
    text_of(alloc, names.format, &bytes)
}

/// The messages of a file in this format.
fn text_of<'a>(alloc: Global, format: Format, bytes: &[u8]) -> Line<'a>
    ensures { Judges (messages_judged (exported format) bytes.now) (seen_as (λ text. does (only_said text.items)) result) }
{
    match export(alloc, format, bytes) {
        Ok(text) => Ok(text),
        Err(ExportFault::Bad(bad)) => Err(Stop::Refused(Refusal::BadMessages(bad))),
        Err(ExportFault::NoMemory) => Err(Stop::NoMemory),
    }
}
