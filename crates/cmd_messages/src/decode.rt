//! The command `decode`: the messages of a file, a line for each.

ghost use Rattle.cmd_steps.specs.Words.{EndsAs, Judges, decode as decode_command, decoded_text, does, messages_judged, only_said, plain_end, seen_as};

use crate::Line;
use cmd_files::{MAX_MESSAGES_BYTES, Refusal, Stop, read_file};
use ids_frame::{BadMessage, decode};
use ids_outside::Shelf;
use std::alloc::Global;
use text_spec::push_message;

/// Decodes the file of messages, and returns their lines.
/// Steps: MESSAGES read, its messages gone over once, and the bytes of their lines. Memory: may answer want of memory.
/// Waits: as its shelf. By: `EndsAs`; read off.
pub fn decode_file<'a, H: Shelf>(alloc: Global, name: &'a str, shelf: &mut H) -> Line<'a>
    ensures { EndsAs (decode_command name.now) (plain_end result) (H.shows shelf.old) (H.shows shelf.new) }
{
    let bytes = read_file(alloc, name, MAX_MESSAGES_BYTES, shelf)?;
    lines_of(alloc, &bytes)
}

/// A line for each message of a file. Each message is judged and printed before the next.
fn lines_of<'a>(alloc: Global, bytes: &[u8]) -> Line<'a>
    ensures { Judges (messages_judged decoded_text bytes.now) (seen_as (λ text. does (only_said text.items)) result) }
{
    let mut lines = Vec::new(alloc);
    let mut rest = bytes;
    while !rest.is_empty() {
        match decode(rest) {
            Ok((message, size)) => {
                push_message(&mut lines, &message)?;
                rest = &rest[size..];
            }
            Err(fault) => {
                let at = bytes.len() - rest.len();
                return Err(Stop::Refused(Refusal::BadMessages(BadMessage { at, fault })));
            }
        }
    }
    Ok(lines)
}
