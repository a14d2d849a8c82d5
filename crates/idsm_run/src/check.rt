//! The command `check`: whether a file holds the messages of a recorded history.

ghost use Rattle.std.specs.Prelude.{◌≡◌};
ghost use Rattle.cmd_steps.specs.Words.{EndsAs, Judges, check as check_command, check_judged, common_prefix_len, does, nat_eq, only_said, plain_end, seen_as, three_of};

use cmd_files::{MAX_MESSAGES_BYTES, Refusal, Stop, read_file};
use cmd_steps::read_inputs;
use cmd_words::CheckNames;
use ids_outside::Shelf;
use std::alloc::Global;

/// Compares a file with the messages that the filter chain sends for a journal, and returns the line that
/// tells that they are the same.
pub(crate) fn check<'a, H: Shelf>(
    alloc: Global,
    names: CheckNames<'a>,
    shelf: &mut H,
) -> Result<Vec<u8>, Stop<&'a str>>
    ensures { EndsAs (check_command (three_of names.entry)) (plain_end result) (H.shows shelf.old) (H.shows shelf.new) }
{
    let inputs = read_inputs(alloc, names.from, shelf)?;
    let bytes = read_file(alloc, names.messages, MAX_MESSAGES_BYTES, shelf)?;
    compare(alloc, &bytes, &inputs.journal.folded.sent)
}

/// The line that tells that the bytes are those that were sent.
fn compare<'a>(alloc: Global, bytes: &[u8], sent: &[u8]) -> Result<Vec<u8>, Stop<&'a str>>
    ensures { Judges (check_judged bytes.now sent.now) (seen_as (λ text. does (only_said text.items)) result) }
{
    if bytes == sent {
        return Ok(Vec::from_slice(alloc, b"same\n")?);
    }
    Err(Stop::Refused(Refusal::Differ {
        at: common_len(bytes, sent) as u64,
    }))
}

/// How many bytes stand first in both.
fn common_len(left: &[u8], right: &[u8]) -> usize
    ensures { result ≡ common_prefix_len nat_eq left.now right.now }
{
    let most = left.len().min(right.len());
    let mut count = 0;
    while count < most && left[count] == right[count] {
        count += 1;
    }
    count
}
