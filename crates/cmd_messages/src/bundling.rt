//! The commands `bundle` and `unbundle`: messages packed into units, and taken out of them again.

ghost use Rattle.std.specs.Prelude.{◌≡◌, ◌≤◌};
ghost use Rattle.cmd_steps.specs.Words.{EndsAs, IfOk, List, Makes, bundle as bundle_command, packs, pair_of, plain_end, sized_of, unbundle as unbundle_command, units_text, unpacks, ℕ};

use crate::Line;
use cmd_files::{MAX_MESSAGES_BYTES, MAX_UNITS_BYTES, Refusal, Stop, read_file};
use cmd_steps::{Made, write_made};
use cmd_words::{PairNames, SizedNames};
use ids_bundle::{Count, PackFault, UnpackFault, count, pack, unpack};
use ids_outside::Shelf;
use std::alloc::{AllocError, Global};

/// Packs the messages of a file into units, and returns the line that counts both.
/// Steps: MESSAGES read, as `ids_bundle::pack` and `count`, and one file written. Memory: may answer want of memory.
/// Waits: as its shelf. By: `EndsAs`; read off.
pub fn bundle<'a, H: Shelf>(alloc: Global, names: SizedNames<'a>, shelf: &mut H) -> Line<'a>
    requires { 64 ≤ names.size }
    ensures { EndsAs (bundle_command (sized_of names.entry)) (plain_end result) (H.shows shelf.old) (H.shows shelf.new) }
{
    let bytes = read_file(alloc, names.files.source, MAX_MESSAGES_BYTES, shelf)?;
    write_made(
        names.files.target,
        make_packed(alloc, names.size, &bytes),
        shelf,
    )
}

/// Takes the messages of a file of units out of them, and returns the line that counts both.
/// Steps: UNITS read, as `ids_bundle::unpack` and `count`, and one file written. Memory: may answer want of memory.
/// Waits: as its shelf. By: `EndsAs`; read off.
pub fn unbundle<'a, H: Shelf>(alloc: Global, names: PairNames<'a>, shelf: &mut H) -> Line<'a>
    ensures { EndsAs (unbundle_command (pair_of names.entry)) (plain_end result) (H.shows shelf.old) (H.shows shelf.new) }
{
    let bytes = read_file(alloc, names.source, MAX_UNITS_BYTES, shelf)?;
    write_made(names.target, make_unpacked(alloc, &bytes), shelf)
}

/// The units of the messages, and their line.
#[tactic(auto, using(crate::proofs::CopyLemmas::packed_work))]
fn make_packed<'a>(alloc: Global, size: u16, messages: &[u8]) -> Result<Made, Stop<&'a str>>
    requires { 64 ≤ size }
    ensures { (target : List ℕ) → Makes (packs target size messages.now) target result }
{
    match pack(alloc, size, messages) {
        Ok(bytes) => {
            let line = units_line(alloc, count(&bytes))?;
            Ok(Made { bytes, line })
        }
        Err(PackFault::Bad(bad)) => Err(Stop::Refused(Refusal::BadMessages(bad))),
        Err(PackFault::TooLarge { at }) => Err(Stop::Refused(Refusal::TooLarge { at: at as u64 })),
        Err(PackFault::NoMemory) => Err(Stop::NoMemory),
    }
}

/// The messages of the units, and their line.
fn make_unpacked<'a>(alloc: Global, units: &[u8]) -> Result<Made, Stop<&'a str>>
    ensures { (target : List ℕ) → Makes (unpacks target units.now) target result }
{
    match unpack(alloc, units) {
        Ok(bytes) => {
            let line = units_line(alloc, count(units))?;
            Ok(Made { bytes, line })
        }
        Err(UnpackFault::Bad { at } | UnpackFault::Cut { at }) => {
            Err(Stop::Refused(Refusal::BadUnit { at: at as u64 }))
        }
        Err(UnpackFault::NoMemory) => Err(Stop::NoMemory),
    }
}

/// `units U messages M`, and a line feed.
fn units_line(alloc: Global, count: Count) -> Result<Vec<u8>, AllocError>
    ensures { IfOk result (λ text. text.items ≡ units_text count.units count.messages) }
{
    let Count { units, messages } = count;
    let text = format!(in alloc; "units {units} messages {messages}\n")?;
    Ok(text.into_bytes())
}
