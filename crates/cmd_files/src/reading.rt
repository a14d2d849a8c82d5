//! Files that are read whole.

ghost use Rattle.std.specs.Prelude.{◌≤◌, length, IfOk};
ghost use Rattle.cmd_files.specs.Reading.{Reads, file, seen_as};

use crate::stop::{Refusal, Stop};
use ids_outside::{ReadFault, Shelf};
use std::alloc::Global;

/// The bytes of a file, where it has at most so many.
/// Steps: one read of the shelf. Memory: may answer want of memory. Waits: as its shelf. By: `reads` (`Reads`); no
/// loop.
pub fn read_file<'a, H: Shelf>(
    alloc: Global,
    name: &'a str,
    limit: u64,
    shelf: &mut H,
) -> Result<Vec<u8>, Stop<&'a str>>
    ensures reads { Reads (file limit name.now) (seen_as (λ bytes. bytes.items) result)
        (H.shows shelf.old) (H.shows shelf.new) }
    ensures within { IfOk result (λ bytes. length bytes.items ≤ limit) }
{
    match shelf.read(alloc, name, limit) {
        Ok(bytes) => Ok(bytes),
        Err(ReadFault::Failed) => Err(Stop::CannotRead(name)),
        Err(ReadFault::TooLong) => Err(Stop::Refused(Refusal::TooLong(name))),
        Err(ReadFault::NoMemory) => Err(Stop::NoMemory),
    }
}
