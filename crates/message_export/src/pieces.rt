//! Bytes that are appended, and the parts of a timestamp.

ghost use Rattle.std.specs.Prelude.{◌≡◌, ◌++◌, OnOk};
ghost use Rattle.std.specs.Int.{w32, to_be_bytes};
ghost use Rattle.message_export.specs.Capture.{nanoseconds_of, seconds_of};

use ids_types::{NoMemory, Stamp};

/// Appends the bytes.
pub(crate) fn append(out: &mut Vec<u8>, bytes: &[u8]) -> Result<(), NoMemory>
    ensures { OnOk result (out.new.items ≡ out.old.items ++ bytes.now) }
{
    Ok(out.extend_from_slice(bytes)?)
}

/// Appends a number, its high byte first.
pub(crate) fn append_number(out: &mut Vec<u8>, number: u32) -> Result<(), NoMemory>
    ensures { OnOk result (out.new.items ≡ out.old.items ++ to_be_bytes w32 number) }
{
    append(out, &number.to_be_bytes())
}

pub(crate) fn seconds(stamp: Stamp) -> u32
    ensures { result ≡ seconds_of stamp }
{
    (stamp.0 % 0x1_0000_0000) as u32
}

/// The nanoseconds, which may be more than those of a second.
pub(crate) fn nanoseconds(stamp: Stamp) -> u32
    ensures { result ≡ nanoseconds_of stamp }
{
    (stamp.0 / 0x1_0000_0000 % 0x4000_0000) as u32
}
