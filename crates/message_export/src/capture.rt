//! A message as a packet of a capture.

ghost use Rattle.std.specs.Prelude.{◌≡◌, ◌<◌, ◌^◌, ◌++◌, OnOk, length};
ghost use Rattle.message_export.specs.Capture.{packet, time_after};

use crate::pieces::{append, append_number, nanoseconds, seconds};
use ids_types::{NoMemory, Stamp};

/// The front of each capture.
pub(crate) const FRONT: &[u8; 24] = &[
    0xa1, 0xb2, 0x3c, 0x4d, 0, 2, 0, 4, 0, 0, 0, 0, 0, 0, 0, 0, 0, 4, 0, 0, 0, 0, 0, 147,
];

/// How many bytes of a message a packet keeps at most.
const MOST_BYTES: usize = 262_144;

/// The time of a packet.
#[derive(Clone, Copy)]
pub(crate) struct Time {
    pub(crate) seconds: u32,
    pub(crate) nanoseconds: u32,
}

/// The time of the first packet, where its message tells none.
pub(crate) const NO_TIME: Time = Time {
    seconds: 0,
    nanoseconds: 0,
};

/// The time of the packet after one of this time, of a message with this timestamp.
pub(crate) fn time_after(before: Time, stamp: Option<Stamp>) -> Time
    ensures { result ≡ time_after before stamp }
{
    match stamp {
        Some(stamp) if nanoseconds(stamp) < 1_000_000_000 => Time {
            seconds: seconds(stamp),
            nanoseconds: nanoseconds(stamp),
        },
        _ => before,
    }
}

/// Appends the packet of a message of these bytes.
pub(crate) fn push_packet(out: &mut Vec<u8>, time: Time, bytes: &[u8]) -> Result<(), NoMemory>
    requires { length bytes.now < 2 ^ 32 }
    ensures { OnOk result (out.new.items ≡ out.old.items ++ packet time bytes.now) }
{
    let (kept, _) = bytes.split_at(bytes.len().min(MOST_BYTES));
    append_number(out, time.seconds)?;
    append_number(out, time.nanoseconds)?;
    append_number(out, kept.len() as u32)?;
    append_number(out, bytes.len() as u32)?;
    append(out, kept)
}
