//! The messages of a file, in a format for other programs.

ghost use Rattle.std.specs.Prelude.{◌≡◌, ◌⊎◌, ◌++◌, List, Ok, Err, IfOk, IfErr, OnOk};
ghost use Rattle.ids_frame.specs.{FitsMessage, MessageParts, messages_read, spelling};
ghost use Rattle.message_export.specs.Exported.{exported, front_of, piece};
ghost use Rattle.message_export.specs.declared.exporting.ExportFault.TheVariants as faults;

use crate::capture::{FRONT, NO_TIME, Time, push_packet, time_after};
use crate::json::push_line;
use crate::pieces::append;
use ids_frame::{BadMessage, Message, decode};
use ids_types::NoMemory;
use std::alloc::Global;

/// Why messages are not exported.
#[derive(Clone, Copy, Debug, PartialEq, Eq)]
pub enum ExportFault {
    /// A message cannot be read.
    Bad(BadMessage),
    /// The allocator had no room.
    NoMemory,
}

impl From<NoMemory> for ExportFault {
    ghost from_gives = { λ _ fault. fault ≡ faults.NoMemory };

    fn from(_: NoMemory) -> Self {
        ExportFault::NoMemory
    }
}

/// What messages are exported as.
#[derive(Clone, Copy, Debug, PartialEq, Eq)]
pub enum Format {
    /// An object of JSON for each message, a line each.
    Json,
    /// A capture of packets, as pcap readers take it.
    Pcap,
}

/// The messages of a file in this format, or the first that cannot be read.
/// Steps: each message read once, and its line or its packet put. Memory: may answer want of memory. By: `found`; read
/// off.
pub fn export(alloc: Global, format: Format, bytes: &[u8]) -> Result<Vec<u8>, ExportFault>
    ensures found { IfOk result (λ text. (messages : List MessageParts)
        × (messages_read bytes.now ≡ Ok messages) × (text.items ≡ exported format messages)) }
    ensures stops { IfErr result (λ fault. (fault ≡ ExportFault.NoMemory) ⊎ ((bad : BadMessage)
        × (messages_read bytes.now ≡ Err bad) × (fault ≡ ExportFault.Bad bad))) }
{
    let mut out = begun(alloc, format)?;
    let mut time = NO_TIME;
    let mut rest = bytes;
    while !rest.is_empty() {
        let at = bytes.len() - rest.len();
        match decode(rest) {
            Ok((message, size)) => {
                let (spelled, behind) = rest.split_at(size);
                time = time_after(time, message.stamp());
                push_piece(&mut out, format, at, time, &message, spelled)?;
                rest = behind;
            }
            Err(fault) => return Err(ExportFault::Bad(BadMessage { at, fault })),
        }
    }
    Ok(out)
}

/// What stands before all messages.
fn begun(alloc: Global, format: Format) -> Result<Vec<u8>, NoMemory>
    ensures { IfOk result (λ out. out.items ≡ front_of format) }
{
    let mut out = Vec::new(alloc);
    if format == Format::Pcap {
        append(&mut out, FRONT)?;
    }
    Ok(out)
}

/// Appends what tells a message of these bytes, which stands after so many.
fn push_piece(
    out: &mut Vec<u8>,
    format: Format,
    at: usize,
    time: Time,
    message: &Message<'_>,
    spelled: &[u8],
) -> Result<(), NoMemory>
    requires fits { FitsMessage message.now }
    requires spelled { spelled.now ≡ spelling message.now }
    ensures { OnOk result (out.new.items ≡ out.old.items ++ piece format at time message.now) }
{
    match format {
        Format::Json => push_line(out, at as u64, message),
        Format::Pcap => push_packet(out, time, spelled),
    }
}
