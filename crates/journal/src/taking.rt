//! An entry from its raw parts, once they are in their ranges.

ghost use Rattle.std.specs.Prelude.{◌≡◌, ◌≤◌, length, take};
ghost use Rattle.ids_types.specs.Plain.{plain_carried, plain_entry, carried_bytes, kept_bytes};
ghost use Rattle.journal.specs.RawLines.{context_told, control_told, report_told};
ghost use Rattle.journal.specs.Typed.{IsTyped, IsTypedContext};

use crate::line::{RawChange, RawContext, RawControl, RawReport};
use ids_types::{Act, Carried, Entry, EventIndex, Plain};

/// Decodes the context, where it is kept, into the front of `room`, and returns how many bytes.
#[inline(always)]
pub(crate) fn decode_context(context: &RawContext<'_>, room: &mut [u8]) -> usize
    requires { length (carried_bytes (context_told context.now)) ≤ length room.old }
    ensures bytes { take result room.new ≡ carried_bytes (context_told context.now) }
    ensures within { result ≤ length room.new }
{
    match context {
        RawContext::Kept { bytes, .. } => bytes.decode(room),
        RawContext::Absent | RawContext::Missing(_) => 0,
    }
}

#[inline(always)]
fn context_of<'a>(context: &RawContext<'_>, bytes: &'a [u8]) -> Carried<Plain<'a>>
    requires typed { IsTypedContext (context_told context.now) }
    requires bytes { bytes.now ≡ carried_bytes (context_told context.now) }
    ensures { plain_carried result ≡ context_told context.now }
{
    match context {
        RawContext::Absent => Carried::Absent,
        RawContext::Kept { class, claim, .. } => Carried::Kept {
            class: *class as u8,
            claim: *claim,
            parcel: Plain(bytes),
        },
        RawContext::Missing(claims) => Carried::Missing(claims.numbers()),
    }
}

/// The entry of a report, with the bytes of its context.
#[inline(always)]
pub(crate) fn entry_of<'a>(report: &RawReport<'_>, bytes: &'a [u8]) -> Entry<Plain<'a>>
    requires typed { IsTyped (report_told report.now) }
    requires bytes { bytes.now ≡ kept_bytes (report_told report.now) }
    ensures { plain_entry result ≡ report_told report.now }
{
    Entry {
        caller: report.caller as u8,
        call: report.call,
        act: Act::Report {
            event: EventIndex(report.event as u16),
            count: report.count as u16,
            stamp: report.stamp,
            context: context_of(&report.context, bytes),
        },
    }
}

/// The entry of a control.
pub(crate) fn entry_of_control<'a>(control: &RawControl) -> Entry<Plain<'a>>
    requires { IsTyped (control_told control.now) }
    ensures { plain_entry result ≡ control_told control.now }
{
    let act = match control.change {
        RawChange::State(state) => Act::State(state as u8),
        RawChange::SetMode { event, mode } => Act::SetMode {
            event: EventIndex(event as u16),
            mode,
        },
    };
    Entry {
        caller: control.caller as u8,
        call: control.call,
        act,
    }
}
