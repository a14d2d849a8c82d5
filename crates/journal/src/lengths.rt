//! How many bytes the lines of a turn have at most.

ghost use Rattle.std.specs.Prelude.{◌≡◌, ◌+◌, ◌≤◌, ◌<◌, ◌↔◌, IfSome, IsNone, map, true};
ghost use Rattle.ids_types.specs.{act_by, carried_by, entry_by};
ghost use Rattle.ids_types.specs.declared.entry.TurnHead.{TurnHead as Head};
ghost use Rattle.journal.specs.Printing.{most_for, most_of, most_with};

use ids_types::{Act, Carried, Entry, Parcel};

/// The most bytes of the head of a turn, of a control, of a report without context, and of one with a context beside two
/// digits a byte.
const HEAD: u64 = 67;

const CONTROL: u64 = 52;

const REPORT: u64 = 48;

const CONTEXT: u64 = 64;

/// What each number of a missing context takes at most.
const NUMBER: u64 = 15;

/// Whether the lines of a turn of these entries fit into so many bytes, whatever their numbers are.
/// Steps: the entries. By: read off.
pub fn turn_fits<B: Parcel>(items: &[Entry<B>], room: u64) -> bool
    ensures { (head : Head) → (result ≡ true) ↔ (most_for (record { head = head; entries = map (entry_by B.held) items.now }) ≤ room) }
{
    let Some(mut left) = room.checked_sub(HEAD) else {
        return false;
    };
    for entry in items {
        match left_after(&entry.act, left) {
            Some(rest) => left = rest,
            None => return false,
        }
    }
    true
}

/// How many bytes the lines of a turn of so many entries have at most, if a missing context has at most so many numbers and
/// all contexts together so many bytes: up to 2^64 - 1.
pub fn most_of_a_turn(entries: u64, numbers: u64, bytes: u64) -> u64 {
    let line = match numbers {
        0 => CONTROL,
        _ => CONTEXT.max((REPORT - 1).saturating_add(NUMBER.saturating_mul(numbers))),
    };
    HEAD.saturating_add(entries.saturating_mul(line))
        .saturating_add(bytes.saturating_mul(2))
}

// What is left of so many bytes after the line of an entry.
fn left_after<B: Parcel>(act: &Act<B>, left: u64) -> Option<u64>
    ensures some { IfSome result (λ rest. rest + most_of (act_by B.held act.now) ≡ left) }
    ensures none { IsNone result → left < most_of (act_by B.held act.now) }
{
    match act {
        Act::Report { context, .. } => left_behind(context, left),
        Act::State(_) | Act::SetMode { .. } => left.checked_sub(CONTROL),
    }
}

// What is left of them after the line of a report with this context.
fn left_behind<B: Parcel>(context: &Carried<B>, left: u64) -> Option<u64>
    ensures some { IfSome result (λ rest. rest + most_with (carried_by B.held context.now) ≡ left) }
    ensures none { IsNone result → left < most_with (carried_by B.held context.now) }
{
    match context {
        Carried::Absent => left.checked_sub(REPORT),
        Carried::Kept { parcel, .. } => {
            let bytes = parcel.bytes().len() as u64;
            left.checked_sub(CONTEXT)?
                .checked_sub(bytes)?
                .checked_sub(bytes)
        }
        Carried::Missing(numbers) => left.checked_sub(REPORT)?.checked_sub(
            (NUMBER * numbers.as_slice().len() as u64).saturating_sub(1),
        ),
    }
}
