//! What the event memory's records tell.
ghost use Rattle.std.specs.Prelude.{◌≡◌, reverse};
ghost use Rattle.event_memory.specs.Views.{plain_row};
ghost use Rattle.idsm_api.specs.Reading.{RowTells, row_in};

use crate::answer::Answer;
use crate::writing::put_front;
use event_memory::{Memory, Row};
use ids_types::{EventIndex, Key, Stamp};

/// A record of the event memory, without its context data.
#[derive(Clone, Copy)]
pub struct RowTold {
    pub key: Key,
    /// How often the event occurred: at most 65,535.
    pub occurrences: u16,
    /// The ticks of its first and its last item.
    pub first: u64,
    pub last: u64,
    pub stamp: Option<Stamp>,
    /// How many bytes of context data its last item had.
    pub bytes: u64,
}

/// The answer of a reading, and the record, if there is one.
#[derive(Clone, Copy)]
pub struct RowAnswer {
    pub answer: Answer,
    pub row: Option<RowTold>,
}

/// What all turns so far did, laid out as C has it.
#[repr(C)]
#[derive(Clone, Copy)]
pub struct Status {
    /// How many turns there were, and the tick of the last, 0 before the first.
    pub turns: u64,
    pub tick: u64,
    /// How many reports and controls they took, how many reports were lost and how many miss their context.
    pub entries: u64,
    pub lost_events: u64,
    pub lost_contexts: u64,
    /// How many messages they sent, and how many events the limits held back, each counted up to 2^64 - 1.
    pub messages: u64,
    pub limited: u64,
    /// How many records the event memory has.
    pub records: u32,
    /// The block state, as the last turn left it.
    pub state: u8,
}

// What a record tells.
fn told_of(row: &Row<'_>) -> RowTold
    ensures { result ≡ row_in (plain_row row.now) }
{
    RowTold {
        key: row.key,
        occurrences: row.occurrences,
        first: row.first,
        last: row.last,
        stamp: row.stamp,
        bytes: row.context.len() as u64,
    }
}

/// Reads record `i`, and writes its context data to the front of the buffer, if they all fit.
pub(crate) fn hand_over_row(memory: &Memory, i: u16, buffer: &mut [u8]) -> RowAnswer
    ensures { RowTells (reverse memory.now.rows) i buffer.old result.answer result.row buffer.new }
{
    if i >= memory.len() {
        return RowAnswer {
            answer: Answer::OutOfRange,
            row: None,
        };
    }
    let row = memory.row(i);
    let told = Some(told_of(&row));
    if put_front(row.context, buffer) {
        RowAnswer {
            answer: Answer::Done,
            row: told,
        }
    } else {
        RowAnswer {
            answer: Answer::SmallBuffer,
            row: told,
        }
    }
}
