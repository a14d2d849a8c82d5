//! A record as an image has it: its fields, read and written.
ghost use Rattle.std.specs.Prelude.{◌≡◌, ◌+◌, ◌≤◌, ◌++◌, ◌∷◌, ◌↔◌, IsTrue, length, option_map, vec_capacity, vec_len};
ghost use Rattle.std.specs.Int.{to_be_bytes, w16, w64};
ghost use Rattle.event_memory.specs.Views.{plain_row};
ghost use Rattle.ids_frame.specs.Reading.{Gives, byte_at, number_at};
ghost use Rattle.memory_image.specs.Images.{flag_of, number_of, row_bytes};
ghost use Rattle.memory_image.specs.Reading.{Begins, InRange, TellRow, TellStamp, fields_at, plain_fields};

use event_memory::Row;
use ids_types::{EventIndex, Key, Stamp};

/// The greatest event, sensor and tick of a record, and the most bytes of its context data.
const MAX_EVENT: u16 = 255;

const MAX_SENSOR: u8 = 63;

const MAX_TICK: u64 = 1 << 62;

const MAX_CONTEXT: usize = 1024;

/// The fields of a record. The timestamp is a flag, 1 where there is one, and its number, else 0.
#[derive(Clone, Copy)]
pub(crate) struct Fields<'a> {
    event: u16,
    id: u16,
    sensor: u8,
    occurrences: u16,
    first: u64,
    last: u64,
    flag: u8,
    number: u64,
    context: &'a [u8],
}

impl<'a> Fields<'a> {
    /// The record, where each field is within its range.
    fn row(&self) -> Option<Row<'a>>
        ensures { TellRow (plain_fields self.now) (option_map plain_row result) }
    {
        let stamp = stamp_of(self.flag, self.number)?;
        if !self.is_in_range() {
            return None;
        }
        Some(Row {
            key: Key {
                event: EventIndex(self.event),
                id: self.id,
                sensor: self.sensor,
            },
            occurrences: self.occurrences,
            first: self.first,
            last: self.last,
            stamp,
            context: self.context,
        })
    }

    fn is_in_range(&self) -> bool
        ensures { IsTrue result ↔ InRange (plain_fields self.now) }
    {
        self.event <= MAX_EVENT
            && self.sensor <= MAX_SENSOR
            && self.occurrences >= 1
            && self.first <= self.last
            && self.last <= MAX_TICK
            && self.context.len() <= MAX_CONTEXT
    }
}

fn stamp_of(flag: u8, number: u64) -> Option<Option<Stamp>>
    ensures { TellStamp flag number result }
{
    match flag {
        1 => Some(Some(Stamp(number))),
        0 if number == 0 => Some(None),
        _ => None,
    }
}

/// The record at the front of an image, and the bytes after it.
pub(crate) fn row_of(bytes: &[u8]) -> Option<(Row<'_>, &[u8])>
    ensures { Begins bytes.now (option_map (λ front. (plain_row front.0, front.1.now)) result) }
{
    let (fields, rest) = fields_of_bytes(bytes)?;
    let row = fields.row()?;
    Some((row, rest))
}

#[tactic(auto, unfolding(crate::specs::Reading::fields_at))]
fn fields_of_bytes(bytes: &[u8]) -> Option<(Fields<'_>, &[u8])>
    ensures { Gives (λ x. (plain_fields x.0, x.1.now)) result (fields_at bytes.now) }
{
    let (event, rest) = u16_of(bytes)?;
    let (id, rest) = u16_of(rest)?;
    let (sensor, rest) = u8_of(rest)?;
    let (occurrences, rest) = u16_of(rest)?;
    let (first, rest) = u64_of(rest)?;
    let (last, rest) = u64_of(rest)?;
    let (flag, rest) = u8_of(rest)?;
    let (number, rest) = u64_of(rest)?;
    let (size, rest) = u16_of(rest)?;
    let (context, rest) = rest.split_at_checked(usize::from(size))?;
    let fields = Fields {
        event,
        id,
        sensor,
        occurrences,
        first,
        last,
        flag,
        number,
        context,
    };
    Some((fields, rest))
}

fn u8_of(bytes: &[u8]) -> Option<(u8, &[u8])>
    ensures { Gives (λ x. (x.0, x.1.now)) result (byte_at bytes.now) }
{
    bytes.split_first().map(|(byte, rest)| (*byte, rest))
}

fn u16_of(bytes: &[u8]) -> Option<(u16, &[u8])>
    ensures { Gives (λ x. (x.0, x.1.now)) result (number_at w16 bytes.now) }
{
    let (front, rest) = bytes.split_first_chunk()?;
    Some((u16::from_be_bytes(*front), rest))
}

fn u64_of(bytes: &[u8]) -> Option<(u64, &[u8])>
    ensures { Gives (λ x. (x.0, x.1.now)) result (number_at w64 bytes.now) }
{
    let (front, rest) = bytes.split_first_chunk()?;
    Some((u64::from_be_bytes(*front), rest))
}

/// Appends a record's part of an image, for which there is room.
pub(crate) fn put_row(out: &mut Vec<u8>, row: &Row<'_>)
    requires size { length row.now.context.now ≤ 1024 }
    requires room { vec_len out.old + length (row_bytes (plain_row row.now)) ≤ vec_capacity out.old }
    ensures items { out.new.items ≡ out.old.items ++ row_bytes (plain_row row.now) }
    ensures capacity { vec_capacity out.old ≤ vec_capacity out.new }
{
    put(out, &row.key.event.0.to_be_bytes());
    put(out, &row.key.id.to_be_bytes());
    put(out, &[row.key.sensor]);
    put(out, &row.occurrences.to_be_bytes());
    put(out, &row.first.to_be_bytes());
    put(out, &row.last.to_be_bytes());
    put_stamp(out, row.stamp);
    put(out, &(row.context.len() as u16).to_be_bytes());
    put(out, row.context);
}

fn put_stamp(out: &mut Vec<u8>, stamp: Option<Stamp>)
    requires { vec_len out.old + 9 ≤ vec_capacity out.old }
    ensures items { out.new.items ≡ out.old.items ++ flag_of stamp ∷ to_be_bytes w64 (number_of stamp) }
    ensures capacity { vec_capacity out.old ≤ vec_capacity out.new }
{
    match stamp {
        Some(stamp) => {
            put(out, &[1]);
            put(out, &stamp.0.to_be_bytes());
        }
        None => put(out, &[0; 9]),
    }
}

/// Appends a piece, for which there is room.
fn put(out: &mut Vec<u8>, piece: &[u8])
    requires { vec_len out.old + length piece.now ≤ vec_capacity out.old }
    ensures items { out.new.items ≡ out.old.items ++ piece.now }
    ensures capacity { vec_capacity out.old ≤ vec_capacity out.new }
{
    out.extend_from_slice(piece).unwrap();
}
