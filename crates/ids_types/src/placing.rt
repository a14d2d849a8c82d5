//! Entries on their way into a history's memory and out of it.

ghost use Rattle.std.specs.Prelude.{◌≡◌, ◌+◌, ◌<◌, ◌≤◌, ◌^◌, ◌++◌, [], ◌∷◌, length, map, is_some, IsTrue, slice_index, slice_range, vec_len, vec_capacity};
ghost use Rattle.std.specs.List.{AllByRecursion};
ghost use Rattle.ids_types.specs.{Report, Holding, act_by, act_of, plain_carried, plain_entry, carried_bytes, kept_bytes, stamp_before, stamp_numbers, context_numbers, own_numbers, kind_of, row_of as row_for, entry_of, KindWithin, EntryWithin, bytes_at};

use crate::entry::{Act, Carried, Entry};
use crate::names::{EventIndex, Stamp};
use crate::numbers::Numbers;
use crate::parcel::Plain;
use crate::rows::{EntryRow, RowKind};

impl<'a> Entry<Plain<'a>> {
    /// The bytes of context that the entry keeps, none where it keeps no context.
    pub fn kept_bytes(&self) -> &'a [u8]
        ensures { result.now ≡ kept_bytes (plain_entry self.now) }
    {
        match &self.act {
            Act::Report { context, .. } => match context {
                Carried::Kept { parcel, .. } => parcel.0,
                Carried::Absent | Carried::Missing(_) => &[],
            },
            Act::State(_) | Act::SetMode { .. } => &[],
        }
    }
}

/// Adds the number of a stamp, and tells whether there was one.
fn put_stamp(numbers: &mut Vec<u64>, stamp: Option<Stamp>) -> bool
    requires { vec_len numbers.old + 1 ≤ vec_capacity numbers.old }
    ensures numbers { numbers.new.items ≡ numbers.old.items ++ stamp_numbers stamp }
    ensures few { vec_len numbers.new ≤ vec_len numbers.old + 1 }
    ensures capacity { vec_capacity numbers.old ≤ vec_capacity numbers.new }
    ensures some { result ≡ is_some stamp }
{
    match stamp {
        Some(stamp) => {
            numbers.push_reserved(stamp.0);
            true
        }
        None => false,
    }
}

/// Adds the numbers of a context whose bytes lie from `start` on, and tells its kind.
#[inline(always)]
fn put_context(numbers: &mut Vec<u64>, context: &Carried<Plain<'_>>, start: usize) -> RowKind
    requires room { vec_len numbers.old + 4 ≤ vec_capacity numbers.old }
    requires end { start + length (carried_bytes (plain_carried context.now)) < 2 ^ 64 }
    ensures numbers { numbers.new.items ≡
        numbers.old.items ++ context_numbers start (plain_carried context.now) }
    ensures few { vec_len numbers.new ≤ vec_len numbers.old + 4 }
    ensures capacity { vec_capacity numbers.old ≤ vec_capacity numbers.new }
    ensures kind { result ≡ kind_of (plain_carried context.now) }
    ensures within { KindWithin numbers.new.items
        (start + length (carried_bytes (plain_carried context.now))) (length numbers.old.items) result }
{
    match context {
        Carried::Absent => RowKind::Bare,
        Carried::Kept {
            class,
            claim,
            parcel,
        } => {
            numbers.push_reserved(*claim);
            numbers.push_reserved(start as u64);
            numbers.push_reserved((start + parcel.0.len()) as u64);
            RowKind::Holding(*class)
        }
        Carried::Missing(asked) => RowKind::Lacking(put_asked(numbers, asked.again())),
    }
}

/// Adds the numbers of a context that found no buffer, and tells how many they are. They come by value,
/// so that an entry without them needs no place in memory on its way into a row.
#[inline(never)]
fn put_asked(numbers: &mut Vec<u64>, asked: Numbers) -> u8
    requires { vec_len numbers.old + 4 ≤ vec_capacity numbers.old }
    ensures numbers { numbers.new.items ≡ numbers.old.items ++ asked }
    ensures few { vec_len numbers.new ≤ vec_len numbers.old + 4 }
    ensures capacity { vec_capacity numbers.old ≤ vec_capacity numbers.new }
    ensures count { result ≡ length asked }
{
    let asked = asked.as_slice();
    numbers.extend_from_slice(asked).unwrap();
    asked.len() as u8
}

/// Adds the bytes of a context. Most entries have none.
pub(crate) fn put_bytes(out: &mut Vec<u8>, bytes: &[u8])
    requires { vec_len out.old + length bytes.now ≤ vec_capacity out.old }
    ensures items { out.new.items ≡ out.old.items ++ bytes.now }
    ensures len { vec_len out.new ≡ vec_len out.old + length bytes.now }
    ensures capacity { vec_capacity out.old ≤ vec_capacity out.new }
{
    if !bytes.is_empty() {
        out.extend_from_slice(bytes).unwrap();
    }
}

/// The row of an entry whose context bytes lie from `start` on. Its numbers are added to `numbers`.
#[inline(always)]
pub(crate) fn row_of(entry: &Entry<Plain<'_>>, start: usize, numbers: &mut Vec<u64>) -> EntryRow
    requires room { vec_len numbers.old + 5 ≤ vec_capacity numbers.old }
    requires end { start + length (kept_bytes (plain_entry entry.now)) < 2 ^ 64 }
    ensures numbers { numbers.new.items ≡
        numbers.old.items ++ own_numbers start (plain_entry entry.now) }
    ensures few { vec_len numbers.new ≤ vec_len numbers.old + 5 }
    ensures capacity { vec_capacity numbers.old ≤ vec_capacity numbers.new }
    ensures row { result ≡ row_for (length numbers.old.items) (plain_entry entry.now) }
    ensures within { EntryWithin numbers.new.items
        (start + length (kept_bytes (plain_entry entry.now))) result }
{
    let row = EntryRow {
        call: entry.call,
        place: numbers.len(),
        event: 0,
        count: 0,
        caller: entry.caller,
        stamped: false,
        kind: RowKind::Bare,
    };
    match &entry.act {
        Act::Report {
            event,
            count,
            stamp,
            context,
        } => {
            let stamped = put_stamp(numbers, *stamp);
            let place = numbers.len();
            let kind = put_context(numbers, context, start);
            EntryRow {
                place,
                event: event.0,
                count: *count,
                stamped,
                kind,
                ..row
            }
        }
        Act::State(state) => EntryRow {
            kind: RowKind::StateTo(*state),
            ..row
        },
        Act::SetMode { event, mode } => EntryRow {
            event: event.0,
            kind: RowKind::ModeTo(*mode),
            ..row
        },
    }
}

fn stamp_of(row: &EntryRow, numbers: &[u64]) -> Option<Stamp>
    requires there { row.now.place ≤ length numbers.now }
    requires stamp { IsTrue row.now.stamped → 1 ≤ row.now.place }
    ensures { result ≡ stamp_before numbers.now row.now.stamped row.now.place }
{
    if row.stamped {
        Some(Stamp(numbers[row.place - 1]))
    } else {
        None
    }
}

/// The report of a row, with this context.
#[inline(always)]
fn report_of<'a>(row: &EntryRow, numbers: &[u64], context: Carried<Plain<'a>>) -> Act<Plain<'a>>
    requires there { row.now.place ≤ length numbers.now }
    requires stamp { IsTrue row.now.stamped → 1 ≤ row.now.place }
    ensures { act_by (λ p. p.0.now) result ≡ Report (record { 0 = row.now.event }) row.now.count
        (stamp_before numbers.now row.now.stamped row.now.place) (plain_carried context.entry) }
{
    Act::Report {
        event: EventIndex(row.event),
        count: row.count,
        stamp: stamp_of(row, numbers),
        context,
    }
}

/// The bytes between the ends that stand at a place of the numbers.
fn bytes_of<'a>(numbers: &[u64], bytes: &'a [u8], place: usize) -> &'a [u8]
    requires there { place + 2 ≤ length numbers.now }
    requires ordered { slice_index numbers.now place ≤ slice_index numbers.now (place + 1) }
    requires within { slice_index numbers.now (place + 1) ≤ length bytes.now }
    ensures { result.now ≡ bytes_at numbers.now bytes.now place }
{
    let (start, end) = (numbers[place], numbers[place + 1]);
    &bytes[start as usize..end as usize]
}

/// The numbers of a context that found no buffer, which lie from a place on. Few entries have them.
#[inline(never)]
fn asked_of(numbers: &[u64], place: usize, count: u8) -> Numbers
    requires few { count ≤ 4 }
    requires there { place + count ≤ length numbers.now }
    ensures { result ≡ slice_range numbers.now place (place + count) }
{
    Numbers::make(&numbers[place..place + count as usize])
}

/// The report of a row whose context was kept by this class, with its bytes lent.
#[inline(always)]
fn kept_report<'a>(row: &EntryRow, numbers: &[u64], bytes: &'a [u8], class: u8) -> Act<Plain<'a>>
    requires within { EntryWithin numbers.now (length bytes.now) row.now }
    requires kind { row.now.kind ≡ Holding class }
    ensures { act_by (λ p. p.0.now) result ≡ act_of numbers.now bytes.now row.now (Holding class) }
{
    let claim = numbers[row.place];
    let parcel = Plain(bytes_of(numbers, bytes, row.place + 1));
    let context = Carried::Kept {
        class,
        claim,
        parcel,
    };
    report_of(row, numbers, context)
}

/// The entry of a row that has this act.
#[inline(always)]
fn entry_by<'a>(row: &EntryRow, act: Act<Plain<'a>>) -> Entry<Plain<'a>>
    ensures { plain_entry result ≡ record {
      caller = row.now.caller;
      call = row.now.call;
      act = act_by (λ p. p.0.now) act.entry;
    } }
{
    Entry {
        caller: row.caller,
        call: row.call,
        act,
    }
}

/// The entry of a row, with its bytes lent from all of a history's.
#[inline(always)]
pub(crate) fn lent<'a>(row: &EntryRow, numbers: &[u64], bytes: &'a [u8]) -> Entry<Plain<'a>>
    requires { EntryWithin numbers.now (length bytes.now) row.now }
    ensures { plain_entry result ≡ entry_of numbers.now bytes.now row.now }
{
    let act = match row.kind {
        RowKind::Bare => report_of(row, numbers, Carried::Absent),
        RowKind::Holding(class) => kept_report(row, numbers, bytes, class),
        RowKind::Lacking(count) => {
            let asked = asked_of(numbers, row.place, count);
            report_of(row, numbers, Carried::Missing(asked))
        }
        RowKind::StateTo(state) => Act::State(state),
        RowKind::ModeTo(mode) => Act::SetMode {
            event: EventIndex(row.event),
            mode,
        },
    };
    entry_by(row, act)
}

/// The same for the rows that are few.
#[inline(never)]
fn lent_rarely<'a>(row: &EntryRow, numbers: &[u64], bytes: &'a [u8]) -> Entry<Plain<'a>>
    requires { EntryWithin numbers.now (length bytes.now) row.now }
    ensures { plain_entry result ≡ entry_of numbers.now bytes.now row.now }
{
    lent(row, numbers, bytes)
}

/// Puts the entries of these rows after the items.
#[inline(always)]
pub(crate) fn put_rows<'a>(
    rows: &[EntryRow],
    numbers: &[u64],
    bytes: &'a [u8],
    items: &mut Vec<Entry<Plain<'a>>>,
)
    requires within { AllByRecursion (EntryWithin numbers.now (length bytes.now)) rows.now }
    requires room { vec_len items.old + length rows.now ≤ vec_capacity items.old }
    ensures items { map plain_entry items.new.items ≡
        map plain_entry items.old.items ++ map (entry_of numbers.now bytes.now) rows.now }
    ensures capacity { vec_capacity items.new ≡ vec_capacity items.old }
{
    let mut left = rows;
    while let [row, rest @ ..] = left {
        put_lent(row, numbers, bytes, items);
        left = rest;
    }
}

/// Puts the entry of a row after the items. It is made whole for each of the two kinds that most rows have, so
/// that it goes from registers to its place at once.
#[inline(always)]
fn put_lent<'a>(row: &EntryRow, numbers: &[u64], bytes: &'a [u8], items: &mut Vec<Entry<Plain<'a>>>)
    requires within { EntryWithin numbers.now (length bytes.now) row.now }
    requires room { vec_len items.old + 1 ≤ vec_capacity items.old }
    ensures items { map plain_entry items.new.items ≡
        map plain_entry items.old.items ++ entry_of numbers.now bytes.now row.now ∷ [] }
    ensures capacity { vec_capacity items.new ≡ vec_capacity items.old }
{
    match row.kind {
        RowKind::Bare => {
            let act = report_of(row, numbers, Carried::Absent);
            items.push_reserved(entry_by(row, act));
        }
        RowKind::Holding(class) => {
            let act = kept_report(row, numbers, bytes, class);
            items.push_reserved(entry_by(row, act));
        }
        _ => items.push_reserved(lent_rarely(row, numbers, bytes)),
    }
}
