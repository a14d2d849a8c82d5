//! A record as it lies in the memory, with room for the longest context data.

ghost use Rattle.std.specs.Prelude.{◌≡◌, ◌≤◌, length, vec_capacity, IfOk};
ghost use Rattle.event_memory.specs.{added, begun, is_of as is_row_of, no_row, told, plain_item, plain_row};

use crate::row::Row;
use ids_types::{EventIndex, Key, NoMemory, Stamp};
use std::alloc::Global;
use std::marker::Model;

/// How many bytes of context data an item has at most.
const MAX_CONTEXT: usize = 1024;

/// An item that is stored.
#[derive(Clone, Copy)]
pub(crate) struct Item<'a> {
    pub(crate) tick: u64,
    pub(crate) key: Key,
    pub(crate) count: u16,
    pub(crate) stamp: Option<Stamp>,
    pub(crate) context: &'a [u8],
}

/// A place for a record.
#[derive(Debug, Drop)]
pub(crate) struct Slot {
    key: Key,
    occurrences: u16,
    first: u64,
    last: u64,
    stamp: Option<Stamp>,
    context: Vec<u8>,
}

impl Model for Slot {
    ghost use Rattle.ids_types.specs.MemoryRow.{Row as MemoryRow};

    ghost Value = { MemoryRow };

    ghost use Rattle.event_memory.specs.Views.{row_held, HasRoom};

    ghost view = { row_held };

    ghost invariant = { HasRoom };
}

impl Slot {
    /// A place that no item was put into.
    pub(crate) fn make(alloc: Global) -> Result<Slot, NoMemory>
        ensures { IfOk result (λ slot. slot ≡ no_row) }
    {
        Ok(Slot {
            key: Key {
                event: EventIndex(0),
                id: 0,
                sensor: 0,
            },
            occurrences: 0,
            first: 0,
            last: 0,
            stamp: None,
            context: Vec::with_capacity(alloc, MAX_CONTEXT)?,
        })
    }

    /// Begins a record by an item.
    pub(crate) fn begin(&mut self, item: &Item<'_>)
        requires { length item.now.context.now ≤ 1024 }
        ensures { self.new ≡ begun (plain_item item.now) }
    {
        self.occurrences = item.count;
        self.first = item.tick;
        self.tell(item);
    }

    /// Adds an item to the record.
    pub(crate) fn add(&mut self, item: &Item<'_>)
        requires { length item.now.context.now ≤ 1024 }
        ensures { self.new ≡ added (plain_item item.now) self.old }
    {
        self.occurrences = self.occurrences.saturating_add(item.count);
        self.tell(item);
    }

    /// The record tells this item as its last.
    fn tell(&mut self, item: &Item<'_>)
        requires { length item.now.context.now ≤ 1024 }
        ensures { self.new ≡ told (plain_item item.now) self.old.occurrences self.old.first }
    {
        self.key = item.key;
        self.last = item.tick;
        self.stamp = item.stamp;
        put_bytes(&mut self.context, item.context);
    }

    /// Whether the record is of this event.
    pub(crate) fn is_of(&self, event: EventIndex) -> bool
        ensures { result ≡ is_row_of event.0 self.now }
    {
        self.key.event == event
    }

    /// The record, with its context lent.
    pub(crate) fn row(&self) -> Row<'_>
        ensures { plain_row result ≡ self.now }
    {
        Row {
            key: self.key,
            occurrences: self.occurrences,
            first: self.first,
            last: self.last,
            stamp: self.stamp,
            context: &self.context,
        }
    }
}

/// Replaces bytes by others, for which there is room.
fn put_bytes(kept: &mut Vec<u8>, bytes: &[u8])
    requires { length bytes.now ≤ vec_capacity kept.old }
    ensures items { kept.new.items ≡ bytes.now }
    ensures capacity { vec_capacity kept.old ≤ vec_capacity kept.new }
{
    if bytes.is_empty() {
        kept.clear();
    } else if kept.len() == bytes.len() {
        // The contexts of an event mostly have one length, which stays as it is.
        kept.copy_from_slice(bytes);
    } else {
        kept.clear();
        kept.extend_from_slice(bytes).unwrap();
    }
}
