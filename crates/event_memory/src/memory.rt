//! The records of the event memory, and how an item is stored in them.

ghost use Rattle.std.specs.Prelude.{◌≡◌, ◌<◌, ◌≤◌, ◌∷◌, [], List, length, reverse, slice_index_or, IfOk};
ghost use Rattle.std.specs.List.{position, remove};
ghost use Rattle.chain_spec.specs.Memory.{Stored};
ghost use Rattle.event_memory.specs.{Stands, after_adding, after_beginning, after_storing, is_of, no_row, no_rows, stored, plain_item, plain_row};

use crate::row::Row;
use crate::slot::{Item, Slot};
use ids_types::{EventIndex, Key, NoMemory, Stamp};
use std::alloc::Global;
use std::marker::Model;

/// The event memory: a record for each of the last few events that were stored.
///
/// The records in use come first, the one stored last before all others.
#[derive(Debug, Drop)]
pub struct Memory {
    slots: Vec<Slot>,
    used: usize,
}

impl Model for Memory {
    ghost use Rattle.event_memory.specs.Held.{Held};

    ghost Value = { Held };

    ghost use Rattle.event_memory.specs.MemoryView.{held_in, IsSound};

    ghost view = { held_in };

    ghost invariant = { IsSound };
}

impl Memory {
    /// An empty one of at most `k` records.
    /// Steps: the records, at most 256, each with a request. Memory: made once: at most 256 contexts of 1,024 bytes,
    /// and their records. By: condition: at most 256; read off.
    pub fn make(alloc: Global, k: u16) -> Result<Memory, NoMemory>
        requires { k ≤ 256 }
        ensures memory { IfOk result (λ memory. memory ≡ no_rows k) }
        ensures stands { IfOk result (λ memory. Stands memory []) }
    {
        let mut slots = Vec::with_capacity(alloc, usize::from(k))?;
        for _ in 0..k {
            slots.push(Slot::make(alloc)?)?;
        }
        Ok(Memory { slots, used: 0 })
    }

    /// Stores an item: it adds to the record of its event, or begins one and displaces the oldest where
    /// there is no more room. Its record is then the newest.
    /// Steps: the records up to that of the event, or all where it has none, at most 256. Each is looked at and moved
    /// one place back. And the bytes of the context, at most 1,024. By: condition: at most 1,024 bytes; `room`; read
    /// off.
    #[tactic(auto, using(crate::proofs::StandsLemmas::stands_after))]
    pub fn store(&mut self, tick: u64, key: Key, count: u16, stamp: Option<Stamp>, context: &[u8])
        requires { length context.now ≤ 1024 }
        ensures room { self.new.room ≡ self.old.room }
        ensures stands { (items : List Stored) → Stands self.old items →
            Stands self.new (stored tick key count stamp context.now ∷ items) }
    {
        self.put(&Item {
            tick,
            key,
            count,
            stamp,
            context,
        });
    }

    /// How many records there are.
    pub fn len(&self) -> u16
        ensures { result ≡ length self.now.rows }
    {
        self.used as u16
    }

    /// A record, from the one stored longest ago on.
    /// By: no loop; the context is lent.
    pub fn row(&self, i: u16) -> Row<'_>
        requires { i < length self.now.rows }
        ensures { plain_row result ≡ slice_index_or (reverse self.now.rows) i no_row }
    {
        self.slots[self.used - 1 - usize::from(i)].row()
    }

    fn put(&mut self, item: &Item<'_>)
        requires { length item.now.context.now ≤ 1024 }
        ensures { self.new ≡ after_storing (plain_item item.now) self.old }
    {
        match self.place_of(item.key.event) {
            Some(place) => self.add(place, item),
            None => self.begin(item),
        }
    }

    /// The place of an event's record.
    fn place_of(&self, event: EventIndex) -> Option<usize>
        ensures { result ≡ position (is_of event.0) self.now.rows }
    {
        self.slots[..self.used]
            .iter()
            .position(|slot| slot.is_of(event))
    }

    /// Adds an item to the record at a place, which is then the newest.
    fn add(&mut self, place: usize, item: &Item<'_>)
        requires place { place < length self.old.rows }
        requires context { length item.now.context.now ≤ 1024 }
        ensures { self.new ≡ after_adding (plain_item item.now) place self.old }
    {
        bring_first(&mut self.slots, place);
        self.slots[0].add(item);
    }

    /// Begins a record by an item, in a place that is free or in the oldest record's.
    fn begin(&mut self, item: &Item<'_>)
        requires { length item.now.context.now ≤ 1024 }
        ensures { self.new ≡ after_beginning (plain_item item.now) self.old }
    {
        if self.slots.is_empty() {
            return;
        }
        if self.used < self.slots.len() {
            self.used += 1;
        }
        bring_first(&mut self.slots, self.used - 1);
        self.slots[0].begin(item);
    }
}

/// Moves what is at a place before all that comes before it.
fn bring_first(slots: &mut [Slot], place: usize)
    requires { place < length slots.old }
    ensures { slots.new ≡ slice_index_or slots.old place no_row ∷ remove slots.old place }
{
    slots[..place + 1].rotate_right(1);
}
