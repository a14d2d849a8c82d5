//! What the items of a queue carry.

use permit_ring::Freight;
use std::marker::PhantomData;

/// What an item carries.
///
/// Each load has a note: plain data, which the queue's history keeps, and of which no value is
/// made. The terms are fixed when the queue is made, and say which notes are admitted. A free position
/// holds a spent load, of which nothing is said: whoever puts a load gets it, and whoever takes an
/// item gives one.
pub trait Cargo {
    type Load: Send + Drop;

    type Terms: Copy + Send + Sync;

    type Note;

    ghost note: { Self.Load → Self.Note };

    ghost admits_note: { Self.Terms → Self.Note → Type 0 };
}

/// A load with the caller who put it, at most 31, and the number of its call, from 0.
#[derive(Drop)]
pub struct Item<L> {
    pub caller: u8,
    pub call: u64,
    pub payload: L,
}

/// What the ring of a queue carries: a spent load while a position is free, and then an item. It has
/// no values.
pub struct Items<P> {
    cargo: PhantomData<P>,
}

impl<P: Cargo> Freight for Items<P> {
    ghost use Rattle.report_queue.specs.Items.{item_note, admits_all, admits_item};

    type Offered = P::Load;

    type Finished = Item<P::Load>;

    type Terms = P::Terms;

    type Note = Item<P::Note>;

    ghost note = { item_note P.note };

    ghost admits_offered = { admits_all };

    ghost admits_note = { admits_item P.admits_note };
}
