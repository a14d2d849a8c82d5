//! What a ring carries, and the rule that each of its steps keeps.
ghost use Rattle.permit_ring.specs.Rule.{Runs, first_view};

use crate::memo::{Key, Slot, View};
use atomic_table::TableRule;
use std::marker::PhantomData;

/// What the slots of a ring hold.
///
/// A slot holds an `Offered` value while its position is free, and a `Finished` one from the end of
/// its claim until it is reaped. Each finished value has a note: plain data, which the ring's
/// history keeps, and of which no value is made. The terms are fixed when the ring is made, and say
/// which offered values and which notes are admitted.
pub trait Freight {
    type Offered: Send + Drop;

    type Finished: Send + Drop;

    type Terms: Copy + Send + Sync;

    type Note;

    ghost note: { Self.Finished → Self.Note };

    ghost admits_offered: { Self.Terms → Self.Offered → Type 0 };

    ghost admits_note: { Self.Terms → Self.Note → Type 0 };
}

/// The rule of a running ring. It has no values.
pub struct Running<F>(PhantomData<F>);

impl<F: Freight> TableRule<Slot<F::Offered, F::Finished>, View<F::Terms, F::Note>, Key<F::Terms>>
    for Running<F> {
    ghost holds = { Runs F.note F.admits_offered F.admits_note };

    ghost first = { first_view };
}
