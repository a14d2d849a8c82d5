//! What each atomic step tells its seat or the keeper. These types are for the proofs alone.
ghost use Rattle.permit_ring.specs.{saw_word, claimed_word, finished_value, marked_loss, saw_mark, read_word, tried_offer, swept_loss, on_keeper, makes, split_right, release_left, release_right, join_both, Spent};

use crate::freight::Freight;
use crate::memo::{Slot, View};
use atomic_table::{Join, Play, Split};
use std::marker::PhantomData;

/// A seat's look at the permit word.
pub struct SeesWord;

impl<O, D, T, N> Play<Slot<O, D>, View<T, N>> for SeesWord {
    ghost then = { saw_word };
}

/// A seat's claim.
pub struct ClaimsTicket<F>(PhantomData<F>);

impl<F: Freight> Play<Slot<F::Offered, F::Finished>, View<F::Terms, F::Note>> for ClaimsTicket<F> {
    ghost then = { claimed_word F.admits_offered };
}

/// A seat's finish.
pub struct Finishes<F>(PhantomData<F>);

impl<F: Freight> Play<Slot<F::Offered, F::Finished>, View<F::Terms, F::Note>> for Finishes<F> {
    ghost then = { finished_value F.note };
}

/// A seat's mark of a loss.
pub struct MarksLoss;

impl<O, D, T, N> Play<Slot<O, D>, View<T, N>> for MarksLoss {
    ghost then = { marked_loss };
}

/// The keeper's look at the mark of the next ticket.
pub struct SeesMark<F>(PhantomData<F>);

impl<F: Freight> Play<Slot<F::Offered, F::Finished>, View<F::Terms, F::Note>> for SeesMark<F> {
    ghost then = { saw_mark F.note F.admits_note };
}

/// The keeper's look at the permit word.
pub struct ReadsWord;

impl<O, D, T, N> Play<Slot<O, D>, View<T, N>> for ReadsWord {
    ghost then = { read_word };
}

/// The keeper's try to offer what it filled.
pub struct Offers;

impl<O, D, T, N> Play<Slot<O, D>, View<T, N>> for Offers {
    ghost then = { tried_offer };
}

/// The keeper's sweep of a loss word.
pub struct Sweeps;

impl<O, D, T, N> Play<Slot<O, D>, View<T, N>> for Sweeps {
    ghost then = { swept_loss };
}

/// How the keeper makes a seat, and takes one back.
pub struct Lives;

impl<T, N> Split<View<T, N>> for Lives {
    ghost left = { on_keeper makes };

    ghost right = { split_right };
}

/// What is in the place of a seat that is held: a token that knows nothing. To make it changes nothing that the keeper
/// knows.
pub struct Rests;

impl<T, N> Split<View<T, N>> for Rests {
    ghost left = { λ v. v };

    ghost right = { λ v. Spent };
}

/// How the keeper releases a seat that it holds.
pub struct GoesOn;

impl<T, N> Split<View<T, N>> for GoesOn {
    ghost left = { release_left };

    ghost right = { release_right };
}

impl<T, N> Join<View<T, N>> for Lives {
    ghost both = { join_both };

    ghost spent = { Spent };
}
