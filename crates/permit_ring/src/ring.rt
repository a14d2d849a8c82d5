//! The ring that threads share, and its positions.

ghost use Rattle.std.specs.Prelude.{◌≡◌, ◌+◌, ◌%◌, ◌<◌};
ghost use Rattle.permit_ring.specs.{all_free as all_free_word, IsSized};

use crate::freight::{Freight, Running};
use crate::memo::{Key, Slot, View};
use atomic_table::{Seat as Token, Table};
use ring_core::PermitWord;
use std::alloc::Global;

// The words of a ring: the permit word, two loss words, and the mark of each position.
pub(crate) const PERMITS: usize = 0;

pub(crate) const LOSSES: usize = 1;

pub(crate) const MARKS: usize = 3;

/// The token of a seat or of the keeper at the table of a ring.
pub(crate) type Place<F> = Token<
    Slot<<F as Freight>::Offered, <F as Freight>::Finished>,
    View<<F as Freight>::Terms, <F as Freight>::Note>,
>;

/// A ring of positions over atomic words, which threads share.
#[derive(Drop)]
pub struct Ring<F: Freight> {
    pub(crate) table: Table<
        Slot<F::Offered, F::Finished>,
        View<F::Terms, F::Note>,
        Key<F::Terms>,
        Running<F>,
        Global,
    >,
    pub(crate) positions: u16,
    pub(crate) limit: u8,
}

impl<F: Freight> Ring<F> {
    // A ticket's position. Where their number is a power of two, it is told without a division.
    pub(crate) fn position_of(&self, ticket: u64) -> usize
        requires { IsSized self.now }
        ensures { result ≡ ticket % self.now.positions }
    {
        let n = self.positions as u64;
        let position = if n.is_power_of_two() {
            ticket & (n - 1)
        } else {
            ticket % n
        };
        position as usize
    }

    /// The position after this one, round the ring.
    pub(crate) fn after(&self, position: u16) -> u16
        requires ring { IsSized self.now }
        requires below { position < self.now.positions }
        ensures { result ≡ (position + 1) % self.now.positions }
    {
        if position + 1 < self.positions {
            position + 1
        } else {
            0
        }
    }
}

/// The permit word of a ring whose positions are all free.
pub(crate) fn all_free(positions: u16) -> PermitWord
    ensures { result ≡ all_free_word positions }
{
    PermitWord {
        claimed: 0,
        free: positions,
        over: 0,
    }
}
