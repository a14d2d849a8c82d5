//! One who claims positions of a ring.
ghost use Rattle.std.specs.Prelude.{◌≡◌, ◌+◌, ◌<◌, ◌≤◌, ◌^◌};
ghost use Rattle.permit_ring.specs.{false, None, Some, is_none, ℕ, marks_of, ClaimTells, claimed_at, ticket_got, IsOrdered, finishes, adds_mark, IsSeatOf, seat_memo, seat_number, seat_calls, seat_ticket, ring_seats, ring_terms};

use crate::answer::Look;
use crate::freight::Freight;
use crate::memo::Slot;
use crate::ring::{LOSSES, MARKS, PERMITS, Place, Ring};
use crate::told::{ClaimsTicket, Finishes, MarksLoss, SeesWord};
use ids_types::Ticket;
use ring_core::PermitWord;
use std::mem;

// What a claim adds to the permit word: one claim more, and one free position less.
const ONE_CLAIM: u64 = 65535;

/// One who claims positions of a ring, one at a time, from any thread.
///
/// Idle, it may claim; with a ticket, it must finish before it claims again. Contracts see what the
/// seat remembers as a `SeatMemo`, by `seat_memo`: its calls, each lost or with its ticket and note.
#[derive(Drop)]
pub struct Seat<F: Freight> {
    place: Place<F>,
    number: u8,
    calls: u64,
    held: Option<Ticket>,
}

impl Look {
    fn of(word: &PermitWord) -> Look
        ensures { (result.claimed ≡ word.now.claimed) × (result.free ≡ word.now.free) }
    {
        Look {
            claimed: word.claimed,
            free: word.free,
        }
    }
}

impl<F: Freight> Seat<F> {
    /// The seat's number, from 0.
    pub fn number(&self) -> u8
        ensures { result ≡ seat_number self.now }
    {
        self.number
    }

    /// How many calls of `claim` the seat has made.
    pub fn calls(&self) -> u64
        ensures { result ≡ seat_calls self.now }
    {
        self.calls
    }

    /// The ticket that the seat holds; `None` exactly where the seat is idle.
    pub fn held(&self) -> Option<Ticket>
        ensures { result ≡ seat_ticket self.now }
    {
        self.held
    }

    /// Whether the seat holds no ticket.
    pub fn is_idle(&self) -> bool
        ensures { result ≡ is_none (seat_ticket self.now) }
    {
        self.held.is_none()
    }

    /// Claims a position. `Err` comes only where the word that was read at a step of this call
    /// had none free, and is that word's look.
    /// Steps: one load, and one fetch_add where a position was free. By: `told` (`ClaimTells`); no loop; answer `Look`,
    /// no NoMemory; the ring by `&`, no handle that waits in its types.
    pub fn claim(&mut self, ring: &Ring<F>) -> Result<Ticket, Look>
        requires mine { IsSeatOf F.admits_offered ring.now self.old }
        requires idle { seat_ticket self.old ≡ None }
        requires few { seat_calls self.old < 2 ^ 40 }
        ensures mine { IsSeatOf F.admits_offered ring.now self.new }
        ensures told { ClaimTells (ring_seats ring.now) (seat_memo self.old) result (seat_memo self.new) }
        ensures ordered { IsOrdered (seat_memo self.new) }
        ensures held { seat_ticket self.new ≡ ticket_got result }
        ensures small { claimed_at result ≤ 2 ^ 45 }
        ensures counted { (seat_calls self.new ≡ seat_calls self.old + 1) × (seat_number self.new ≡ seat_number self.old) }
    {
        self.calls += 1;
        let words = &ring.table.shared;
        let number = words.load::<SeesWord>(&mut self.place, PERMITS);
        let seen = PermitWord::unpack(number, ring.limit);
        if seen.free == 0 {
            return Err(Look::of(&seen));
        }
        let number = words.fetch_add::<ClaimsTicket<F>>(&mut self.place, PERMITS, ONE_CLAIM);
        let word = PermitWord::unpack(number, ring.limit);
        if word.free == 0 {
            return Err(Look::of(&word));
        }
        let ticket = Ticket(word.claimed);
        self.held = Some(ticket);
        Ok(ticket)
    }

    /// Puts the value into the slot of the held ticket and marks it finished, and gives what was
    /// offered there.
    /// Steps: one exchange of the slot, and one store. By: `told` (`finishes`); no loop.
    pub fn finish(&mut self, ring: &Ring<F>, value: F::Finished) -> F::Offered
        requires mine { IsSeatOf F.admits_offered ring.now self.old }
        requires busy { is_none (seat_ticket self.old) ≡ false }
        requires admitted { F.admits_note (ring_terms ring.now) (F.note value) }
        ensures mine { IsSeatOf F.admits_offered ring.now self.new }
        ensures told { seat_memo self.new ≡ finishes (F.note value) (seat_memo self.old) }
        ensures ordered { IsOrdered (seat_memo self.new) }
        ensures held { seat_ticket self.new ≡ None }
        ensures same { (seat_calls self.new ≡ seat_calls self.old) × (seat_number self.new ≡ seat_number self.old) }
        ensures admitted { F.admits_offered (ring_terms ring.now) result }
    {
        let ticket = self.held.unwrap();
        self.held = None;
        let position = ring.position_of(ticket.0);
        let words = &ring.table.shared;
        let old = words.exchange(&mut self.place, position, Slot::Finished(value));
        words.store::<Finishes<F>>(&mut self.place, position + MARKS, ticket.0 + 1);
        let Slot::Offered(offered) = old else {
            unreachable!()
        };
        offered
    }

    /// Adds one to a loss word: kind 0 for lost events, 1 for lost contexts.
    /// Steps: one fetch_add. By: `told` (`adds_mark`); no loop.
    pub fn mark(&mut self, ring: &Ring<F>, kind: u8)
        requires mine { IsSeatOf F.admits_offered ring.now self.old }
        requires kind { kind < 2 }
        requires few { marks_of (seat_memo self.old).view kind < 2 ^ 40 }
        ensures mine { IsSeatOf F.admits_offered ring.now self.new }
        ensures told { (found : ℕ) × (seat_memo self.new ≡ adds_mark kind found (seat_memo self.old)) }
        ensures ordered { IsOrdered (seat_memo self.new) }
        ensures held { seat_ticket self.new ≡ seat_ticket self.old }
        ensures same { (seat_calls self.new ≡ seat_calls self.old) × (seat_number self.new ≡ seat_number self.old) }
    {
        ring.table
            .shared
            .fetch_add::<MarksLoss>(&mut self.place, kind as usize + LOSSES, 1);
    }

    pub(crate) fn of(place: Place<F>, number: u8) -> Seat<F>
        ensures { result ≡ record { place = place; number = number; calls = 0; held = None } }
    {
        Seat {
            place,
            number,
            calls: 0,
            held: None,
        }
    }

    // Puts another token into the seat, and gives the one that it had.
    pub(crate) fn replace_place(&mut self, place: Place<F>) -> Place<F>
        ensures place { result ≡ self.old.place }
        ensures same { self.new ≡ record self.old { place = place } }
    {
        mem::replace(&mut self.place, place)
    }

    pub(crate) fn into_place(self) -> Place<F>
        ensures { result ≡ self.place }
    {
        self.place
    }
}
