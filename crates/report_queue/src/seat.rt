//! The queue that is shared, and one who puts items into it.
ghost use Rattle.std.specs.Prelude.{◌≡◌, ℕ, ◌+◌, ◌<◌, ◌≤◌, ◌^◌, false, None, Some, is_none};
ghost use Rattle.report_queue.specs.{ClaimTells, claimed_at, ticket_got, finishes, adds_mark, item_by, marks_made};

use crate::cargo::{Cargo, Item, Items};
use ids_types::Ticket;
use permit_ring::{Look, Ring, Seat};

/// A queue, which its callers and its taker share.
#[derive(Drop)]
pub struct Queue<P: Cargo> {
    pub(crate) ring: Ring<Items<P>>,
}

/// One who puts items into a queue: a caller, by its number.
#[derive(Drop)]
pub struct QueueSeat<P: Cargo> {
    pub(crate) seat: Seat<Items<P>>,
}

impl<P: Cargo> QueueSeat<P> {
    ghost use Rattle.report_queue.specs.Parts.{IsCallerOf, caller_memo, caller_number, calls_of, queue_seats, queue_terms, ticket_of};

    /// The caller's number, from 0.
    pub fn caller(&self) -> u8
        ensures { result ≡ caller_number self.now }
    {
        self.seat.number()
    }

    /// How many calls of `claim` the caller has made.
    pub fn calls(&self) -> u64
        ensures { result ≡ calls_of self.now }
    {
        self.seat.calls()
    }

    /// Whether the caller holds no ticket.
    pub fn is_idle(&self) -> bool
        ensures { result ≡ is_none (ticket_of self.now) }
    {
        self.seat.is_idle()
    }

    /// Claims a position. `Err` comes only where the word that was read at a step of this call
    /// had none free, and is that word's look.
    /// Steps: one load, and one fetch_add where a position was free. By: `told` (`ClaimTells`); answer `Look`, no
    /// NoMemory; the queue by `&`.
    pub fn claim(&mut self, queue: &Queue<P>) -> Result<Ticket, Look>
        requires mine { IsCallerOf queue.now self.old }
        requires idle { ticket_of self.old ≡ None }
        requires few { calls_of self.old < 2 ^ 40 }
        ensures mine { IsCallerOf queue.now self.new }
        ensures told { ClaimTells (queue_seats queue.now) (caller_memo self.old) result (caller_memo self.new) }
        ensures calls { calls_of self.new ≡ calls_of self.old + 1 }
        ensures marks { marks_made (caller_memo self.new) ≡ marks_made (caller_memo self.old) }
        ensures held { ticket_of self.new ≡ ticket_got result }
        ensures small { claimed_at result ≤ 2 ^ 45 }
    {
        self.seat.claim(&queue.ring)
    }

    /// Puts an item under the held ticket: it names this caller and this call, the one that got the
    /// ticket. Beside the ticket comes the spent load of its position.
    /// Steps: one exchange of the slot, and one store. By: `told` (`finishes`); no loop; the load is moved.
    pub fn fill(&mut self, queue: &Queue<P>, payload: P::Load) -> (Ticket, P::Load)
        requires mine { IsCallerOf queue.now self.old }
        requires busy { is_none (ticket_of self.old) ≡ false }
        requires admitted { P.admits_note (queue_terms queue.now) (P.note payload) }
        ensures mine { IsCallerOf queue.now self.new }
        ensures ticket { ticket_of self.old ≡ Some result.0 }
        ensures small { result.0.0 ≤ 2 ^ 45 }
        ensures told { caller_memo self.new ≡ finishes (item_by (caller_memo self.old) (P.note payload)) (caller_memo self.old) }
        ensures held { ticket_of self.new ≡ None }
    {
        let ticket = self.seat.held().unwrap();
        let item = Item {
            caller: self.seat.number(),
            call: self.seat.calls() - 1,
            payload,
        };
        (ticket, self.seat.finish(&queue.ring, item))
    }

    /// Marks one lost event.
    /// Steps: one fetch_add. By: `told` (`adds_mark`); no loop.
    pub fn mark_lost_event(&mut self, queue: &Queue<P>)
        requires mine { IsCallerOf queue.now self.old }
        requires few { (caller_memo self.old).view.marks0 < 2 ^ 40 }
        ensures mine { IsCallerOf queue.now self.new }
        ensures told { (found : ℕ) × (caller_memo self.new ≡ adds_mark 0 found (caller_memo self.old)) }
        ensures held { ticket_of self.new ≡ ticket_of self.old }
    {
        self.seat.mark(&queue.ring, 0);
    }

    /// Marks one lost context.
    /// Steps: one fetch_add. By: `told` (`adds_mark`); no loop.
    pub fn mark_lost_context(&mut self, queue: &Queue<P>)
        requires mine { IsCallerOf queue.now self.old }
        requires few { (caller_memo self.old).view.marks1 < 2 ^ 40 }
        ensures mine { IsCallerOf queue.now self.new }
        ensures told { (found : ℕ) × (caller_memo self.new ≡ adds_mark 1 found (caller_memo self.old)) }
        ensures held { ticket_of self.new ≡ ticket_of self.old }
    {
        self.seat.mark(&queue.ring, 1);
    }
}
