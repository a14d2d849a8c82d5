//! One who reports: a caller with its place at the report ring and at each class of context data buffers.
ghost use Rattle.std.specs.Prelude.{◌≡◌, None, Some, is_none, is_some, false, true};
ghost use Rattle.report_queue.specs.{IsCallerOf, caller_memo, finishes, item_by, queue_terms, ticket_of};
ghost use Rattle.report_api.specs.Terms.{AdmitsAct};

use crate::shared::Reports;
use buffer_classes::{ClaimSeat, CtxBuf};
use ids_types::{Act, Ticket};
use report_queue::{Queue, QueueSeat};

/// One who reports, from any one thread at a time. Its calls take no memory and wait for nobody.
///
/// Contracts see a pass by `pass_memo`: its number, its calls and what became of each, the losses that it marked, and
/// its steps at the report ring.
#[derive(Drop)]
pub struct Pass {
    pub(crate) seat: QueueSeat<Reports>,
    pub(crate) claimant: ClaimSeat,
    // The box for the next act, there between two calls.
    pub(crate) spare: Option<Box<Act<CtxBuf>>>,
}

// Puts an act into the box in hand, and that under the ticket that the seat holds. The box that lay there comes back.
#[inline(always)]
pub(crate) fn put(
    queue: &Queue<Reports>,
    seat: &mut QueueSeat<Reports>,
    spare: &mut Option<Box<Act<CtxBuf>>>,
    act: Act<CtxBuf>,
) -> Ticket
    requires mine { IsCallerOf queue.now seat.old }
    requires spare { is_some spare.old ≡ true }
    requires busy { is_none (ticket_of seat.old) ≡ false }
    requires admitted { AdmitsAct (queue_terms queue.now) act }
    ensures mine { IsCallerOf queue.now seat.new }
    ensures spare { is_some spare.new ≡ true }
    ensures ticket { ticket_of seat.old ≡ Some result }
    ensures told { caller_memo seat.new ≡ finishes (item_by (caller_memo seat.old) act) (caller_memo seat.old) }
    ensures held { ticket_of seat.new ≡ None }
{
    let mut load = spare.take().unwrap();
    *load = act;
    let (ticket, spent) = seat.fill(queue, load);
    *spare = Some(spent);
    ticket
}

impl Pass {
    ghost use Rattle.report_queue.specs.Parts.{calls_of, caller_number};

    /// How many calls the pass has made. A refusal by number is none.
    pub fn calls(&self) -> u64
        ensures { result ≡ calls_of self.now.seat }
    {
        self.seat.calls()
    }

    /// The caller's number, from 0.
    pub fn caller(&self) -> u8
        ensures { result ≡ caller_number self.now.seat }
    {
        self.seat.caller()
    }
}
