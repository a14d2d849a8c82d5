//! Reports of security events.
ghost use Rattle.std.specs.Prelude.{◌≡◌, ◌<◌, ◌^◌, ℕ, [], None, Some, is_none, is_some, false, true, length};
ghost use Rattle.report_queue.specs.{IsCallerOf, adds_mark, caller_memo, finishes, item_by, queue_terms, ticket_of};
ghost use Rattle.ids_types.specs.declared.names.Ticket.{Ticket as TicketValue};
ghost use Rattle.report_api.specs.declared.answer.Report.TheVariants.{WithoutContext};
ghost use Rattle.report_api.specs.{PutsUnder, Reports, given, IsPassAt, IsPassOf, IsReported, AdmitsAct, lost_contexts, Absent, Kept, Missing, Report as Reported};

use crate::answer::Report;
use crate::pass::{Pass, put};
use crate::shared::{Reports as Queued, Shared};
use buffer_classes::{CtxBuf, Looks};
use ids_types::{Act, Carried, EventIndex, Stamp, Ticket};
use report_queue::{Queue, QueueSeat};
use std::mem::replace;

// A report without context. It is made in a function of its own, so that the compiler clears its place there, and so are
// those below.
#[inline(always)]
fn bare(event: EventIndex, count: u16, stamp: Option<Stamp>) -> Act<CtxBuf>
    ensures { result ≡ Reported event count stamp Absent }
{
    Act::Report {
        event,
        count,
        stamp,
        context: Carried::Absent,
    }
}

// A report with its context.
#[inline(always)]
fn kept(event: EventIndex, count: u16, stamp: Option<Stamp>, buf: CtxBuf) -> Act<CtxBuf>
    ensures { result ≡ Reported event count stamp (Kept buf.class buf.claim buf) }
{
    Act::Report {
        event,
        count,
        stamp,
        context: Carried::Kept {
            class: buf.class(),
            claim: buf.claim(),
            parcel: buf,
        },
    }
}

// Puts a report whose context found no buffer, and marks the loss. Few reports come here.
#[inline(never)]
fn put_missing(
    queue: &Queue<Queued>,
    seat: &mut QueueSeat<Queued>,
    spare: &mut Option<Box<Act<CtxBuf>>>,
    event: EventIndex,
    count: u16,
    stamp: Option<Stamp>,
    looks: &mut Looks,
) -> Report
    requires mine { IsCallerOf queue.now seat.old }
    requires spare { is_some spare.old ≡ true }
    requires busy { is_none (ticket_of seat.old) ≡ false }
    requires few { lost_contexts (caller_memo seat.old) < 2 ^ 40 }
    requires admitted { AdmitsAct (queue_terms queue.now) (Reported event count stamp (Missing looks.old)) }
    ensures mine { IsCallerOf queue.now seat.new }
    ensures spare { is_some spare.new ≡ true }
    ensures reported { (ticket : TicketValue) × (result ≡ WithoutContext ticket looks.old) × (ticket_of seat.old ≡ Some ticket) }
    ensures told { (found : ℕ) × (caller_memo seat.new ≡ adds_mark 1 found
        (finishes (item_by (caller_memo seat.old) (Reported event count stamp (Missing looks.old))) (caller_memo seat.old))) }
    ensures held { ticket_of seat.new ≡ None }
{
    let act = Act::Report {
        event,
        count,
        stamp,
        context: Carried::Missing(looks.claimed()),
    };
    let ticket = put(queue, seat, spare, act);
    seat.mark_lost_context(queue);
    Report::WithoutContext(ticket, replace(looks, Looks::none()))
}

/// How many calls a pass may make.
pub(crate) const MOST_CALLS: u64 = 1 << 40;

impl Pass {
    /// Reports a security event, seen `count` times, with its context data. No bytes are no context. It makes at most
    /// 3 steps without context, and with it 4 and 2 at each class that fits, whatever the other callers do.
    /// Steps: at the report ring one load, at most one fetch_add, and one exchange and one store for the item. At the
    /// classes that fit, at most 4, as `ClaimSeat::claim`. The bytes of the context, at most 1,024. One fetch_add more
    /// where its context is lost, or instead of the item where the event is: at most 3 steps without context, and with
    /// it 4 and 2 at each class that fits. By: `Reports`: `steps` the bound, `told` (`ReportTells`) step by step,
    /// `classes` (`ReportAsks`); answer `Report`, no NoMemory; shared part by `&`, no handle that waits in its types.
    pub fn report(
        &mut self,
        shared: &Shared,
        event: EventIndex,
        count: u16,
        stamp: Option<Stamp>,
        context: &[u8],
    ) -> Report
        requires mine { IsPassOf shared.now self.old }
        ensures { Reports shared.now (given event count stamp context.now) self.old result self.new }
    {
        if !shared.terms.is_sensor(event) {
            return Report::UnknownEvent;
        }
        if count == 0 {
            return Report::ZeroCount;
        }
        if self.seat.calls() == MOST_CALLS {
            return Report::PassSpent;
        }
        match self.seat.claim(&shared.queue) {
            Ok(_) => self.put_report(shared, event, count, stamp, context),
            Err(look) => {
                self.seat.mark_lost_event(&shared.queue);
                Report::LostEvent(look)
            }
        }
    }

    /// Reports a security event, seen once, without a timestamp and without context.
    /// Steps: as `Pass::report`, and no class is asked: at most 3 steps. By: `Reports`; answer `Report`, no NoMemory.
    pub fn report_event(&mut self, shared: &Shared, event: EventIndex) -> Report
        requires mine { IsPassOf shared.now self.old }
        ensures { Reports shared.now (given event 1 None []) self.old result self.new }
    {
        self.report(shared, event, 1, None, &[])
    }

    /// Reports a security event, seen `count` times, without a timestamp and without context.
    /// Steps: as `Pass::report`, and no class is asked: at most 3 steps. By: `Reports`; answer `Report`, no NoMemory.
    pub fn report_count(&mut self, shared: &Shared, event: EventIndex, count: u16) -> Report
        requires mine { IsPassOf shared.now self.old }
        ensures { Reports shared.now (given event count None []) self.old result self.new }
    {
        self.report(shared, event, count, None, &[])
    }

    /// Reports a security event, seen once, with its context data and without a timestamp.
    /// Steps: as `Pass::report`. By: `Reports`; answer `Report`, no NoMemory.
    pub fn report_context(&mut self, shared: &Shared, event: EventIndex, context: &[u8]) -> Report
        requires mine { IsPassOf shared.now self.old }
        ensures { Reports shared.now (given event 1 None context.now) self.old result self.new }
    {
        self.report(shared, event, 1, None, context)
    }

    // Puts a report under the ticket that the pass holds.
    fn put_report(
        &mut self,
        shared: &Shared,
        event: EventIndex,
        count: u16,
        stamp: Option<Stamp>,
        context: &[u8],
    ) -> Report
        requires at { IsPassAt shared.now self.old }
        requires busy { is_none (ticket_of self.old.seat) ≡ false }
        requires reported { IsReported shared.now.terms event.0 count }
        ensures { PutsUnder shared.now (given event count stamp context.now) self.old result self.new }
    {
        if !context.is_empty() {
            return self.put_with_context(shared, event, count, stamp, context);
        }
        let act = bare(event, count, stamp);
        Report::Accepted(put(&shared.queue, &mut self.seat, &mut self.spare, act))
    }

    // The same where there is context.
    fn put_with_context(
        &mut self,
        shared: &Shared,
        event: EventIndex,
        count: u16,
        stamp: Option<Stamp>,
        context: &[u8],
    ) -> Report
        requires at { IsPassAt shared.now self.old }
        requires busy { is_none (ticket_of self.old.seat) ≡ false }
        requires reported { IsReported shared.now.terms event.0 count }
        requires some { 0 < length context.now }
        ensures { PutsUnder shared.now (given event count stamp context.now) self.old result self.new }
    {
        let mut looks = Looks::none();
        let len = context.len() as u64;
        match self.claimant.claim_noting(&shared.classes, len, &mut looks) {
            Some(mut buf) => {
                buf.fill(context);
                let act = kept(event, count, stamp, buf);
                Report::Accepted(put(&shared.queue, &mut self.seat, &mut self.spare, act))
            }
            None => {
                let (queue, seat, spare) = (&shared.queue, &mut self.seat, &mut self.spare);
                put_missing(queue, seat, spare, event, count, stamp, &mut looks)
            }
        }
    }
}
