//! The one who takes the items.
ghost use Rattle.std.specs.Prelude.{◌≡◌, None, is_some, true, OnOk, OnErr};
ghost use Rattle.report_queue.specs.{GivesBack, GoesOn, Sweeps, Takes, Welcomes, ended};

use crate::cargo::{Cargo, Item, Items};
use crate::seat::{Queue, QueueSeat};
use permit_ring::{Keeper, Unready};

/// The one who takes the items of a queue and gives their positions back.
#[derive(Drop)]
pub struct Taker<P: Cargo> {
    pub(crate) keeper: Keeper<Items<P>>,
}

impl<P: Cargo> Taker<P> {
    ghost use Rattle.report_queue.specs.Parts.{IsCallerOf, IsHeldCaller, IsNextCaller, IsTakerOf, caller_memo, taker_memo, ticket_of};

    /// Takes the item of the next ticket, and leaves a spent load in its place. `Err` comes exactly where
    /// the mark that was read at this call's step is not that ticket's, and then nothing is taken. Once all
    /// callers are back, it comes only where all that was put was taken, and from then on always.
    /// Steps: one load, and two exchanges of the slot where the mark is the next ticket's; beside them the hand is
    /// turned as by `Keeper::refill`. By: `Takes` (`told`: `ReapTells`; `few`: at most positions takes between two
    /// `give_back`); answer `Unready`, no NoMemory.
    pub fn take(
        &mut self,
        queue: &Queue<P>,
        spent: &mut Option<P::Load>,
    ) -> Result<Item<P::Load>, Unready>
        requires mine { IsTakerOf queue.now self.old }
        requires spent { is_some spent.old ≡ true }
        ensures took { Takes queue.now self.old P.note P.admits_note result self.new }
        ensures left { OnOk result (spent.new ≡ None) }
        ensures kept { OnErr result (spent.new ≡ spent.old) }
    {
        match self.keeper.reap(&queue.ring) {
            Ok(item) => {
                self.keeper.refill(&queue.ring, spent.take().unwrap());
                Ok(item)
            }
            Err(unready) => Err(unready),
        }
    }

    /// Sweeps the lost events and then the lost contexts, and answers how many were marked of each
    /// since they were last swept. Once all callers are back, all that they marked is swept.
    /// Steps: two swaps. By: `Sweeps` (`told`); no loop.
    pub fn sweep(&mut self, queue: &Queue<P>) -> (u64, u64)
        requires mine { IsTakerOf queue.now self.old }
        ensures { Sweeps queue.now self.old result self.new }
    {
        let events = self.keeper.sweep(&queue.ring, 0);
        let contexts = self.keeper.sweep(&queue.ring, 1);
        (events, contexts)
    }

    /// Makes the positions of all items that were taken free again, in one step. Where none was
    /// taken it makes no step.
    /// Steps: none where nothing was taken; else one load, and at most as many tries of one compare-exchange each as
    /// there are callers and positions of which no item was taken. By: `GivesBack` (`told`: `OffersAll`).
    pub fn give_back(&mut self, queue: &Queue<P>)
        requires mine { IsTakerOf queue.now self.old }
        ensures { GivesBack queue.now self.old self.new }
    {
        self.keeper.offer(&queue.ring);
    }

    /// Takes a caller back, which makes no more calls.
    /// Steps: one load. By: `Welcomes` (`told`); no loop.
    pub fn welcome(&mut self, queue: &Queue<P>, seat: QueueSeat<P>)
        requires mine { IsTakerOf queue.now self.old }
        requires seat { IsCallerOf queue.now seat }
        requires idle { ticket_of seat ≡ None }
        ensures { Welcomes queue.now self.old seat self.new }
    {
        self.keeper.welcome(&queue.ring, seat.seat);
    }

    /// Takes a caller back for a while: whoever has it keeps it, and can do nothing by it until it is released.
    /// Steps: two loads. By: `told` (`Welcomes`); no loop.
    pub fn hold(&mut self, queue: &Queue<P>, seat: &mut QueueSeat<P>)
        requires mine { IsTakerOf queue.now self.old }
        requires seat { IsCallerOf queue.now seat.old }
        requires idle { ticket_of seat.old ≡ None }
        ensures told { Welcomes queue.now self.old seat.old self.new }
        ensures held { IsHeldCaller (ended (caller_memo seat.old)) seat.new }
    {
        self.keeper.hold(&queue.ring, &mut seat.seat);
    }

    /// Releases the first caller that is held: it goes on with its next call, and knows how many positions were offered.
    /// Steps: one load. By: `GoesOn` (`told`: `Releases`); no loop.
    pub fn release(&mut self, queue: &Queue<P>, seat: &mut QueueSeat<P>)
        requires mine { IsTakerOf queue.now self.old }
        requires held { IsNextCaller (taker_memo self.old) seat.old }
        ensures { GoesOn queue.now self.old seat.new self.new }
    {
        self.keeper.release(&queue.ring, &mut seat.seat);
    }
}
