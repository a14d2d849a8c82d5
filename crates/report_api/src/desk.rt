//! Where the one who takes the reports sits.
ghost use Rattle.std.specs.Prelude.{◌≡◌, ◌<◌, [], true, is_some, length, vec_capacity, IfOk};
ghost use Rattle.buffer_classes.specs.{AllOf, AreBuffersIn, Freed, GaveBack, Welcomed, givers_of, late_of, memo_at};
ghost use Rattle.report_queue.specs.{AreAllBack, GivesBack, GoesOn, Sweeps, Takes, Welcomes, ended};
ghost use Rattle.report_api.specs.{EachSettled, IsDeskOf, desk_memo, pass_memo, IsHeldPass, IsNextPass, IsPassOf, sizes_of, AdmitsAct, AdmitsItem};

use crate::pass::Pass;
use crate::shared::{Reports, Shared};
use buffer_classes::{CtxBuf, Givers};
use ids_types::Act;
use report_queue::{Item, Taker, Unready};
use std::mem;

/// Where the one who takes the reports sits, and gives their buffers back.
///
/// Contracts see it by `desk_memo`. That has the items that were taken, the fronts that were given back to, the
/// losses that were swept, each pass that came back, and its steps at the report ring. They see it by what its givers
/// remember of each class, too.
#[derive(Drop)]
pub struct Desk {
    pub(crate) taker: Taker<Reports>,
    pub(crate) givers: Givers,
    // The box for the position of the next item that is taken, there between two calls.
    pub(crate) spare: Option<Box<Act<CtxBuf>>>,
}

// The item with its act moved out of its box, which is in hand then. It is a function of its own, so that the compiler
// clears the places of what it makes there, and not before the item is taken.
#[inline(always)]
fn unpacked(
    mut item: Item<Box<Act<CtxBuf>>>,
    spare: &mut Option<Box<Act<CtxBuf>>>,
) -> Item<Act<CtxBuf>>
    ensures item { result ≡ record { caller = item.caller; call = item.call; payload = item.payload.value } }
    ensures spare { is_some spare.new ≡ true }
{
    let payload = mem::replace(&mut *item.payload, Act::State(0));
    *spare = Some(item.payload);
    Item {
        caller: item.caller,
        call: item.call,
        payload,
    }
}

impl Desk {
    /// Sweeps the lost events and then the lost contexts, and answers how many were marked of each since they were
    /// last swept. Once all passes are back, all that they marked is swept.
    /// Steps: two swaps. By: `swept` (`Sweeps`); no loop.
    pub fn sweep(&mut self, shared: &Shared) -> (u64, u64)
        requires mine { IsDeskOf shared.now self.old }
        ensures mine { IsDeskOf shared.now self.new }
        ensures swept { Sweeps shared.now.queue self.old.taker result self.new.taker }
        ensures same { self.new.givers ≡ self.old.givers }
    {
        self.taker.sweep(&shared.queue)
    }

    /// Takes the item of the next ticket. `Err` comes exactly where the mark that was read at this call's step is
    /// not that ticket's, and then nothing is taken. Once all passes are back, it comes only where all that was
    /// accepted was taken, and from then on always.
    /// Steps: as `Taker::take`: one load, and two exchanges of the slot where an item is ready. By: `took` (`Takes`);
    /// answer `Unready`, no NoMemory.
    #[inline(always)]
    pub fn take(&mut self, shared: &Shared) -> Result<Item<Act<CtxBuf>>, Unready>
        requires mine { IsDeskOf shared.now self.old }
        ensures mine { IsDeskOf shared.now self.new }
        ensures took { Takes shared.now.queue self.old.taker (λ act. act) AdmitsAct result self.new.taker }
        ensures admitted { IfOk result (AdmitsItem shared.now.terms) }
        ensures same { self.new.givers ≡ self.old.givers }
    {
        let item = self.taker.take(&shared.queue, &mut self.spare)?;
        Ok(unpacked(item, &mut self.spare))
    }

    /// Makes the positions of all items that were taken free again, in one step, and gives the buffers of `back` to
    /// their classes, which are made free in one step each. `back` is empty then, and keeps its room.
    /// Steps: as `Taker::give_back` and then `Givers::give`: at most one load, and a try for each caller and each
    /// position of which no item was taken; and at each class, of b buffers, b + callers + 2 atomic steps. Memory: none;
    /// a buffer is let go only where as many wait as its class has. By: `places` (`GivesBack`), `gave` (`GaveBack`:
    /// `steps`).
    pub fn give_back(&mut self, shared: &Shared, back: &mut Vec<CtxBuf>)
        requires mine { IsDeskOf shared.now self.old }
        requires back { AreBuffersIn (sizes_of shared.now) back.old.items }
        ensures mine { IsDeskOf shared.now self.new }
        ensures places { GivesBack shared.now.queue self.old.taker self.new.taker }
        ensures gave { AllOf (GaveBack back.old.items) (givers_of self.old.givers) (givers_of self.new.givers) }
        ensures settled { AreAllBack (desk_memo self.old) → EachSettled self.new }
        ensures empty { back.new.items ≡ [] }
        ensures room { vec_capacity back.new ≡ vec_capacity back.old }
    {
        self.taker.give_back(&shared.queue);
        self.givers.give(&shared.classes, back);
    }

    /// How many buffers of a class wait for a free position.
    pub fn late(&self, class: u8) -> usize
        requires { class < length (givers_of self.now.givers) }
        ensures { result ≡ late_of self.now.givers class }
    {
        self.givers.late(class)
    }

    /// Takes a pass back, which makes no more calls.
    /// Steps: one load, and one for each class, at most 4. Memory: none; the pass's list is given back. By: `came`
    /// (`Welcomes`), `givers` (`Welcomed`).
    pub fn welcome(&mut self, shared: &Shared, pass: Pass)
        requires mine { IsDeskOf shared.now self.old }
        requires pass { IsPassOf shared.now pass }
        ensures mine { IsDeskOf shared.now self.new }
        ensures came { Welcomes shared.now.queue self.old.taker pass.seat self.new.taker }
        ensures givers { AllOf (Welcomed pass.claimant) (givers_of self.old.givers) (givers_of self.new.givers) }
    {
        self.taker.welcome(&shared.queue, pass.seat);
        self.givers.welcome(&shared.classes, pass.claimant);
    }

    /// Takes a pass back for a while: whoever has it keeps it, and can make no call by it until it is released.
    /// Steps: two loads, and two for each class, at most 4. By: `came` (`Welcomes`), `givers` (`Welcomed`).
    pub fn hold(&mut self, shared: &Shared, pass: &mut Pass)
        requires mine { IsDeskOf shared.now self.old }
        requires pass { IsPassOf shared.now pass.old }
        ensures mine { IsDeskOf shared.now self.new }
        ensures came { Welcomes shared.now.queue self.old.taker pass.old.seat self.new.taker }
        ensures givers { AllOf (Welcomed pass.old.claimant) (givers_of self.old.givers) (givers_of self.new.givers) }
        ensures held { IsHeldPass shared.now (ended (pass_memo pass.old)) (λ i. ended (memo_at pass.old.claimant i)) pass.new }
    {
        self.taker.hold(&shared.queue, &mut pass.seat);
        self.givers.hold(&shared.classes, &mut pass.claimant);
    }

    /// Releases the first pass that is held: it goes on with its next call, and knows how many positions were offered.
    /// Steps: one load, and one for each class, at most 4. By: `told` (`GoesOn`: `Releases`), `givers` (`Freed`).
    pub fn release(&mut self, shared: &Shared, pass: &mut Pass)
        requires mine { IsDeskOf shared.now self.old }
        requires held { IsNextPass shared.now self.old pass.old }
        ensures mine { IsDeskOf shared.now self.new }
        ensures pass { IsPassOf shared.now pass.new }
        ensures told { GoesOn shared.now.queue self.old.taker pass.new.seat self.new.taker }
        ensures givers { AllOf (Freed pass.new.claimant) (givers_of self.old.givers) (givers_of self.new.givers) }
    {
        self.taker.release(&shared.queue, &mut pass.seat);
        self.givers.release(&shared.classes, &mut pass.claimant);
    }
}
