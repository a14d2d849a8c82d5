//! Those who give the buffers of all classes back.
ghost use Rattle.std.specs.Prelude.{◌≡◌, ◌<◌};
ghost use Rattle.buffer_classes.specs.{[], length, vec_capacity, AllOf, class_sizes, AreBuffersIn, AreGiversOf, Freed, GaveBack, Welcomed, givers_of, late_of, memo_at, IsClaimSeatOf, IsHeldClaimant, IsNextClaimant, ended};

use crate::buffer::CtxBuf;
use crate::class::Classes;
use crate::giver::Giver;
use crate::seat::ClaimSeat;

/// The one who gives buffers back, of all classes.
#[derive(Drop)]
pub struct Givers {
    pub(crate) givers: Vec<Giver>,
}

impl Givers {
    /// How many buffers of a class wait for a vacant position.
    pub fn late(&self, class: u8) -> usize
        requires { class < length (givers_of self.now) }
        ensures { result ≡ late_of self.now class }
    {
        self.givers[class as usize].late.len()
    }

    /// Puts the buffers of `back` into vacant positions of their classes, and makes these free in one step a
    /// class. `back` is empty then, and keeps its room. What found no vacant position before goes first. A buffer
    /// that finds none waits for the next call, and is dropped only where as many wait as the class has buffers.
    /// Steps: for each class, of b buffers: a reap for each that was finished and one more, b refills of late buffers,
    /// one load, and a try for each other position and each claimant: at most b + claimants + 2 atomic steps. For each
    /// buffer that comes one refill at most. Memory: none; a buffer is let go only where as many wait as its class has.
    /// By: `gave` (`GaveBack`: `run` has the reaps, `told` (`OffersAll`) the tries, `steps` their bound, `Accounts` the
    /// buffers).
    pub fn give(&mut self, classes: &Classes, back: &mut Vec<CtxBuf>)
        requires mine { AreGiversOf classes.now self.old }
        requires back { AreBuffersIn (class_sizes classes.now) back.old.items }
        ensures mine { AreGiversOf classes.now self.new }
        ensures gave { AllOf (GaveBack back.old.items) (givers_of self.old) (givers_of self.new) }
        ensures empty { back.new.items ≡ [] }
        ensures room { vec_capacity back.new ≡ vec_capacity back.old }
    {
        for class in 0..self.givers.len() {
            self.givers[class].begin(&classes.classes[class].ring);
        }
        while let Some(buf) = back.pop() {
            let class = buf.class() as usize;
            self.givers[class].put(&classes.classes[class].ring, buf);
        }
        for class in 0..self.givers.len() {
            self.givers[class].offer(&classes.classes[class].ring);
        }
    }

    /// Takes a claimant back, which makes no more claims.
    /// Steps: one load for each class, at most 4. Memory: none; the claimant's list is given back. By: `told`
    /// (`Welcomed`: `welcomes`).
    pub fn welcome(&mut self, classes: &Classes, mut seat: ClaimSeat)
        requires mine { AreGiversOf classes.now self.old }
        requires seat { IsClaimSeatOf classes.now seat }
        ensures mine { AreGiversOf classes.now self.new }
        ensures told { AllOf (Welcomed seat) (givers_of self.old) (givers_of self.new) }
    {
        while let Some(its) = seat.seats.pop() {
            let class = seat.seats.len();
            self.givers[class].take_back(&classes.classes[class].ring, its);
        }
    }

    /// Takes a claimant back for a while: whoever has it keeps it, and can claim nothing by it until it is released.
    /// Steps: two loads for each class, at most 4. By: `told` (`Welcomed`: `welcomes`).
    pub fn hold(&mut self, classes: &Classes, seat: &mut ClaimSeat)
        requires mine { AreGiversOf classes.now self.old }
        requires seat { IsClaimSeatOf classes.now seat.old }
        ensures mine { AreGiversOf classes.now self.new }
        ensures told { AllOf (Welcomed seat.old) (givers_of self.old) (givers_of self.new) }
        ensures held { IsHeldClaimant classes.now (λ i. ended (memo_at seat.old i)) seat.new }
        ensures same { (seat.new.number ≡ seat.old.number) × (seat.new.claims ≡ seat.old.claims) }
    {
        for class in 0..seat.seats.len() {
            self.givers[class].hold(&classes.classes[class].ring, &mut seat.seats[class]);
        }
    }

    /// Releases the first claimant that is held.
    /// Steps: one load for each class, at most 4. By: `told` (`Freed`: `Releases`).
    pub fn release(&mut self, classes: &Classes, seat: &mut ClaimSeat)
        requires mine { AreGiversOf classes.now self.old }
        requires held { IsNextClaimant classes.now (givers_of self.old) seat.old }
        ensures mine { AreGiversOf classes.now self.new }
        ensures seat { IsClaimSeatOf classes.now seat.new }
        ensures told { AllOf (Freed seat.new) (givers_of self.old) (givers_of self.new) }
        ensures same { (seat.new.number ≡ seat.old.number) × (seat.new.claims ≡ seat.old.claims) }
    {
        for class in 0..seat.seats.len() {
            self.givers[class].release(&classes.classes[class].ring, &mut seat.seats[class]);
        }
    }
}
