//! The one who gives the buffers of one class back.
ghost use Rattle.std.specs.Prelude.{◌≡◌, ◌<◌};
ghost use Rattle.buffer_classes.specs.{None, IsHeldAs, IsNextHeld, IsSeatOf, filled_of, ring_terms, seat_memo, seat_ticket, vacant_of, ended, IsBufferOf, Begins, FillsLate, Frees, IsFilledUp, IsGiverOf, Offers, Puts, ReapsAll, Takes, giver_memo, late_count};

use crate::buffer::CtxBuf;
use crate::class::Buffers;
use permit_ring::{Keeper, Ring, Seat};

/// The keeper of a class's ring, with the buffers of the class that found no vacant position. How many buffers
/// the class has is `number`.
#[derive(Drop)]
pub(crate) struct Giver {
    pub(crate) keeper: Keeper<Buffers>,
    pub(crate) late: Vec<CtxBuf>,
    pub(crate) number: u16,
}

impl Giver {
    // Reaps all that is finished, and then puts late buffers into vacant positions.
    pub(crate) fn begin(&mut self, ring: &Ring<Buffers>)
        requires mine { IsGiverOf ring.now self.old }
        ensures mine { IsGiverOf ring.now self.new }
        ensures did { Begins self.old self.new }
    {
        self.reap_all(ring);
        self.put_late(ring);
    }

    // Reaps until the next ticket is not finished, and reads no mark after that.
    fn reap_all(&mut self, ring: &Ring<Buffers>)
        requires mine { IsGiverOf ring.now self.old }
        ensures mine { IsGiverOf ring.now self.new }
        ensures did { ReapsAll self.old self.new }
    {
        loop {
            match self.keeper.reap(ring) {
                Ok(()) => {}
                Err(_unready) => return,
            }
        }
    }

    // Puts late buffers into vacant positions, while there are both.
    fn put_late(&mut self, ring: &Ring<Buffers>)
        requires mine { IsGiverOf ring.now self.old }
        ensures mine { IsGiverOf ring.now self.new }
        ensures did { FillsLate self.old self.new }
        ensures filled { IsFilledUp self.new }
    {
        while self.keeper.vacant() > 0 {
            let Some(buf) = self.late.pop() else { return };
            self.keeper.refill(ring, buf);
        }
    }

    // Puts a buffer into a vacant position, or else among the late ones. Where there is no room either, it is
    // dropped.
    pub(crate) fn put(&mut self, ring: &Ring<Buffers>, buf: CtxBuf)
        requires mine { IsGiverOf ring.now self.old }
        requires buf { IsBufferOf (ring_terms ring.now) buf }
        ensures mine { IsGiverOf ring.now self.new }
        ensures did { Puts 1 self.old self.new }
    {
        if self.keeper.vacant() > 0 {
            self.keeper.refill(ring, buf);
        } else if self.late.len() < self.number as usize {
            self.late.push_reserved(buf);
        }
    }

    // Makes all filled positions free in one step.
    pub(crate) fn offer(&mut self, ring: &Ring<Buffers>)
        requires mine { IsGiverOf ring.now self.old }
        ensures mine { IsGiverOf ring.now self.new }
        ensures did { Offers self.old self.new }
    {
        self.keeper.offer(ring);
    }

    // Takes a seat of the class back.
    pub(crate) fn take_back(&mut self, ring: &Ring<Buffers>, seat: Seat<Buffers>)
        requires mine { IsGiverOf ring.now self.old }
        requires seat { IsSeatOf IsBufferOf ring.now seat }
        requires idle { seat_ticket seat ≡ None }
        ensures mine { IsGiverOf ring.now self.new }
        ensures did { Takes seat self.old self.new }
    {
        self.keeper.welcome(ring, seat);
    }

    // Takes a seat of the class back for a while.
    pub(crate) fn hold(&mut self, ring: &Ring<Buffers>, seat: &mut Seat<Buffers>)
        requires mine { IsGiverOf ring.now self.old }
        requires seat { IsSeatOf IsBufferOf ring.now seat.old }
        requires idle { seat_ticket seat.old ≡ None }
        ensures mine { IsGiverOf ring.now self.new }
        ensures did { Takes seat.old self.old self.new }
        ensures held { IsHeldAs (ended (seat_memo seat.old)) seat.new }
    {
        self.keeper.hold(ring, seat);
    }

    // Releases the first seat of the class that is held.
    pub(crate) fn release(&mut self, ring: &Ring<Buffers>, seat: &mut Seat<Buffers>)
        requires mine { IsGiverOf ring.now self.old }
        requires held { IsNextHeld (giver_memo self.old) seat.old }
        ensures mine { IsGiverOf ring.now self.new }
        ensures seat { IsSeatOf IsBufferOf ring.now seat.new }
        ensures idle { seat_ticket seat.new ≡ None }
        ensures did { Frees seat.new self.old self.new }
    {
        self.keeper.release(ring, seat);
    }
}
