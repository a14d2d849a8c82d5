//! The one who takes what was finished and offers positions again.
ghost use Rattle.std.specs.Prelude.{◌≡◌, ◌≢◌, ◌+◌, ◌-◌, ◌%◌, ◌^◌, ◌<◌, ◌≤◌, ◌++◌};
ghost use Rattle.permit_ring.specs.{ℕ, IsTrue, IsFalse, None, length, take, drop, sum, IfOk, IfErr, all_free as all_free_word, field_of, ReapTells, TriesTell, OfferTells, vacant_after, AreAllBack, IsAllReaped, IsSettled, AreAllSwept, swept_of, Empty, saw_mark, reads, offers_all, misses, sweeps, welcomes, ended, Releases, step, none, IsHeldAs, IsNextHeld, IsKeeperOf, IsSeatOf, keeper_memo, seat_memo, seat_ticket, vacant_of, filled_of, ring_positions, ring_seats, ring_terms};

use crate::answer::Unready;
use crate::freight::Freight;
use crate::memo::Slot;
use crate::ring::{LOSSES, MARKS, PERMITS, Place, Ring, all_free};
use crate::seat::Seat;
use crate::told::{GoesOn, Lives, Offers, ReadsWord, Rests, SeesMark, Sweeps};
use atomic_table::Seat as Token;
use ring_core::PermitWord;

/// The one who takes what was finished, in the order of its tickets, and offers positions again.
///
/// A reaped position is vacant until it is refilled, and free for claims again from the next offer
/// on. Contracts see what the keeper remembers as a `KeeperMemo`, by `keeper_memo`.
#[derive(Drop)]
pub struct Keeper<F: Freight> {
    place: Place<F>,
    reaped: u64,
    seen: PermitWord,
    // The two counts stand apart: side by side they were changed by one wide access, which waits for
    // the narrow one before it.
    filled: u16,
    // The position of the next ticket.
    next: u16,
    vacant: u16,
    // The position of the first reaped one that is not filled.
    vacancy: u16,
}

impl<F: Freight> Keeper<F> {
    // The keeper of a ring whose positions are all free.
    pub(crate) fn of(place: Place<F>, positions: u16) -> Keeper<F>
        ensures { result ≡ record { place = place; reaped = 0; seen = all_free_word positions; filled = 0; vacant = 0; next = 0; vacancy = 0 } }
    {
        Keeper {
            place,
            reaped: 0,
            seen: all_free(positions),
            filled: 0,
            vacant: 0,
            next: 0,
            vacancy: 0,
        }
    }

    /// How many reaped positions are not filled again.
    pub fn vacant(&self) -> u16
        ensures { result ≡ vacant_of self.now }
    {
        self.vacant
    }

    /// Takes the value of the next ticket. `Err` comes exactly where the mark that was read at this
    /// call's step is not that ticket's, and then nothing is taken. Once all seats are back and all
    /// that was claimed was reaped, it comes always.
    /// Steps: one load, and one exchange of a slot where the mark is the next ticket's. By: `told` (`ReapTells`); no
    /// loop; answer `Unready`, no NoMemory.
    pub fn reap(&mut self, ring: &Ring<F>) -> Result<F::Finished, Unready>
        requires mine { IsKeeperOf F.admits_offered ring.now self.old }
        ensures mine { IsKeeperOf F.admits_offered ring.now self.new }
        ensures told { ReapTells F.note (keeper_memo self.old) result (keeper_memo self.new) }
        ensures admitted { IfOk result (λ value. F.admits_note (ring_terms ring.now) (F.note value)) }
        ensures counts { (vacant_of self.new ≡ vacant_after (vacant_of self.old) result) × (filled_of self.new ≡ filled_of self.old) }
        ensures within { (vacant_of self.new + filled_of self.new ≤ ring_positions ring.now) × (length (keeper_memo self.new).notes ≤ 2 ^ 45) }
        ensures over { IfOk result (λ _. AreAllBack (keeper_memo self.old) → ¬ IsAllReaped (keeper_memo self.old)) }
        ensures settled { IfErr result (λ _. AreAllBack (keeper_memo self.old) → IsSettled (keeper_memo self.new)) }
    {
        let position = self.next as usize;
        let mark = self.read_mark(ring);
        if mark != self.reaped + 1 {
            return Err(Unready { mark });
        }
        let words = &ring.table.shared;
        let old = words.exchange(&mut self.place, position, Slot::Empty);
        let Slot::Finished(value) = old else {
            unreachable!()
        };
        self.place.turn();
        self.reaped += 1;
        self.vacant += 1;
        self.next = ring.after(self.next);
        Ok(value)
    }

    // Reads the mark of the next ticket. It is not inlined: a load in a function of its own does not stop the compiler
    // from leaving out copies of items that stand around it.
    #[inline(never)]
    fn read_mark(&mut self, ring: &Ring<F>) -> u64
        requires mine { IsKeeperOf F.admits_offered ring.now self.old }
        ensures saw { saw_mark F.note F.admits_note (step ring.now.table.shared.table_id.slots (self.old.next + 3) 0 0 none) self.old.place.me result self.new.place.me }
        ensures place { (self.new.place.table_id ≡ self.old.place.table_id) × (self.new.place.id ≡ self.old.place.id) }
        ensures same { self.new ≡ record self.old { place = self.new.place } }
    {
        ring.table
            .shared
            .load::<SeesMark<F>>(&mut self.place, self.next as usize + MARKS)
    }

    /// Puts a value into the first reaped position that is not filled. In hand the filled slots are
    /// turned after the vacant ones and back, which costs nothing: a token has no bytes.
    /// Steps: no step on the ring; one slot in hand is written, and the hand is turned once round, which leaves no
    /// instruction (docs/DECISIONS.md). By: `told`: the memo is the same, so no step; `counts`.
    pub fn refill(&mut self, ring: &Ring<F>, value: F::Offered)
        requires mine { IsKeeperOf F.admits_offered ring.now self.old }
        requires vacant { 0 < vacant_of self.old }
        requires admitted { F.admits_offered (ring_terms ring.now) value }
        ensures mine { IsKeeperOf F.admits_offered ring.now self.new }
        ensures told { keeper_memo self.new ≡ keeper_memo self.old }
        ensures counts { (vacant_of self.new + 1 ≡ vacant_of self.old) × (filled_of self.new ≡ filled_of self.old + 1) }
    {
        turn_hand(&mut self.place, self.filled);
        let position = self.vacancy as usize;
        let old = ring
            .table
            .shared
            .exchange(&mut self.place, position, Slot::Offered(value));
        let Slot::Empty = old else { unreachable!() };
        turn_hand(&mut self.place, self.vacant);
        self.filled += 1;
        self.vacant -= 1;
        self.vacancy = ring.after(self.vacancy);
    }

    /// Makes all refilled positions free in one step, and answers how many steps it tried: 0 where
    /// none was refilled, and else the last one succeeded. Before the first it looks at the permit
    /// word; each other one found that a seat had claimed since the word that the keeper knew.
    /// Steps: none where nothing was refilled; else one load, and at most as many tries of one compare-exchange each as
    /// there are seats and positions that are not in hand. By: clauses `bound`, `none`, `told` (`OfferTells`); the ring
    /// by `&`.
    pub fn offer(&mut self, ring: &Ring<F>) -> u16
        requires mine { IsKeeperOf F.admits_offered ring.now self.old }
        ensures mine { IsKeeperOf F.admits_offered ring.now self.new }
        ensures none { filled_of self.old ≡ 0 → (result ≡ 0) × (keeper_memo self.new ≡ keeper_memo self.old) }
        ensures told { 0 < filled_of self.old → OfferTells (ring_seats ring.now) (filled_of self.old) (keeper_memo self.old) result (keeper_memo self.new) }
        ensures bound { result + filled_of self.old + vacant_of self.old ≤ ring_positions ring.now + ring_seats ring.now }
        ensures counts { (vacant_of self.new ≡ vacant_of self.old) × (filled_of self.new ≡ 0) }
    {
        if self.filled == 0 {
            return 0;
        }
        self.look(ring);
        self.free_filled(ring)
    }

    // Looks at the permit word, which the keeper knows from then on.
    fn look(&mut self, ring: &Ring<F>)
        requires mine { IsKeeperOf F.admits_offered ring.now self.old }
        ensures mine { IsKeeperOf F.admits_offered ring.now self.new }
        ensures told { (word : PermitWord) × (keeper_memo self.new ≡ reads (ring_seats ring.now) word (keeper_memo self.old)) }
        ensures bound { field_of (ring_seats ring.now) (keeper_memo self.new).seen + filled_of self.old + vacant_of self.old ≤ ring_positions ring.now + ring_seats ring.now }
        ensures counts { (vacant_of self.new ≡ vacant_of self.old) × (filled_of self.new ≡ filled_of self.old) }
    {
        let number = ring
            .table
            .shared
            .load::<ReadsWord>(&mut self.place, PERMITS);
        self.seen = PermitWord::unpack(number, ring.limit);
    }

    // Tries to offer what was refilled until it succeeds, and answers how often it tried. Each try that misses finds a
    // smaller field, and none is 0.
    fn free_filled(&mut self, ring: &Ring<F>) -> u16
        requires mine { IsKeeperOf F.admits_offered ring.now self.old }
        requires some { 0 < filled_of self.old }
        ensures mine { IsKeeperOf F.admits_offered ring.now self.new }
        ensures told { TriesTell (ring_seats ring.now) (filled_of self.old) (keeper_memo self.old) result (keeper_memo self.new) }
        ensures bound { result ≤ field_of (ring_seats ring.now) (keeper_memo self.old).seen }
        ensures counts { (vacant_of self.new ≡ vacant_of self.old) × (filled_of self.new ≡ 0) }
    {
        let mut tries = 1;
        while !self.try_offer(ring) {
            tries += 1;
        }
        tries
    }

    // One try to offer what was refilled: whether the permit word was the one that the keeper knew.
    // Else it knows the word that was found.
    fn try_offer(&mut self, ring: &Ring<F>) -> bool
        requires mine { IsKeeperOf F.admits_offered ring.now self.old }
        requires some { 0 < filled_of self.old }
        ensures mine { IsKeeperOf F.admits_offered ring.now self.new }
        ensures hit { IsTrue result → (keeper_memo self.new ≡ offers_all (ring_seats ring.now) (filled_of self.old) (keeper_memo self.old)) × (filled_of self.new ≡ 0) }
        ensures missed { IsFalse result → (keeper_memo self.new ≡ misses (ring_seats ring.now) (filled_of self.old) (keeper_memo self.new).seen (keeper_memo self.old)) × (filled_of self.new ≡ filled_of self.old)
            × (field_of (ring_seats ring.now) (keeper_memo self.new).seen < field_of (ring_seats ring.now) (keeper_memo self.old).seen) }
        ensures vacant { vacant_of self.new ≡ vacant_of self.old }
    {
        let offered = PermitWord {
            claimed: self.seen.claimed,
            free: self.seen.free + self.filled,
            over: 0,
        };
        let old = self.seen.pack(ring.limit);
        let new = offered.pack(ring.limit);
        let found = ring
            .table
            .shared
            .compare_exchange::<Offers>(&mut self.place, PERMITS, old, new);
        if found != old {
            self.seen = PermitWord::unpack(found, ring.limit);
            return false;
        }
        self.seen = offered;
        self.filled = 0;
        true
    }

    /// Sweeps a loss word, 0 for lost events and 1 for lost contexts, and answers what it had.
    /// Steps: one swap. By: `told` (`sweeps`); no loop.
    pub fn sweep(&mut self, ring: &Ring<F>, kind: u8) -> u64
        requires mine { IsKeeperOf F.admits_offered ring.now self.old }
        requires kind { kind < 2 }
        ensures mine { IsKeeperOf F.admits_offered ring.now self.new }
        ensures told { keeper_memo self.new ≡ sweeps kind result (keeper_memo self.old) }
        ensures counts { (vacant_of self.new ≡ vacant_of self.old) × (filled_of self.new ≡ filled_of self.old) }
        ensures bound { sum (swept_of kind (keeper_memo self.new)) ≤ 2 ^ 45 }
        ensures swept { AreAllBack (keeper_memo self.old) → AreAllSwept kind (keeper_memo self.new) }
    {
        let words = &ring.table.shared;
        words.swap::<Sweeps>(&mut self.place, kind as usize + LOSSES, 0)
    }

    /// Takes a seat back, which makes no more calls. Once all seats are back, `reap` answers `Ok`
    /// exactly while fewer tickets were reaped than claimed.
    /// Steps: one load. By: `told` (`welcomes`); no loop.
    pub fn welcome(&mut self, ring: &Ring<F>, seat: Seat<F>)
        requires mine { IsKeeperOf F.admits_offered ring.now self.old }
        requires seat { IsSeatOf F.admits_offered ring.now seat }
        requires idle { seat_ticket seat ≡ None }
        ensures mine { IsKeeperOf F.admits_offered ring.now self.new }
        ensures told { keeper_memo self.new ≡ welcomes (seat_memo seat) (keeper_memo self.old) }
        ensures counts { (vacant_of self.new ≡ vacant_of self.old) × (filled_of self.new ≡ filled_of self.old) }
    {
        let words = &ring.table.shared;
        words.join_seat::<Lives>(&mut self.place, seat.into_place());
    }

    /// Takes a seat back for a while. Whoever has it keeps it, and can do nothing by it until it is released.
    /// Steps: two loads. By: `told` (`welcomes`); no loop.
    pub fn hold(&mut self, ring: &Ring<F>, seat: &mut Seat<F>)
        requires mine { IsKeeperOf F.admits_offered ring.now self.old }
        requires seat { IsSeatOf F.admits_offered ring.now seat.old }
        requires idle { seat_ticket seat.old ≡ None }
        ensures mine { IsKeeperOf F.admits_offered ring.now self.new }
        ensures held { IsHeldAs (ended (seat_memo seat.old)) seat.new }
        ensures told { keeper_memo self.new ≡ welcomes (seat_memo seat.old) (keeper_memo self.old) }
        ensures counts { (vacant_of self.new ≡ vacant_of self.old) × (filled_of self.new ≡ filled_of self.old) }
    {
        let words = &ring.table.shared;
        let blank = words.split_seat::<Rests>(&mut self.place);
        let place = seat.replace_place(blank);
        words.join_seat::<Lives>(&mut self.place, place);
    }

    /// Releases the first seat that is held: it goes on with its next call, and knows how many positions were offered.
    /// Steps: one load. By: `told` (`Releases`); no loop.
    pub fn release(&mut self, ring: &Ring<F>, seat: &mut Seat<F>)
        requires mine { IsKeeperOf F.admits_offered ring.now self.old }
        requires held { IsNextHeld (keeper_memo self.old) seat.old }
        ensures mine { IsKeeperOf F.admits_offered ring.now self.new }
        ensures seat { IsSeatOf F.admits_offered ring.now seat.new }
        ensures idle { seat_ticket seat.new ≡ None }
        ensures told { Releases (keeper_memo self.old) (keeper_memo self.new) (seat_memo seat.new) }
        ensures counts { (vacant_of self.new ≡ vacant_of self.old) × (filled_of self.new ≡ filled_of self.old) }
    {
        let place = ring.table.shared.split_seat::<GoesOn>(&mut self.place);
        seat.replace_place(place);
    }
}

// Turns the first slots in hand after the others. Nothing of it is left when it runs.
fn turn_hand<S, V>(place: &mut Token<S, V>, count: u16)
    requires { count ≤ length place.old.me.1 }
    ensures same { (place.new.table_id ≡ place.old.table_id) × (place.new.id ≡ place.old.id) }
    ensures turned { place.new.me ≡ (place.old.me.0, drop count place.old.me.1 ++ take count place.old.me.1) }
{
    for _ in 0..count {
        place.turn();
    }
}
