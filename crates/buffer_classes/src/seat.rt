//! One who claims context data buffers.
ghost use Rattle.std.specs.Prelude.{◌≡◌, ◌+◌, ◌-◌, ◌*◌, ◌++◌, ◌<◌, ◌≤◌, ◌^◌};
ghost use Rattle.buffer_classes.specs.{[], ℕ, length, IfErr, IfOk, some, get_elem?, ring_seats, ring_terms, seat_calls, IsBufferOf, AreSmall, Asks, AsksClass, asked, claim_with, finish_of, outcome_of, ClaimTells, HoldsSoMany, class_sizes, first_fitting, Class as ClassValue, IsClassSeat, IsClaimSeatOf, claimant_of, claims_of, log_of, memo_at, steps_of};

use crate::buffer::CtxBuf;
use crate::class::{Buffers, Class, Classes};
use crate::looks::Looks;
use permit_ring::Seat;

/// What a claim gave.
#[derive(Debug, Drop)]
pub enum Claim {
    /// A buffer, and a look for each smaller fitting class, none of which had one free.
    Got { buf: CtxBuf, skipped: Looks },
    /// A look for each fitting class, none of which had a buffer free. Where no class fits, there is no look.
    NoneFree(Looks),
}

/// One who claims buffers: a caller, by its number, with a seat at the ring of each class.
#[derive(Drop)]
pub struct ClaimSeat {
    pub(crate) seats: Vec<Seat<Buffers>>,
    pub(crate) number: u8,
    pub(crate) claims: u64,
}

impl ClaimSeat {
    /// Claims a buffer for so many bytes. The fitting classes are asked from the smallest on. A claimed buffer keeps
    /// the bytes of its last user until it is filled.
    /// Steps: the classes that fit, at most 4, until one has a buffer free: one load and at most one fetch_add each,
    /// and an exchange and a store where one has. By: `few_steps`: at most two steps at each class that fits, and
    /// one more where it gets a buffer; `steps` (`Asks`), `told` (`ClaimTells`); answer `Claim`, no NoMemory; the classes
    /// by `&`.
    pub fn claim(&mut self, classes: &Classes, len: u64) -> Claim
        requires mine { IsClaimSeatOf classes.now self.old }
        requires some { 1 ≤ len }
        requires few { claims_of self.old < 2 ^ 40 }
        ensures mine { IsClaimSeatOf classes.now self.new }
        // A buffer of the first fitting class that had one free.
        ensures told { ClaimTells (first_fitting len (class_sizes classes.now)) (class_sizes classes.now) result }
        ensures holds { HoldsSoMany len result }
        ensures small { AreSmall result }
        ensures counted { (claims_of self.new ≡ claims_of self.old + 1) × (claimant_of self.new ≡ claimant_of self.old) }

        // Each look, and the claim, is the word of a step of this call at its class.
        ensures steps { (i : ℕ) (class : ClassValue) → get_elem? classes.now.classes.items i ≡ some class
            → Asks (ring_seats class.ring) (memo_at self.old i) (asked (first_fitting len (class_sizes classes.now)) result i) (memo_at self.new i) }
        // At most two steps at each class that fits, and one more where it gets a buffer.
        ensures few_steps { steps_of self.new ≤ steps_of self.old + 2 * (length (class_sizes classes.now) - first_fitting len (class_sizes classes.now)) + finish_of result }
        ensures logs { (i : ℕ) → log_of self.new i ≡ log_of self.old i ++ asked (first_fitting len (class_sizes classes.now)) result i }
    {
        let mut looks = Looks::none();
        match self.claim_noting(classes, len, &mut looks) {
            Some(buf) => Claim::Got {
                buf,
                skipped: looks,
            },
            None => Claim::NoneFree(looks),
        }
    }

    /// Claims a buffer as `claim` does, and notes each look in a list, in which there is none yet: so a claim that gets
    /// its buffer at once moves no list.
    /// Steps: as `ClaimSeat::claim`. By: `told`, `steps` and `few_steps`, as there.
    pub fn claim_noting(&mut self, classes: &Classes, len: u64, looks: &mut Looks) -> Option<CtxBuf>
        requires mine { IsClaimSeatOf classes.now self.old }
        requires some { 1 ≤ len }
        requires none { looks.old ≡ [] }
        requires few { claims_of self.old < 2 ^ 40 }
        ensures mine { IsClaimSeatOf classes.now self.new }
        // A buffer of the first fitting class that had one free.
        ensures told { ClaimTells (first_fitting len (class_sizes classes.now)) (class_sizes classes.now) (claim_with result looks.new) }
        ensures holds { HoldsSoMany len (claim_with result looks.new) }
        ensures small { AreSmall (claim_with result looks.new) }
        ensures counted { (claims_of self.new ≡ claims_of self.old + 1) × (claimant_of self.new ≡ claimant_of self.old) }

        // Each look, and the claim, is the word of a step of this call at its class.
        ensures steps { (i : ℕ) (class : ClassValue) → get_elem? classes.now.classes.items i ≡ some class
            → Asks (ring_seats class.ring) (memo_at self.old i) (asked (first_fitting len (class_sizes classes.now)) (claim_with result looks.new) i) (memo_at self.new i) }
        // At most two steps at each class that fits, and one more where it gets a buffer.
        ensures few_steps { steps_of self.new ≤ steps_of self.old + 2 * (length (class_sizes classes.now) - first_fitting len (class_sizes classes.now)) + finish_of (claim_with result looks.new) }
        ensures logs { (i : ℕ) → log_of self.new i ≡ log_of self.old i ++ asked (first_fitting len (class_sizes classes.now)) (claim_with result looks.new) i }
    {
        self.claims += 1;
        for place in classes.first_fitting(len)..self.seats.len() {
            match ask(&mut self.seats[place], &classes.classes[place]) {
                Ok(buf) => return Some(buf),
                Err(claimed) => looks.push(claimed),
            }
        }
        None
    }
}

// Asks one class for a buffer, which then has the number of the claim that got it; or else tells how many had been
// claimed. A whole look as the other answer would move the buffer in odd pieces.
fn ask(seat: &mut Seat<Buffers>, class: &Class) -> Result<CtxBuf, u64>
    requires mine { IsClassSeat class.now seat.old }
    requires few { seat_calls seat.old < 2 ^ 40 }
    ensures did { AsksClass class.now seat.old (outcome_of result) seat.new }
    ensures buffer { IfOk result (λ buf. IsBufferOf (ring_terms class.now.ring) buf × (buf.claim ≤ 2 ^ 45)) }
    ensures small { IfErr result (λ claimed. claimed ≤ 2 ^ 45) }
{
    match seat.claim(&class.ring) {
        Ok(ticket) => {
            let mut buf = seat.finish(&class.ring, ());
            buf.set_claim(ticket.0);
            Ok(buf)
        }
        Err(look) => Err(look.claimed),
    }
}
