//! What holds of every ring, as the contracts of functions that do nothing.

ghost use Rattle.std.specs.Prelude.{◌≡◌, ◌+◌, ◌%◌, ◌<◌, ◌≤◌};
ghost use Rattle.ring_core.specs.{IfSome, IsFalse, opening, next, same_word, after_all, IsRing, tries_of, field_of, IsPackable};
ghost use Rattle.ring_core.specs.Machine.{Machine};

use crate::step::Step;

/// Each step leads from a ring to a ring.
#[tactic(auto, using(crate::proofs::Runs::next_keeps))]
pub fn each_step_keeps_a_ring(step: Step)
    ghost m: { Machine }
    requires { IsRing m }
    ensures { IfSome (next m step) IsRing }
{}

/// Each list of steps leads from a ring whose positions are all free to a ring.
#[tactic(auto, using(crate::proofs::Runs::runs_keep, crate::proofs::Opens::opens))]
pub fn each_run_ends_in_a_ring(n: u16, seats: u8, steps: &[Step])
    requires positions { (1 ≤ n) × (n ≤ 1024) }
    requires seats { (1 ≤ seats) × (seats ≤ 32) }
    ensures { IfSome (after_all (opening n seats) steps.now) IsRing }
{}

/// A word of a ring, and one that its keeper read or left, can be told from its number.
#[tactic(auto, using(crate::proofs::RingLaws::word_packs, crate::proofs::RingLaws::seen_packs))]
pub fn words_can_be_packed()
    ghost m: { Machine }
    requires { IsRing m }
    ensures word { IsPackable m.limit m.word }
    ensures seen { IsPackable m.limit m.seen }
{}

/// A look or a claim that finds no position free finds all that was offered claimed. So all
/// tickets but those of the last turn had been reaped and their positions given back.
pub fn none_free_means_all_claimed()
    ghost m: { Machine }
    requires ring { IsRing m }
    requires full { m.word.free ≡ 0 }
    ensures claimed { m.word.claimed ≡ m.offered }
    ensures given_back { m.word.claimed ≤ m.reaped + m.positions }
{}

/// Each try of an offer that misses finds a smaller field than the keeper's word has, and the
/// keeper has it from then on. So an offer has at most `n + seats + 1` tries.
pub fn tries_of_an_offer_are_bounded()
    ghost m: { Machine }
    requires { IsRing m }
    ensures missed { IsFalse (same_word m.word m.seen) →
        field_of m.limit m.word < field_of m.limit m.seen }
    ensures falls { field_of m.limit m.word ≤ field_of m.limit m.seen }
    ensures sum { tries_of m.word + field_of m.limit m.word ≡
        tries_of m.seen + field_of m.limit m.seen }
    ensures bounded { field_of m.limit m.seen ≤ m.positions + m.limit }
{}

/// Two tickets of one turn that stand at one position are one ticket.
#[tactic(auto, using(crate::proofs::Turns::same_position))]
pub fn one_ticket_a_position(reaped: u64, n: u64, t: u64, u: u64)
    requires first { (reaped ≤ t) × (t < reaped + n) }
    requires second { (reaped ≤ u) × (u < reaped + n) }
    requires position { t % n ≡ u % n }
    ensures { t ≡ u }
{}
