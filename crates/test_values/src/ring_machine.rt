//! Runs of the ring's machine, worked out by hand: a ring of one position.

ghost use Rattle.std.specs.Prelude.{◌≤◌};

use ring_core::Step::{Claim, Finish, Look, Mark, Offer, Read, See, Split, Sweep};
use ring_core::{PermitWord, RunFault, Step, run};
use std::alloc::Global;

/// A ring's packed word, the numbers of that word, and how much its keeper offered and reaped.
type Shown = (u64, PermitWord, u64, u64);

/// What a ring with so many seats shows after the steps.
#[tactic(auto, using(ring_core::proofs::RingLaws::word_packs))]
fn shown_after(alloc: Global, seats: u8, steps: &[Step]) -> Result<Shown, RunFault>
    requires { (1 ≤ seats) × (seats ≤ 32) }
{
    let ring = run(alloc, 1, seats, steps)?;
    let word = ring.word();
    Ok((word.pack(seats), word, ring.offered(), ring.reaped()))
}

/// The word of a ring with so many claimed, free and claimed in vain.
const fn word(claimed: u64, free: u16, over: u16) -> PermitWord {
    PermitWord {
        claimed,
        free,
        over,
    }
}

/// One seat in turn with the keeper, whose first offer has an old word.
#[test]
fn steps_of_a_seat_and_the_keeper_lead_to_states(rt: HostRuntime) {
    let steps = [Look(0), Claim(0), Finish(0), See, Offer(1), Offer(1)];
    for (steps, shown) in [
        (&steps[..4], (65537, word(1, 0, 0), 1, 1)),
        (&steps[..5], (65537, word(1, 0, 0), 1, 1)),
        (&steps[..], (65538, word(1, 1, 0), 2, 1)),
    ] {
        assert_eq!(rt; shown_after(rt.alloc(), 1, steps), Ok(shown));
    }
    let fault = run(rt.alloc(), 1, 1, &[Look(0), Claim(0), Look(0), See]).err();
    assert_eq!(rt; fault, Some(RunFault::NotPossible { at: 2 }));
}

/// Two seats, of which the second claims in vain.
#[test]
fn steps_of_two_seats_lead_to_states(rt: HostRuntime) {
    let steps = [
        Split,
        Look(0),
        Look(1),
        Claim(0),
        Claim(1),
        Finish(0),
        See,
        Read,
        Offer(1),
    ];
    for (steps, shown) in [
        (&steps[..5], (131073, word(1, 0, 1), 1, 0)),
        (&steps[..], (65539, word(1, 1, 0), 2, 1)),
    ] {
        assert_eq!(rt; shown_after(rt.alloc(), 2, steps), Ok(shown));
    }
}

#[test]
fn a_sweep_counts_the_marks(rt: HostRuntime) -> Result<(), RunFault> {
    let ring = run(rt.alloc(), 1, 1, &[Mark(0, 0), Mark(0, 0), Sweep(0)])?;
    assert_eq!(rt; (ring.loss(0), ring.swept(0)), (0, 2));
    Ok(())
}
