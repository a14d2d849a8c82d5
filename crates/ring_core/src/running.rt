//! Making a list of steps.

ghost use Rattle.std.specs.Prelude.{◌≡◌, ◌≤◌};
ghost use Rattle.ring_core.specs.{IfOk, HasSizes, opening, RunAnswers, IsRing};

use crate::fault::RunFault;
use crate::state::RingState;
use crate::step::{NotPossible, Step};
use std::alloc::Global;

/// Makes the steps in turn, from a ring whose positions are all free.
/// Steps: the positions, and the steps of the list up to the first that is not possible. Memory: may answer want of
/// memory (`RunFault`), only where it makes the ring. By: read off; `answer` (`RunAnswers`).
pub fn run(alloc: Global, n: u16, seats: u8, steps: &[Step]) -> Result<RingState, RunFault>
    requires positions { (1 ≤ n) × (n ≤ 1024) }
    requires seats { (1 ≤ seats) × (seats ≤ 32) }
    ensures answer { RunAnswers (opening n seats) steps.now result }
    ensures sizes { IfOk result (HasSizes n seats) }
    ensures sound { IfOk result IsRing }
{
    let mut ring = RingState::make(alloc, n, seats)?;
    for (at, step) in steps.iter().enumerate() {
        if let Err(NotPossible) = ring.step(step) {
            return Err(RunFault::NotPossible { at });
        }
    }
    Ok(ring)
}
