//! How a queue is made, with its taker and all its callers.
ghost use Rattle.std.specs.Prelude.{◌≡◌, ◌≤◌, length, IfOk};
ghost use Rattle.report_queue.specs.Making.{IsNewQueue, as_callers};

use crate::cargo::{Cargo, Items};
use crate::seat::{Queue, QueueSeat};
use crate::taker::Taker;
use ids_types::NoMemory;
use permit_ring::Seat;
use std::alloc::{AllocError, Global};

/// A queue, the one who takes from it, and its callers by number.
#[derive(Drop)]
pub struct MadeQueue<P: Cargo> {
    pub queue: Queue<P>,
    pub taker: Taker<P>,
    pub seats: Vec<QueueSeat<P>>,
}

// The callers of a ring's seats.
fn callers_of<P: Cargo>(
    alloc: Global,
    ring_seats: Vec<Seat<Items<P>>>,
) -> Result<Vec<QueueSeat<P>>, AllocError>
    ensures { IfOk result (λ v. v.items ≡ as_callers ring_seats.items) }
{
    ring_seats
        .into_iter()
        .map(|seat| QueueSeat { seat })
        .collect(alloc)
}

/// Makes a queue of `n` positions, all free, with a spent load in each, its taker and as many idle callers as are
/// asked for. It is the one call of a queue that takes memory.
/// Steps: the positions and the callers. Memory: made once. By: read off; `IsNewQueue`; no other call of the queue
/// answers NoMemory.
pub fn make<P: Cargo>(
    alloc: Global,
    n: u16,
    seats: u8,
    terms: P::Terms,
    spent: Vec<P::Load>,
) -> Result<MadeQueue<P>, NoMemory>
    requires positions { (1 ≤ n) × (n ≤ 1024) }
    requires seats { (1 ≤ seats) × (seats ≤ 32) }
    requires spent { length spent.items ≡ n }
    ensures { IfOk result (λ made. IsNewQueue n seats terms made.queue made.taker made.seats.items) }
{
    let made = permit_ring::make::<Items<P>>(alloc, n, seats, terms, spent)?;
    let seats = callers_of(alloc, made.seats)?;
    Ok(MadeQueue {
        queue: Queue { ring: made.ring },
        taker: Taker {
            keeper: made.keeper,
        },
        seats,
    })
}
