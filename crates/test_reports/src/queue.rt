//! What two callers and the taker of a queue answer, one step after another.
ghost use Rattle.std.specs.Prelude.{◌≡◌, ◌+◌, ◌<◌, All, IfSome};
ghost use Rattle.report_queue.specs.{IsUnused, IsCallerOf, IsIdle, IsTakerOf, calls_of};

use report_queue::{Cargo, MadeQueue, Queue, QueueSeat, Taker, make};
use std::test::*;

// Items that carry a number, each of which is admitted.
struct Numbers;

impl Cargo for Numbers {
    type Load = u64;

    type Terms = ();

    type Note = u64;

    ghost note = { λ x. x };

    ghost admits_note = { λ _ _. Unit {0} };
}

/// What a step answers. It is a ticket, or that the caller holds none. It is how many claims a look showed, and how
/// many free positions. It is an item by its caller, its call and its number, or the mark of the next position, whose
/// item is not ready.
#[derive(Clone, Copy, PartialEq)]
enum Told {
    Got(u64),
    Idle,
    Saw(u64, u16),
    Took(u8, u64, u64),
    Unready(u64),
}

// Claims a position.
fn claim(queue: &Queue<Numbers>, seat: &mut QueueSeat<Numbers>) -> Told
    requires { IsUnused queue.now seat.old }
    ensures { IsCallerOf queue.now seat.new }
{
    match seat.claim(queue) {
        Ok(ticket) => Told::Got(ticket.0),
        Err(look) => Told::Saw(look.claimed, look.free),
    }
}

// The last caller of a list of those that made no call.
fn last_of(
    queue: &Queue<Numbers>,
    seats: &mut Vec<QueueSeat<Numbers>>,
) -> Option<QueueSeat<Numbers>>
    requires { All (IsUnused queue.now) seats.old.items }
    ensures rest { All (IsUnused queue.now) seats.new.items }
    ensures last { IfSome result (IsUnused queue.now) }
{
    seats.pop()
}

// Claims a position and fills it.
fn put(queue: &Queue<Numbers>, seat: &mut QueueSeat<Numbers>, payload: u64) -> Told
    requires seat { IsIdle queue.now seat.old × (calls_of seat.old < 1000) }
    ensures seat { IsIdle queue.now seat.new × (calls_of seat.new ≡ calls_of seat.old + 1) }
{
    match seat.claim(queue) {
        Ok(_) => Told::Got(seat.fill(queue, payload).0.0),
        Err(look) => Told::Saw(look.claimed, look.free),
    }
}

// Fills the position that the caller claimed.
fn fill(queue: &Queue<Numbers>, seat: &mut QueueSeat<Numbers>, payload: u64) -> Told
    requires { IsCallerOf queue.now seat.old }
    ensures { IsCallerOf queue.now seat.new }
{
    if seat.is_idle() {
        return Told::Idle;
    }
    Told::Got(seat.fill(queue, payload).0.0)
}

// Takes the next item.
fn take(queue: &Queue<Numbers>, taker: &mut Taker<Numbers>) -> Told
    requires { IsTakerOf queue.now taker.old }
    ensures { IsTakerOf queue.now taker.new }
{
    match taker.take(queue, &mut Some(0)) {
        Ok(item) => Told::Took(item.caller, item.call, item.payload),
        Err(unready) => Told::Unready(unready.mark),
    }
}

#[test]
fn a_stalled_caller_holds_the_items_behind_it(rt: HostRuntime) -> Result<(), Fail> {
    let room = Vec::from_elem(rt.alloc(), 0, 4)?;
    let MadeQueue {
        queue,
        mut taker,
        mut seats,
    } = make::<Numbers>(rt.alloc(), 4, 2, (), room)?;
    let mut second = last_of(&queue, &mut seats).ok_or("two callers")?;
    let mut first = last_of(&queue, &mut seats).ok_or("two callers")?;
    assert!(rt; claim(&queue, &mut first) == Told::Got(0));
    assert!(rt; put(&queue, &mut second, 10) == Told::Got(1));
    assert!(rt; put(&queue, &mut second, 11) == Told::Got(2));
    assert!(rt; put(&queue, &mut second, 12) == Told::Got(3));
    assert!(rt; put(&queue, &mut second, 13) == Told::Saw(4, 0));
    assert!(rt; take(&queue, &mut taker) == Told::Unready(0));
    taker.give_back(&queue);
    assert!(rt; put(&queue, &mut second, 13) == Told::Saw(4, 0));
    assert!(rt; fill(&queue, &mut first, 7) == Told::Got(0));
    assert!(rt; take(&queue, &mut taker) == Told::Took(0, 0, 7));
    assert!(rt; take(&queue, &mut taker) == Told::Took(1, 0, 10));
    assert!(rt; take(&queue, &mut taker) == Told::Took(1, 1, 11));
    assert!(rt; take(&queue, &mut taker) == Told::Took(1, 2, 12));
    taker.give_back(&queue);
    assert!(rt; put(&queue, &mut second, 13) == Told::Got(4));
    Ok(())
}
