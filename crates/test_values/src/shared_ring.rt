//! A ring of numbers, by its public calls.

ghost use Rattle.std.specs.Prelude.{◌≡◌, ◌+◌, ◌<◌, ◌^◌, ⊤, None};
ghost use Rattle.permit_ring.specs.Seats.{IsKeeperOf, IsSeatOf, seat_calls, seat_ticket};

use ids_types::{NoMemory, Ticket};
use permit_ring::{Freight, Keeper, Made, Ring, Seat, make};

/// A ring of numbers, each of which is its own note. What is offered is room alone.
struct Numbers;

impl Freight for Numbers {
    type Offered = ();

    type Finished = u64;

    type Terms = ();

    type Note = u64;

    ghost note = { λ x. x };

    ghost admits_offered = { λ terms room. ⊤ };

    ghost admits_note = { λ terms x. ⊤ };
}

// Puts a number into the ring, takes it and offers its position again.
fn go_round(
    ring: &Ring<Numbers>,
    keeper: &mut Keeper<Numbers>,
    seat: &mut Seat<Numbers>,
    number: u64,
) -> Option<(Ticket, u64, u16)>
    requires keeper { IsKeeperOf (λ terms room. ⊤) ring.now keeper.old }
    requires seat { IsSeatOf (λ terms room. ⊤) ring.now seat.old }
    requires idle { seat_ticket seat.old ≡ None }
    requires few { seat_calls seat.old < 2 ^ 40 }
    ensures keeper { IsKeeperOf (λ terms room. ⊤) ring.now keeper.new }
    ensures seat { IsSeatOf (λ terms room. ⊤) ring.now seat.new }
    ensures idle { seat_ticket seat.new ≡ None }
    ensures calls { seat_calls seat.new ≡ seat_calls seat.old + 1 }
{
    let ticket = seat.claim(ring).ok()?;
    seat.finish(ring, number);
    let taken = keeper.reap(ring).ok()?;
    keeper.refill(ring, ());
    Some((ticket, taken, keeper.offer(ring)))
}

#[test]
fn numbers_go_round_a_ring_of_one_position(rt: HostRuntime) -> Result<(), NoMemory> {
    let room = vec![in rt.alloc(); (); 1]?;
    let Made {
        ring,
        mut keeper,
        mut seats,
    } = make::<Numbers>(rt.alloc(), 1, 1, (), room)?;
    let mut seat = seats.pop().unwrap();
    for number in 0..1000u64 {
        assert_eq!(rt;
            go_round(&ring, &mut keeper, &mut seat, 3 * number),
            Some((Ticket(number), 3 * number, 1))
        );
    }
    Ok(())
}
