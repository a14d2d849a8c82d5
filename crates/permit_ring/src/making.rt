//! How a ring is made, with its keeper and all its seats.
ghost use Rattle.std.specs.Prelude.{◌≡◌, ◌+◌, ◌<◌, ◌≤◌, ◌∷◌};
ghost use Rattle.permit_ring.specs.{[], map, length, replicate, IfOk, OnOk, all_free as all_free_word, packed, Offered, Keeps, AllAdmitted, AreNewSeats, IsNewRing, made_memo, IsKeeping, first_memo};

use crate::freight::Freight;
use crate::keeper::Keeper;
use crate::memo::{Key, Slot};
use crate::ring::{MARKS, PERMITS, Place, Ring, all_free};
use crate::seat::Seat;
use crate::told::Lives;
use atomic_table::Table;
use ids_types::NoMemory;
use std::alloc::{AllocError, Global};

/// A ring, the one who keeps it, and its seats by number.
#[derive(Drop)]
pub struct Made<F: Freight> {
    pub ring: Ring<F>,
    pub keeper: Keeper<F>,
    pub seats: Vec<Seat<F>>,
}

// The words of a ring whose positions are all free.
fn fresh_words(alloc: Global, n: u16, seats: u8) -> Result<Vec<u64>, AllocError>
    requires { (n ≤ 1024) × (seats ≤ 32) }
    ensures { IfOk result (λ v. v.items ≡ packed seats (all_free_word n) ∷ 0 ∷ 0 ∷ replicate n 0) }
{
    let mut words = Vec::from_elem(alloc, 0u64, n as usize + MARKS)?;
    words[PERMITS] = all_free(n).pack(seats);
    Ok(words)
}

// A slot for each value that is offered at first.
fn offered_slots<O: Drop, D: Drop>(
    alloc: Global,
    load: Vec<O>,
) -> Result<Vec<Slot<O, D>>, AllocError>
    ensures { IfOk result (λ v. v.items ≡ map Offered load.items) }
{
    load.into_iter()
        .map(|value| Slot::Offered(value))
        .collect(alloc)
}

// Makes all seats of a ring, by number.
fn make_seats<F: Freight>(
    alloc: Global,
    ring: &Ring<F>,
    place: &mut Place<F>,
) -> Result<Vec<Seat<F>>, AllocError>
    requires mine { IsKeeping ring.now place.old }
    requires none { place.old.me ≡ (Keeps ring.now.table.shared.key (first_memo ring.now.positions), []) }
    ensures mine { IsKeeping ring.now place.new }
    ensures seats { IfOk result (λ v. AreNewSeats F.admits_offered ring.now ring.now.limit v.items) }
    ensures keeper { OnOk result (place.new.me ≡ (Keeps ring.now.table.shared.key (made_memo ring.now.positions ring.now.limit), [])) }
{
    let mut seats = Vec::with_capacity(alloc, ring.limit as usize)?;
    for number in 0..ring.limit {
        let seat = ring.table.shared.split_seat::<Lives>(place);
        seats.push_reserved(Seat::of(seat, number));
    }
    Ok(seats)
}

/// Makes a ring of `n` positions, all free, with a value of `load` for the slot of each, and as many
/// idle seats as are asked for. It is the one call of a ring that takes memory.
/// Steps: positions + 3 words, the positions' slots, and one load for each seat. Memory: made once. By: read off;
/// `IsNewRing`; no other call of the ring answers NoMemory.
pub fn make<F: Freight>(
    alloc: Global,
    n: u16,
    seats: u8,
    terms: F::Terms,
    load: Vec<F::Offered>,
) -> Result<Made<F>, NoMemory>
    requires positions { (1 ≤ n) × (n ≤ 1024) }
    requires seats { (1 ≤ seats) × (seats ≤ 32) }
    requires load { (length load.items ≡ n) × AllAdmitted (F.admits_offered terms) load.items }
    ensures { IfOk result (λ made. IsNewRing F.admits_offered n seats terms made.ring made.keeper made.seats.items) }
{
    let words = fresh_words(alloc, n, seats)?;
    let slots = offered_slots(alloc, load)?;
    let key = Key {
        positions: n,
        limit: seats,
        terms,
    };
    let Ok((table, mut place)) = Table::new(alloc, words.as_slice(), slots, &key) else {
        return Err(NoMemory);
    };
    let ring = Ring {
        table,
        positions: n,
        limit: seats,
    };
    let seats = make_seats(alloc, &ring, &mut place)?;
    let keeper = Keeper::of(place, n);
    Ok(Made {
        ring,
        keeper,
        seats,
    })
}
