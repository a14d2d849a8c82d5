//! How the classes are made, with those who give their buffers back and those who claim them.
ghost use Rattle.std.specs.Prelude.{◌≡◌, ◌<◌, ◌≤◌};
ghost use Rattle.buffer_classes.specs.{length, IfOk, AllAdmitted, IsBufferOf, AllOf, class_terms, AreNewClasses, AreSpecs, AreUnseated, GetsSeat, HasRoom, IsNewClass, IsSpec};

use crate::buffer::CtxBuf;
use crate::class::{Buffers, Class, ClassTerms, Classes};
use crate::giver::Giver;
use crate::givers::Givers;
use crate::seat::ClaimSeat;
use ids_types::{ClassSpec, NoMemory};
use permit_ring::Seat;
use std::alloc::{AllocError, Global};

/// The classes, the one who gives their buffers back, and the claimants by number.
#[derive(Drop)]
pub struct MadeClasses {
    pub classes: Classes,
    pub givers: Givers,
    pub seats: Vec<ClaimSeat>,
}

// A class, its giver, and its seats by number.
#[derive(Drop)]
struct NewClass {
    class: Class,
    giver: Giver,
    seats: Vec<Seat<Buffers>>,
}

// All buffers of a class.
fn make_buffers(alloc: Global, class: u8, spec: ClassSpec) -> Result<Vec<CtxBuf>, AllocError>
    ensures { IfOk result (λ v. (length v.items ≡ spec.number) × AllAdmitted (IsBufferOf (class_terms class spec.size)) v.items) }
{
    let mut bufs = Vec::with_capacity(alloc, spec.number as usize)?;
    for _ in 0..spec.number {
        bufs.push_reserved(CtxBuf::make(alloc, class, spec.size)?);
    }
    Ok(bufs)
}

// Makes the class at a place.
fn make_class(alloc: Global, class: u8, spec: ClassSpec, seats: u8) -> Result<NewClass, NoMemory>
    requires spec { IsSpec spec }
    requires seats { (1 ≤ seats) × (seats ≤ 32) }
    ensures { IfOk result (λ new. IsNewClass class spec seats new.class new.giver new.seats.items) }
{
    let size = spec.size;
    let number = spec.number;
    let bufs = make_buffers(alloc, class, spec)?;
    let late = Vec::with_capacity(alloc, number as usize)?;
    let terms = ClassTerms { class, size };
    let made = permit_ring::make::<Buffers>(alloc, number, seats, terms, bufs)?;
    Ok(NewClass {
        class: Class {
            size,
            ring: made.ring,
        },
        giver: Giver {
            keeper: made.keeper,
            late,
            number,
        },
        seats: made.seats,
    })
}

// Claimants with no seat yet, but room for one at each class.
fn make_claimants(alloc: Global, classes: usize, seats: u8) -> Result<Vec<ClaimSeat>, AllocError>
    ensures { IfOk result (λ v. AreUnseated classes seats v.items) }
{
    let mut claimants = Vec::with_capacity(alloc, seats as usize)?;
    for number in 0..seats {
        claimants.push_reserved(ClaimSeat {
            seats: Vec::with_capacity(alloc, classes)?,
            number,
            claims: 0,
        });
    }
    Ok(claimants)
}

// Gives each claimant its seat of one class more.
fn hand_out(claimants: &mut Vec<ClaimSeat>, mut seats: Vec<Seat<Buffers>>)
    requires as_many { length seats.items ≡ length claimants.old.items }
    requires room { AllAdmitted HasRoom claimants.old.items }
    ensures { AllOf (GetsSeat seats.items) claimants.old.items claimants.new.items }
{
    while let Some(seat) = seats.pop() {
        claimants[seats.len()].seats.push_reserved(seat);
    }
}

/// Makes a class for each of `specs`, all its buffers free, and as many claimants as are asked for. It is the one
/// call of the classes that takes memory.
/// Steps: all buffers of all classes, each with a request, and the claimants at each class. Memory: made once: the
/// buffers' bytes, at most 4 MiB, and their places. By: read off; `AreNewClasses`; no other call of the classes answers
/// NoMemory.
pub fn make(alloc: Global, specs: &[ClassSpec], seats: u8) -> Result<MadeClasses, NoMemory>
    requires classes { AreSpecs specs.now }
    requires seats { (1 ≤ seats) × (seats ≤ 32) }
    ensures { IfOk result (λ made. AreNewClasses specs.now seats made.classes made.givers made.seats.items) }
{
    let mut classes = Vec::with_capacity(alloc, specs.len())?;
    let mut givers = Vec::with_capacity(alloc, specs.len())?;
    let mut claimants = make_claimants(alloc, specs.len(), seats)?;
    for spec in specs {
        let new = make_class(alloc, classes.len() as u8, *spec, seats)?;
        hand_out(&mut claimants, new.seats);
        givers.push_reserved(new.giver);
        classes.push_reserved(new.class);
    }
    Ok(MadeClasses {
        classes: Classes { classes },
        givers: Givers { givers },
        seats: claimants,
    })
}
