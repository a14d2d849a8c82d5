//! The slots of a disk as they were read, and which of them is kept.
ghost use Rattle.std.specs.Prelude.{◌≡◌, ◌≤◌, ◌^◌, ◌↔◌, length, reverse, option_map, IsTrue, Option};
ghost use Rattle.event_memory.specs.Held.{no_rows};
ghost use Rattle.memory_store.specs.Slots.{IsChosen, Tells, plain_slot, slot_read, Slot as SlotValue};

use crate::place::Place;
use event_memory::Memory;
use memory_image::restore;

/// The greatest sequence that a save has.
pub(crate) const LAST_SEQUENCE: u64 = 1 << 62;

/// What stands after an open gate. The image ends where the slot does.
#[derive(Clone, Copy)]
pub(crate) struct Slot<'a> {
    sequence: u64,
    size: u32,
    image: &'a [u8],
}

/// Fills an empty memory with the records that are kept, and says where a save goes; or names the slot that is
/// damaged.
#[tactic(auto, using(std::proofs::lemmas::Bool::Decides::nat_tests))]
pub(crate) fn find(first: &[u8], second: &[u8], memory: &mut Memory) -> Result<Place, u8>
    requires first { length first.now ≡ 270861 }
    requires second { length second.now ≡ 270861 }
    requires memory { memory.old ≡ no_rows 256 }
    ensures { Tells (slot_read first.now) (slot_read second.now) (reverse memory.new.rows) result }
{
    match (open_slot(first), open_slot(second)) {
        (None, None) => Ok(Place {
            slot: 0,
            is_open: false,
            sequence: 0,
        }),
        (Some(kept), None) => take(0, false, kept, memory),
        (None, Some(kept)) => take(1, false, kept, memory),
        (Some(first), Some(second)) => {
            if first.sequence < second.sequence {
                take(1, true, second, memory)
            } else if second.sequence < first.sequence {
                take(0, true, first, memory)
            } else {
                Err(1)
            }
        }
    }
}

/// Fills an empty memory with the records of this slot, and says that a save goes to the other one.
#[tactic(auto, using(std::proofs::lemmas::Bool::Decides::nat_tests))]
fn take(number: u8, is_open: bool, kept: Slot<'_>, memory: &mut Memory) -> Result<Place, u8>
    requires number { number ≤ 1 }
    requires memory { memory.old ≡ no_rows 256 }
    ensures { (first second : Option SlotValue) → IsChosen first second number is_open (plain_slot kept.entry) →
        Tells first second (reverse memory.new.rows) result }
{
    if !is_whole(&kept) || !restore(memory, kept.image) {
        return Err(number);
    }
    Ok(Place {
        slot: 1 - number,
        is_open,
        sequence: kept.sequence,
    })
}

/// Whether the slot has a sequence of a save, and its whole image.
fn is_whole(slot: &Slot<'_>) -> bool
    ensures { IsTrue result ↔ ((1 ≤ slot.now.sequence) × (slot.now.sequence ≤ 2 ^ 62)
        × (length slot.now.image.now ≡ slot.now.size)) }
{
    slot.sequence >= 1 && slot.sequence <= LAST_SEQUENCE && slot.image.len() == slot.size as usize
}

/// The slot in its bytes, if its gate is open.
fn open_slot(bytes: &[u8]) -> Option<Slot<'_>>
    requires { length bytes.now ≡ 270861 }
    ensures { option_map plain_slot result ≡ slot_read bytes.now }
{
    if bytes[0] != 1 {
        return None;
    }
    let (sequence, rest) = bytes[1..].split_first_chunk()?;
    let (size, rest) = rest.split_first_chunk()?;
    let size = u32::from_be_bytes(*size);
    Some(Slot {
        sequence: u64::from_be_bytes(*sequence),
        size,
        image: &rest[..rest.len().min(size as usize)],
    })
}
