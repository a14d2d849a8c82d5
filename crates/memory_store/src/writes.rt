//! The writes of a save: the gate is shut, the body written, and the gate opened, each synced before the next.
ghost use Rattle.std.specs.Prelude.{◌≡◌, ◌+◌, ◌*◌, ◌≤◌, [], ◌∷◌, length, OnOk, Some, None};
ghost use Rattle.memory_disk.specs.Disks.{ChangesIn, HasCause, IsSettled, LeavesSince, bytes_of, overwritten, span_of};
ghost use Rattle.memory_store.specs.Saving.{IsBody, IsReady, IsSet, KeepsEither, KeepsSlot};
ghost use Rattle.memory_store.specs.Slots.{slot_in};

use crate::place::Place;
use memory_disk::{Disk, DiskFailed};

/// The value of a gate after which a slot counts, and one after which it does not.
const OPEN: u8 = 1;

const SHUT: u8 = 0;

/// How many bytes lie between the beginnings of the two slots.
pub(crate) const SLOT_STEP: u32 = 270_864;

/// Saves a slot's body, that is its sequence, its image's length and its image.
pub(crate) fn put_slot<D: Disk>(disk: &mut D, place: &Place, body: &[u8]) -> Result<(), DiskFailed>
    requires slot { place.now.slot ≤ 1 }
    requires body { IsBody body.now (place.now.sequence + 1) }
    ensures tells { (D.shows disk.new).tells ≡ (D.shows disk.old).tells }
    ensures cause { HasCause (D.shows disk.old).faults (D.shows disk.new).faults result }
    ensures any_moment { IsReady place.now (D.shows disk.old) → LeavesSince (D.shows disk.old).run (D.shows disk.new).run
        (KeepsEither (slot_in body.now) (bytes_of (D.shows disk.old))) }
    ensures settled { IsReady place.now (D.shows disk.old) → OnOk result (IsSettled (D.shows disk.new)) }
    ensures saved { IsReady place.now (D.shows disk.old) → OnOk result
        (IsSet place.now.slot (Some (slot_in body.now)) (bytes_of (D.shows disk.old)) (bytes_of (D.shows disk.new))) }
{
    let gate = SLOT_STEP * u32::from(place.slot);
    shut(disk, place)?;
    write_through(disk, gate + 1, body)?;
    write_through(disk, gate, &[OPEN])
}

/// Shuts the gate of the slot, if it is open. One that is not is left as it is: a write of it that is cut short
/// might open it.
fn shut<D: Disk>(disk: &mut D, place: &Place) -> Result<(), DiskFailed>
    requires { place.now.slot ≤ 1 }
    ensures tells { (D.shows disk.new).tells ≡ (D.shows disk.old).tells }
    ensures cause { HasCause (D.shows disk.old).faults (D.shows disk.new).faults result }
    ensures any_moment { IsReady place.now (D.shows disk.old) → LeavesSince (D.shows disk.old).run (D.shows disk.new).run
        (KeepsSlot (bytes_of (D.shows disk.old))) }
    ensures settled { IsReady place.now (D.shows disk.old) → OnOk result (IsSettled (D.shows disk.new)) }
    ensures shut { IsReady place.now (D.shows disk.old) → OnOk result
        (IsSet place.now.slot None (bytes_of (D.shows disk.old)) (bytes_of (D.shows disk.new))) }
{
    if !place.is_open {
        return Ok(());
    }
    write_through(disk, SLOT_STEP * u32::from(place.slot), &[SHUT])
}

/// Writes a piece, and brings it to where a crash leaves it.
fn write_through<D: Disk>(disk: &mut D, at: u32, piece: &[u8]) -> Result<(), DiskFailed>
    requires { at + length piece.now ≤ 541728 }
    ensures tells { (D.shows disk.new).tells ≡ (D.shows disk.old).tells }
    ensures cause { HasCause (D.shows disk.old).faults (D.shows disk.new).faults result }
    ensures any_moment { IsSettled (D.shows disk.old) → LeavesSince (D.shows disk.old).run (D.shows disk.new).run
        (ChangesIn (span_of at piece.now) (bytes_of (D.shows disk.old))) }
    ensures settled { IsSettled (D.shows disk.old) → OnOk result (IsSettled (D.shows disk.new)) }
    ensures written { IsSettled (D.shows disk.old) → OnOk result
        (bytes_of (D.shows disk.new) ≡ overwritten at piece.now (bytes_of (D.shows disk.old))) }
{
    disk.write(at, piece)?;
    disk.sync()
}
