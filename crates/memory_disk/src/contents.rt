//! The bytes of a disk in memory and the ranges that are not yet synced, and what calls and crashes make of them.
ghost use Rattle.std.specs.Prelude.{◌≡◌, ℕ, ◌+◌, ◌<◌, ◌≤◌, ◌↔◌, length, slice_index, vec_capacity, vec_len, IsTrue};
ghost use Rattle.memory_disk.specs.Disks.{IsWritten, MayBeLeft};
ghost use Rattle.memory_disk.specs.Recorded.{state_after, Takes};

use crate::disk::Span;
use crate::recording::Call;

/// Makes of the bytes and of the ranges what a call makes of them.
pub(crate) fn apply(bytes: &mut [u8], unsynced: &mut Vec<Span>, call: Call, piece: &[u8])
    requires size { length bytes.old ≡ 541728 }
    requires room { vec_len unsynced.old < vec_capacity unsynced.old }
    requires call { Takes call piece.now }
    ensures state { record { contents = bytes.new; written = unsynced.new.items }
        ≡ state_after call (record { contents = bytes.old; written = unsynced.old.items }) piece.now }
    ensures len { vec_len unsynced.new ≤ vec_len unsynced.old + 1 }
    ensures capacity { vec_capacity unsynced.new ≡ vec_capacity unsynced.old }
{
    match call {
        Call::Wrote(span) => {
            let at = span.at as usize;
            bytes[at..at + piece.len()].copy_from_slice(piece);
            unsynced.push_reserved(span);
        }
        Call::Tore(span) => unsynced.push_reserved(span),
        Call::Synced => unsynced.clear(),
        Call::Passed => {}
    }
}

/// Gives each byte in the ranges this value.
pub(crate) fn fill_unsynced(bytes: &mut [u8], unsynced: &[Span], fill: u8)
    ensures left { MayBeLeft (record { contents = bytes.old; written = unsynced.now }) bytes.new }
    ensures filled { (i : ℕ) → i < length bytes.old → IsWritten unsynced.now i → slice_index bytes.new i ≡ fill }
{
    for (i, byte) in bytes.iter_mut().enumerate() {
        if is_written(unsynced, i) {
            *byte = fill;
        }
    }
}

/// Whether the place is in one of the ranges.
fn is_written(unsynced: &[Span], i: usize) -> bool
    ensures { IsTrue result ↔ IsWritten unsynced.now i }
{
    match unsynced {
        [] => false,
        [span, rest @ ..] => {
            let at = span.at as usize;
            (at..at + span.count as usize).contains(&i) || is_written(rest, i)
        }
    }
}
