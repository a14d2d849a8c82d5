//! A disk in memory, which can fail and crash.

ghost use Rattle.std.specs.Prelude.{◌≡◌, ◌+◌, ◌<◌, ◌≤◌, [], ℕ, length, slice_index, true, IfOk, IsErr};
ghost use Rattle.ids_outside.specs.Faults.{counted};
ghost use Rattle.memory_disk.specs.Disks.{overwritten, span_of, synced, unsynced, IsWritten, MayBeLeft, Reads};
ghost use Rattle.memory_disk.specs.Recorded.{noted, unused_disk, Follows, HasRoom, state_after, Takes};

use crate::contents::{apply, fill_unsynced};
use crate::disk::{Disk, DiskFailed, Span};
use crate::recording::{Call, Recording};
use ids_types::NoMemory;
use std::alloc::Global;
use std::marker::Model;

/// A disk in memory, for tests. The calls whose numbers are listed fail, and so do those for which the room that
/// it was made with is short; these are not recorded. A call that fails changes no byte.
#[derive(Debug, Drop)]
pub struct MemoryDisk {
    recording: Recording,
    bytes: Vec<u8>,
    unsynced: Vec<Span>,
    fails: Vec<u64>,
    calls: u64,
    faults: u64,
}

impl Model for MemoryDisk {
    ghost use Rattle.memory_disk.specs.Recorded.{MemoryView};

    ghost Value = { MemoryView };

    ghost use Rattle.memory_disk.specs.Kept.{viewed, IsKept};

    ghost view = { viewed };

    ghost invariant = { IsKept };
}

impl MemoryDisk {
    /// A disk of these bytes, with room for so many calls and for so many bytes that they write. Its calls are
    /// numbered from 0, and those in `fails` fail.
    /// Steps: the bytes copied once. Memory: made once. By: read off.
    pub fn make(
        alloc: Global,
        bytes: Vec<u8>,
        fails: Vec<u64>,
        calls: u64,
        written: u64,
    ) -> Result<MemoryDisk, NoMemory>
        requires { length bytes.items ≡ 541728 }
        ensures { IfOk result (λ disk. disk ≡ unused_disk bytes.items fails.items (record { calls = calls; bytes = written }) 0) }
    {
        Ok(MemoryDisk {
            recording: Recording::make(alloc, &bytes, calls as usize, written as usize)?,
            bytes,
            unsynced: Vec::with_capacity(alloc, calls as usize)?,
            fails,
            calls: 0,
            faults: 0,
        })
    }

    /// The bytes that a read gives.
    pub fn contents(&self) -> &[u8]
        ensures { result.now ≡ self.now.recorded.run.now.contents }
    {
        &self.bytes
    }

    /// The disk after a crash that gave each byte that was written since the last successful sync this value.
    /// Steps: each byte of the disk compared with each range that was written since the last sync. By: `filled`; read
    /// off.
    pub fn crash(mut self, fill: u8) -> MemoryDisk
        ensures left { MayBeLeft self.recorded.run.now result.recorded.run.now.contents }
        ensures filled { (i : ℕ) → i < 541728 → IsWritten self.recorded.run.now.written i
            → slice_index result.recorded.run.now.contents i ≡ fill }
        ensures rest { result ≡ unused_disk result.recorded.run.now.contents [] self.recorded.room self.faults }
    {
        fill_unsynced(&mut self.bytes, &self.unsynced, fill);
        self.unsynced.clear();
        self.recording.restart(&self.bytes);
        self.fails.clear();
        self.calls = 0;
        self
    }

    /// Makes a call of this piece: it is `served`, or `failed` where its number is listed. Where there is no room
    /// it fails, too, and is not noted.
    fn answer(&mut self, served: Call, failed: Call, piece: &[u8]) -> Result<(), DiskFailed>
        requires served { Takes served piece.now }
        requires failed { Takes failed [] }
        ensures follows { let now = self.old.recorded.run.now in Follows self.old self.new
            (length piece.now) (state_after served now piece.now) (state_after failed now []) result }
        ensures size { length self.old.recorded.run.now.contents ≡ 541728 }
    {
        let is_listed = self.fails.contains(&self.calls);
        self.calls = self.calls.saturating_add(1);
        if !self.recording.has_room(piece.len()) {
            return self.fail();
        }
        if is_listed {
            self.note(failed, &[]);
            return self.fail();
        }
        self.note(served, piece);
        Ok(())
    }

    /// Counts a fault.
    fn fail(&mut self) -> Result<(), DiskFailed>
        ensures err { IsErr result }
        ensures faults { self.new ≡ record self.old { faults = counted self.old.faults } }
    {
        self.faults = self.faults.saturating_add(1);
        Err(DiskFailed)
    }

    /// Notes a call of this piece, for which there is room, and makes of the bytes what it makes of them.
    fn note(&mut self, call: Call, piece: &[u8])
        requires room { HasRoom self.old.recorded (length piece.now) }
        requires call { Takes call piece.now }
        ensures { let old = self.old.recorded in self.new ≡ record self.old {
          recorded = noted old (state_after call old.run.now piece.now) (length piece.now);
        } }
    {
        self.recording.note(call, piece);
        apply(&mut self.bytes, &mut self.unsynced, call, piece);
    }
}

impl Disk for MemoryDisk {
    ghost shows = { λ disk. record { tells = true; run = disk.recorded.run; faults = disk.faults } };

    fn read(&mut self, at: u32, out: &mut [u8]) -> Result<(), DiskFailed>
        requires { at + length out.old ≤ 541728 }
        ensures reads { Reads self.old.recorded.run self.new.recorded.run at out.new result }
        ensures follows { let now = self.old.recorded.run.now in Follows self.old self.new 0 now now result }
    {
        self.answer(Call::Passed, Call::Passed, &[])?;
        let at = at as usize;
        out.copy_from_slice(&self.bytes[at..at + out.len()]);
        Ok(())
    }

    fn write(&mut self, at: u32, piece: &[u8]) -> Result<(), DiskFailed>
        requires { at + length piece.now ≤ 541728 }
        ensures { let now = self.old.recorded.run.now in let span = span_of at piece.now in
            Follows self.old self.new (length piece.now)
            (unsynced now span (overwritten at piece.now now.contents)) (unsynced now span now.contents) result }
    {
        let count = piece.len() as u32;
        let span = Span { at, count };
        self.answer(Call::Wrote(span), Call::Tore(span), piece)
    }

    fn sync(&mut self) -> Result<(), DiskFailed>
        ensures size { length self.old.recorded.run.now.contents ≡ 541728 }
        ensures follows { let now = self.old.recorded.run.now in
            Follows self.old self.new 0 (synced now.contents) now result }
    {
        self.answer(Call::Synced, Call::Passed, &[])
    }
}
