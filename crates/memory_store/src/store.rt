//! Beginning with a disk, saving on it, and the records that were found there.

ghost use Rattle.std.specs.Prelude.{◌≡◌, ◌+◌, ◌<◌, ◌≤◌, List, IfOk, IsTrue, OnOk, length, reverse, slice_index_or, vec_capacity};
ghost use Rattle.event_memory.specs.{no_row, no_rows, plain_row};
ghost use Rattle.ids_types.specs.MemoryRow.{Row as MemoryRow};
ghost use Rattle.memory_disk.specs.Disks.{HasCause, IsSettled, LeavesOnly, LeavesSince, MayBeLeft, bytes_of, part};
ghost use Rattle.memory_image.specs.Images.{AreKeepable};
ghost use Rattle.memory_store.specs.Saving.{IsBody, KeepsRowsOr, slot_for};
ghost use Rattle.memory_store.specs.Slots.{KeepsRows, slot_in};
ghost use Rattle.text_spec.specs.MemoryText.{memory_text};

use crate::place::Place;
use crate::slots::{LAST_SEQUENCE, find};
use crate::writes::{SLOT_STEP, put_slot};
use event_memory::{Memory, Row};
use ids_types::NoMemory;
use memory_disk::{Disk, DiskFailed};
use memory_image::{image_len, put_image};
use std::alloc::Global;
use std::marker::Model;

/// How many bytes a slot has.
const SLOT_LEN: usize = 270_861;

/// How many records an image has at most.
const MAX_RECORDS: u16 = 256;

/// The records that a disk keeps, from the one stored longest ago on.
#[derive(Debug, Drop)]
pub struct Records {
    pub(crate) memory: Memory,
}

impl Model for Records {
    ghost use Rattle.std.specs.Prelude.{List, reverse};
    ghost use Rattle.ids_types.specs.MemoryRow.{Row as MemoryRow};

    ghost Value = { List MemoryRow };

    ghost view = { λ records. reverse records.memory.rows };
}

impl Records {
    /// How many there are.
    pub fn len(&self) -> u16
        ensures { result ≡ length self.now }
    {
        self.memory.len()
    }

    /// A record, by its place from 0.
    pub fn row(&self, i: u16) -> Row<'_>
        requires { i < length self.now }
        ensures { plain_row result ≡ slice_index_or self.now i no_row }
    {
        self.memory.row(i)
    }

    /// The text of the records, one line for each.
    /// Steps: as `event_memory::Memory::print`. Memory: may answer want of memory. By: read off.
    pub fn print(&self, alloc: Global) -> Result<Vec<u8>, NoMemory>
        ensures { IfOk result (λ text. text.items ≡ memory_text self.now) }
    {
        self.memory.print(alloc)
    }
}

/// Why a store could not be begun. The disk is handed back.
#[derive(Debug)]
pub enum BeginFault<D> {
    /// A call of the disk failed.
    Failed(D),
    /// The kept slot is damaged: its sequence, its length or its image is none of a save, or both slots are open
    /// under one sequence.
    Damaged { slot: u8, disk: D },
    /// Memory was missing before any call of the disk.
    NoMemory(D),
}

/// Why nothing was saved.
pub enum SaveFault<D: Disk> {
    /// A call of the disk failed. The disk is to be begun again.
    Failed(D),
    /// There is no sequence left. The store is as it was.
    Worn(Store<D>),
}

/// A disk that keeps the records of an event memory: those of the last save that ended, whenever power fails.
pub struct Store<D: Disk> {
    disk: D,
    place: Place,
    body: Vec<u8>,
}

impl<D: Disk> Model for Store<D> {
    ghost use Rattle.memory_store.specs.Stores.{StoreValue, IsSound};

    ghost Value = { StoreValue D };

    ghost view = { λ store. record { disk = store.disk; sequence = store.place.sequence } };

    ghost invariant = { λ store. IsSound D.shows store.disk store.place store.body };
}

impl<D: Disk> Store<D> {
    ghost use Rattle.memory_store.specs.Answers.{BeginAnswers, SaveAnswers, begun_disk, saved_disk};

    /// Takes all memory that saves need, syncs the disk and reads the records that it keeps. Writes nothing.
    /// Steps: one sync, two reads, and the records of one slot. Memory: made once, before the first call of the disk.
    /// Waits: as its disk. By: `answers`; read off.
    pub fn begin(alloc: Global, disk: D) -> Result<(Store<D>, Records), BeginFault<D>>
        ensures answers { BeginAnswers D.shows disk result }
        ensures tells { (D.shows (begun_disk result)).tells ≡ (D.shows disk).tells }
        ensures keeps { IsTrue (D.shows disk).tells →
            IfOk result (λ begun. KeepsRows (bytes_of (D.shows begun.0.disk)) begun.0.sequence begun.1) }
        ensures same { IsTrue (D.shows disk).tells → bytes_of (D.shows (begun_disk result)) ≡ bytes_of (D.shows disk) }
        ensures settled { IsTrue (D.shows disk).tells → OnOk result (IsSettled (D.shows (begun_disk result))) }

        // A crash at any moment of the call leaves what one before it might have left.
        ensures any_moment { IsTrue (D.shows disk).tells →
            LeavesSince (D.shows disk).run (D.shows (begun_disk result)).run (MayBeLeft (D.shows disk).run.now) }
    {
        let mut disk = disk;
        let Ok((mut first, mut second, mut memory)) = make_room(alloc) else {
            return Err(BeginFault::NoMemory(disk));
        };
        let Ok(()) = read_slots(&mut disk, &mut first, &mut second) else {
            return Err(BeginFault::Failed(disk));
        };
        match find(&first, &second, &mut memory) {
            Ok(place) => {
                let body = first;
                Ok((Store { disk, place, body }, Records { memory }))
            }
            Err(slot) => Err(BeginFault::Damaged { slot, disk }),
        }
    }

    /// Saves the records of the memory, under the next sequence. Takes no memory.
    /// Steps: the records once, and at most three writes, each with a sync. Waits: as its disk. By: answer `SaveFault`,
    /// no NoMemory; read off.
    pub fn save(self, memory: &Memory) -> Result<Store<D>, SaveFault<D>>
        requires { AreKeepable (reverse memory.now.rows) }
        ensures answers { SaveAnswers D.shows self result }
        ensures tells { (D.shows (saved_disk result)).tells ≡ (D.shows self.disk).tells }

        // A crash at any moment of the call leaves the records from before it, or those of the memory.
        ensures any_moment { IsTrue (D.shows self.disk).tells → (was : List MemoryRow) →
            KeepsRows (bytes_of (D.shows self.disk)) self.sequence was →
            LeavesSince (D.shows self.disk).run (D.shows (saved_disk result)).run
            (KeepsRowsOr self.sequence was (self.sequence + 1) (reverse memory.now.rows)) }

        // Once it has answered Ok, every crash leaves those of the memory.
        ensures saved { IsTrue (D.shows self.disk).tells → OnOk result (LeavesOnly
            (λ left. KeepsRows left (self.sequence + 1) (reverse memory.now.rows)) (D.shows (saved_disk result)).run.now) }
    {
        if self.place.sequence == LAST_SEQUENCE {
            return Err(SaveFault::Worn(self));
        }
        let Store {
            mut disk,
            place,
            mut body,
        } = self;
        encode(&mut body, place.sequence + 1, memory);
        let Ok(()) = put_slot(&mut disk, &place, &body) else {
            return Err(SaveFault::Failed(disk));
        };
        Ok(Store {
            disk,
            place: place.after_save(),
            body,
        })
    }

    /// Hands the disk back.
    pub fn finish(self) -> D
        ensures { result ≡ self.disk }
    {
        let Store {
            disk,
            place: _,
            body: _,
        } = self;
        disk
    }
}

/// The memory that a store needs: the bytes of both slots, of which one is then kept for the body of a save, and
/// the records that are read.
fn make_room(alloc: Global) -> Result<(Vec<u8>, Vec<u8>, Memory), NoMemory>
    ensures { IfOk result (λ room. (length room.0.items ≡ 270861) × (length room.1.items ≡ 270861) × (room.2 ≡ no_rows 256)) }
{
    Ok((
        vec![in alloc; 0; SLOT_LEN]?,
        vec![in alloc; 0; SLOT_LEN]?,
        Memory::make(alloc, MAX_RECORDS)?,
    ))
}

/// Syncs the disk, and reads both slots.
fn read_slots<D: Disk>(disk: &mut D, first: &mut [u8], second: &mut [u8]) -> Result<(), DiskFailed>
    requires first { length first.old ≡ 270861 }
    requires second { length second.old ≡ 270861 }
    ensures tells { (D.shows disk.new).tells ≡ (D.shows disk.old).tells }
    ensures cause { HasCause (D.shows disk.old).faults (D.shows disk.new).faults result }
    ensures any_moment { IsTrue (D.shows disk.old).tells →
        LeavesSince (D.shows disk.old).run (D.shows disk.new).run (MayBeLeft (D.shows disk.old).run.now) }
    ensures same { IsTrue (D.shows disk.old).tells → bytes_of (D.shows disk.new) ≡ bytes_of (D.shows disk.old) }
    ensures settled { IsTrue (D.shows disk.old).tells → OnOk result (IsSettled (D.shows disk.new)) }
    ensures first { IsTrue (D.shows disk.old).tells → OnOk result (first.new ≡ part 0 270861 (bytes_of (D.shows disk.old))) }
    ensures second { IsTrue (D.shows disk.old).tells →
        OnOk result (second.new ≡ part 270864 270861 (bytes_of (D.shows disk.old))) }
{
    disk.sync()?;
    disk.read(0, first)?;
    disk.read(SLOT_STEP, second)
}

/// Puts the body of a save in place of the bytes.
#[tactic(auto, using(crate::proofs::SlotLemmas::encoding))]
fn encode(body: &mut Vec<u8>, sequence: u64, memory: &Memory)
    requires keepable { AreKeepable (reverse memory.now.rows) }
    requires room { 270860 ≤ vec_capacity body.old }
    ensures body { IsBody body.new.items sequence }
    ensures says { slot_in body.new.items ≡ slot_for sequence (reverse memory.now.rows) }
    ensures capacity { vec_capacity body.old ≤ vec_capacity body.new }
{
    body.clear();
    body.extend_from_slice(&sequence.to_be_bytes()).unwrap();
    body.extend_from_slice(&image_len(memory).to_be_bytes())
        .unwrap();
    put_image(body, memory);
}
