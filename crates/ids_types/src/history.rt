//! The history of a run: its turns, each with its entries.

ghost use Rattle.std.specs.Prelude.{◌≡◌, ◌<◌, ◌≤◌, [], ◌∷◌, ◌++◌, length, IfOk, OnOk, OnErr, IsTrue, ◌↔◌};
ghost use Rattle.ids_types.specs.{begun, with_entry, turn_at, entry_at, entries_of, context_bytes, HasRoom, room_after, wider_room, emptied, plain_entry, kept_bytes};

use crate::entry::{Entry, TurnHead};
use crate::memory::NoMemory;
use crate::parcel::Plain;
use crate::placing::{lent, put_bytes, row_of};
use crate::rows::{EntryRow, TurnRow};
use crate::walk::Walk;
use std::alloc::Global;
use std::marker::Model;

/// How many numbers an entry has beside its row at most: a stamp, and four of a context.
const MOST_NUMBERS: u64 = 5;

/// The turns of a run, each with its entries, and how many more there is room for.
///
/// All memory is taken when it is made, so that `begin` and `add` take none.
#[derive(Debug, Drop)]
pub struct History {
    rows: Vec<TurnRow>,
    entries: Vec<EntryRow>,
    numbers: Vec<u64>,
    bytes: Vec<u8>,
    turns_left: u64,
    entries_left: u64,
    bytes_left: u64,
}

impl Model for History {
    ghost use Rattle.ids_types.specs.Turns.{Turns};

    ghost Value = { Turns };

    ghost use Rattle.ids_types.specs.Views.{turns_of, IsSound};

    ghost view = { turns_of };

    ghost invariant = { IsSound };
}

impl History {
    /// An empty history with room for so many turns, entries and bytes of context.
    /// Steps: constant; at most four requests. Memory: made once, for the room asked, with five numbers an entry
    /// whether it has them or not; want of it also where these pass 2^64 - 1. By: `room`; no loop.
    pub fn make(alloc: Global, turns: u64, entries: u64, bytes: u64) -> Result<History, NoMemory>
        ensures turns { IfOk result (λ h. h.turns ≡ []) }
        ensures room { IfOk result (λ h. h.room ≡ record { turns = turns; entries = entries; bytes = bytes }) }
    {
        let numbers = entries.checked_mul(MOST_NUMBERS).ok_or(NoMemory)?;
        Ok(History {
            rows: Vec::with_capacity(alloc, turns as usize)?,
            entries: Vec::with_capacity(alloc, entries as usize)?,
            numbers: Vec::with_capacity(alloc, numbers as usize)?,
            bytes: Vec::with_capacity(alloc, bytes as usize)?,
            turns_left: turns,
            entries_left: entries,
            bytes_left: bytes,
        })
    }

    /// Makes room for so many turns, entries and bytes more, unless there is more room already.
    /// Steps: constant; at most four requests. Memory: may answer want of memory, and tells its old room then; else as
    /// `make`. By: `room`, `err`; no loop.
    pub fn reserve(&mut self, turns: u64, entries: u64, bytes: u64) -> Result<(), NoMemory>
        ensures turns { self.new.turns ≡ self.old.turns }
        ensures room { OnOk result (self.new.room ≡ wider_room self.old.room turns entries bytes) }
        ensures err { OnErr result (self.new.room ≡ self.old.room) }
    {
        let turns = turns.max(self.turns_left);
        let entries = entries.max(self.entries_left);
        let bytes = bytes.max(self.bytes_left);
        let all = (self.entries.len() as u64)
            .checked_add(entries)
            .ok_or(NoMemory)?;
        let numbers = all.checked_mul(MOST_NUMBERS).ok_or(NoMemory)? as usize - self.numbers.len();
        self.rows.try_reserve(turns as usize)?;
        self.entries.try_reserve(entries as usize)?;
        self.numbers.try_reserve(numbers)?;
        self.bytes.try_reserve(bytes as usize)?;
        self.turns_left = turns;
        self.entries_left = entries;
        self.bytes_left = bytes;
        Ok(())
    }

    /// Whether there is room for so many turns, entries and bytes of context.
    pub fn has_room(&self, turns: u64, entries: u64, bytes: u64) -> bool
        ensures { IsTrue result ↔ HasRoom self.now.room turns entries bytes }
    {
        turns <= self.turns_left && entries <= self.entries_left && bytes <= self.bytes_left
    }

    /// Begins a turn, which has no entries yet.
    /// By: no loop; condition: room for a turn.
    #[tactic(auto, using(std::proofs::lemmas::Grind::common_steps, crate::proofs::HistoryLemmas::lies_begun))]
    pub fn begin(&mut self, head: &TurnHead)
        requires { 1 ≤ self.old.room.turns }
        ensures turns { self.new.turns ≡ self.old.turns ++ begun head.now ∷ [] }
        ensures room { self.new.room ≡ room_after self.old.room 1 0 0 }
    {
        let place = self.entries.len();
        self.rows.push_reserved(TurnRow {
            head: *head,
            start: place,
            end: place,
        });
        self.turns_left -= 1;
    }

    /// Adds an entry to the last turn.
    /// Steps: the bytes of the context, and at most 5 numbers. By: read off; condition `room`.
    #[inline(always)]
    pub fn add(&mut self, entry: &Entry<Plain<'_>>)
        requires begun { 0 < length self.old.turns }
        requires room { HasRoom self.old.room 0 1 (length (kept_bytes (plain_entry entry.now))) }
        ensures turns { self.new.turns ≡ with_entry self.old.turns (plain_entry entry.now) }
        ensures room { self.new.room ≡ room_after self.old.room 0 1 (length (kept_bytes (plain_entry entry.now))) }
    {
        let bytes = entry.kept_bytes();
        let row = row_of(entry, self.bytes.len(), &mut self.numbers);
        self.entries.push_reserved(row);
        self.entries_left -= 1;
        let last = self.rows.len() - 1;
        self.rows[last].end += 1;
        put_bytes(&mut self.bytes, bytes);
        self.bytes_left -= bytes.len() as u64;
    }

    /// Empties it, and keeps its memory as room.
    /// Steps: the turns, entries, numbers and bytes that it holds. Memory: none, keeps its room. By: read off;
    /// `emptied`.
    #[tactic(auto, using(crate::proofs::HistoryLemmas::clearing))]
    pub fn clear(&mut self)
        ensures { self.new ≡ emptied self.old }
    {
        self.turns_left += self.rows.len() as u64;
        self.entries_left += self.entries.len() as u64;
        self.bytes_left += self.bytes.len() as u64;
        self.rows.clear();
        self.entries.clear();
        self.numbers.clear();
        self.bytes.clear();
    }

    /// How many turns there are.
    pub fn turns(&self) -> u64
        ensures { result ≡ length self.now.turns }
    {
        self.rows.len() as u64
    }

    /// How many entries all turns have.
    pub fn total_entries(&self) -> u64
        ensures { result ≡ length (entries_of self.now.turns) }
    {
        let _rows = &self.rows;
        self.entries.len() as u64
    }

    /// How many bytes of context all entries keep.
    pub fn bytes(&self) -> u64
        ensures { result ≡ length (context_bytes self.now.turns) }
    {
        let _rows = &self.rows;
        let _entries = &self.entries;
        self.bytes.len() as u64
    }

    /// What a turn began with. Turns count from 0.
    pub fn head(&self, turn: u64) -> TurnHead
        requires { turn < length self.now.turns }
        ensures { result ≡ (turn_at self.now.turns turn).head }
    {
        self.rows[turn as usize].head
    }

    /// How many entries a turn has.
    pub fn entries(&self, turn: u64) -> u64
        requires { turn < length self.now.turns }
        ensures { result ≡ length (turn_at self.now.turns turn).entries }
    {
        let row = &self.rows[turn as usize];
        (row.end - row.start) as u64
    }

    /// Entry `i` of a turn, from 0, with its context lent.
    /// Steps: constant; at most 4 numbers are copied. By: type `Numbers`; the context is lent.
    pub fn entry(&self, turn: u64, i: u64) -> Entry<Plain<'_>>
        requires turn { turn < length self.now.turns }
        requires entry { i < length (turn_at self.now.turns turn).entries }
        ensures { plain_entry result ≡ entry_at (turn_at self.now.turns turn) i }
    {
        let row = &self.rows[turn as usize];
        lent(
            &self.entries[row.start + i as usize],
            &self.numbers,
            &self.bytes,
        )
    }

    /// All turns, to go over once: cheaper than asking for each by its place.
    pub fn walk(&self) -> Walk<'_>
        ensures { result ≡ self.now.turns }
    {
        Walk {
            rows: &self.rows,
            entries: &self.entries,
            numbers: &self.numbers,
            bytes: &self.bytes,
        }
    }
}
