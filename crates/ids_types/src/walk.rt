//! Going over a history once, from its first turn to its last.

ghost use Rattle.std.specs.Prelude.{◌≡◌, ◌+◌, ◌≤◌, [], ◌∷◌, ◌++◌, length, map, IfSome, IfNone, vec_len, vec_capacity};
ghost use Rattle.ids_types.specs.Plain.{plain_entry};

use crate::entry::{Entry, TurnHead};
use crate::parcel::Plain;
use crate::placing::{lent, put_rows};
use crate::rows::{EntryRow, TurnRow};
use std::marker::Model;

/// The turns of a history that are left to go over.
#[derive(Debug, Drop)]
pub struct Walk<'a> {
    pub(crate) rows: &'a [TurnRow],
    pub(crate) entries: &'a [EntryRow],
    pub(crate) numbers: &'a [u64],
    pub(crate) bytes: &'a [u8],
}

impl<'a> Model for Walk<'a> {
    ghost use Rattle.std.specs.Prelude.{List};
    ghost use Rattle.ids_types.specs.Turns.{Turn};

    ghost Value = { List Turn };

    ghost use Rattle.ids_types.specs.Views.{turns_left, IsWalk};

    ghost view = { turns_left };

    ghost invariant = { IsWalk };
}

impl<'a> Walk<'a> {
    /// Takes the first turn: what it began with, and its entries to go over.
    /// By: no loop; the entries are lent.
    #[inline(always)]
    pub fn pop_front(&mut self) -> Option<(TurnHead, EntryWalk<'a>)>
        ensures some { IfSome result (λ turn.
            self.old ≡ record { head = turn.0; entries = turn.1 } ∷ self.new) }
        ensures none { IfNone result (self.old ≡ []) }
        ensures same { IfNone result (self.new ≡ self.old) }
    {
        match self.rows {
            [] => None,
            [row, rest @ ..] => {
                let entries = &self.entries[row.start..row.end];
                self.rows = rest;
                let walk = EntryWalk {
                    rows: entries,
                    numbers: self.numbers,
                    bytes: self.bytes,
                };
                Some((row.head, walk))
            }
        }
    }
}

/// The entries of a turn that are left to go over.
#[derive(Debug, Drop)]
pub struct EntryWalk<'a> {
    rows: &'a [EntryRow],
    numbers: &'a [u64],
    bytes: &'a [u8],
}

impl<'a> Model for EntryWalk<'a> {
    ghost use Rattle.std.specs.Prelude.{ℕ, List};
    ghost use Rattle.ids_types.specs.declared.entry.Entry.{Entry};

    ghost Value = { List (Entry (List ℕ)) };

    ghost use Rattle.ids_types.specs.Views.{entries_left, IsEntryWalk};

    ghost view = { entries_left };

    ghost invariant = { IsEntryWalk };
}

impl<'a> EntryWalk<'a> {
    /// How many entries are left.
    pub fn len(&self) -> usize
        ensures { result ≡ length self.now }
    {
        let _bytes = self.bytes;
        self.rows.len()
    }

    /// Takes the first entry, with its context lent.
    /// Steps: constant; at most 4 numbers are copied. By: type `Numbers`; the context is lent.
    #[inline(always)]
    pub fn pop_front(&mut self) -> Option<Entry<Plain<'a>>>
        ensures some { IfSome result (λ entry. self.old ≡ plain_entry entry ∷ self.new) }
        ensures none { IfNone result (self.old ≡ []) }
        ensures same { IfNone result (self.new ≡ self.old) }
    {
        match self.rows {
            [] => None,
            [row, rest @ ..] => {
                self.rows = rest;
                Some(lent(row, self.numbers, self.bytes))
            }
        }
    }

    /// Puts the entries that are left after the items.
    /// Steps: the entries; at most 4 numbers of each are copied. By: read off; condition: room for them.
    #[inline(never)]
    pub fn put_after(self, items: &mut Vec<Entry<Plain<'a>>>)
        requires { vec_len items.old + length self ≤ vec_capacity items.old }
        ensures items { map plain_entry items.new.items ≡ map plain_entry items.old.items ++ self.entry }
        ensures capacity { vec_capacity items.new ≡ vec_capacity items.old }
    {
        put_rows(self.rows, self.numbers, self.bytes, items);
    }
}
