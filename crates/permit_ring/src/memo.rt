//! What a slot holds, and what each seat and the keeper know of their ring. No value of a memo or
//! of a view is made: they are what contracts speak of.

use ring_core::{PermitWord, SeatView, Step};
use std::collections::LinkedList;

/// What the slot of a position holds.
#[derive(Drop)]
pub enum Slot<O, D> {
    Empty,
    Offered(O),
    Finished(D),
}

/// What is fixed when a ring is made.
#[derive(Clone, Copy)]
pub struct Key<T> {
    pub positions: u16,
    pub limit: u8,
    pub terms: T,
}

/// A step of the ring machine, with the number that it found in its word.
pub struct Move {
    pub step: Step,
    pub found: u64,
}

/// What became of a call: it found none free while so many were claimed, or it got a ticket and
/// finished it with a value of this note.
pub enum Outcome<N> {
    Lost(u64),
    Got(u64, N),
}

/// A rest of a seat, at which it was held by the keeper and then went on.
pub struct Rest {
    /// How many calls it had made.
    pub calls: u64,
    /// How many positions had been offered.
    pub offered: u64,
}

/// What a seat knows: its number, itself as the machine sees it, its decided calls, its moves and its rests.
pub struct SeatMemo<N> {
    pub number: u8,
    pub view: SeatView,
    pub log: LinkedList<Outcome<N>>,
    pub moves: LinkedList<Move>,
    pub rests: LinkedList<Rest>,
}

/// What the keeper knows.
pub struct KeeperMemo<N> {
    /// The notes of the tickets that were reaped.
    pub notes: LinkedList<N>,
    /// How many positions were offered: at first, and after each offer that succeeded.
    pub fronts: LinkedList<u64>,
    pub offered: u64,
    /// How many offer steps were made.
    pub offers: u64,
    /// The marks that were read.
    pub marks: LinkedList<u64>,
    /// The numbers that were swept, of both kinds of loss.
    pub swept0: LinkedList<u64>,
    pub swept1: LinkedList<u64>,
    /// The permit word that was last read or left.
    pub seen: PermitWord,
    /// How many seats were made.
    pub made: u8,
    /// For each of them, the memo with which it came back.
    pub back: LinkedList<Option<SeatMemo<N>>>,
    /// The memo of each seat that was released, as it then was.
    pub released: LinkedList<SeatMemo<N>>,
    pub moves: LinkedList<Move>,
}

/// What one of those who share a ring knows: a seat, the keeper, or a seat that ended.
pub enum View<T, N> {
    Sits(Key<T>, SeatMemo<N>),
    Keeps(Key<T>, KeeperMemo<N>),
    Spent,
}
