//! Units taken out of a stream that comes in pieces.

ghost use Rattle.std.specs.Prelude.{◌≡◌, ◌+◌, ◌-◌, ◌≤◌, ◌<◌, ◌++◌, [], ℕ, List, length, take, IfOk, vec_len, vec_capacity};
ghost use Rattle.ids_bundle.specs.Units.{Run, IsPart, unit_size};
ghost use Rattle.ids_bundle.specs.Stream.{Place, within, Call, AreCalls, Feeds, Takes, StandsFor, body, end_of, given_by, pending, used_by, IsSound, place_by};

use crate::unit::{HEAD, is_unit, unit_size};
use ids_types::NoMemory;
use std::alloc::Global;
use std::marker::Model;

/// How many bytes a unit has at most.
const MOST_BYTES: usize = HEAD + 0xffff;

/// What became of a piece of a stream.
#[derive(Clone, Copy, Debug, PartialEq, Eq)]
pub enum Fed {
    /// All of it was used, and no unit is whole.
    More,
    /// A unit is whole with the first `used` bytes of the piece. The others are still to be fed.
    Unit { used: usize },
    /// The stream stops: what would be the next unit is none.
    Bad,
}

#[derive(Clone, Copy, Debug, PartialEq, Eq)]
enum State {
    /// The held bytes are too few for a unit.
    Within,
    /// The held bytes are the last unit.
    Behind,
    /// The held bytes are whole and no unit.
    Stopped,
}

/// Takes the units out of a stream, one at a time, however the stream is cut into pieces.
#[derive(Debug, Drop)]
pub struct Unpacker {
    held: Vec<u8>,
    state: State,
}

impl Model for Unpacker {
    ghost use Rattle.ids_bundle.specs.Stream.{Place, place_of, IsSound};

    ghost Value = { Place };

    ghost view = { place_of };

    ghost invariant = { IsSound };
}

impl Unpacker {
    /// An unpacker at the start of a stream, with room for the largest unit: 65,539 bytes.
    /// Memory: made once: 65,539 bytes.
    pub fn make(alloc: Global) -> Result<Unpacker, NoMemory>
        ensures { IfOk result (λ unpacker. unpacker ≡ within []) }
    {
        Ok(Unpacker {
            held: Vec::with_capacity(alloc, MOST_BYTES)?,
            state: State::Within,
        })
    }

    /// Takes bytes of the next piece until a unit is whole. It takes no memory. After a `Bad` every call answers
    /// `Bad` and uses nothing.
    /// Steps: the bytes of the piece up to the end of a unit, and its messages once. By: answer `Fed`, no NoMemory;
    /// read off.
    pub fn feed(&mut self, piece: &[u8]) -> Fed
        ensures { (used : ℕ) × Feeds self.old piece.now result used self.new }
    {
        match self.state {
            State::Within => {}
            State::Behind => self.held.clear(),
            State::Stopped => return Fed::Bad,
        }
        let (fed, state) = take(&mut self.held, piece);
        self.state = state;
        fed
    }

    /// The messages of the unit that the last `feed` gave, joined; empty where it gave none.
    pub fn body(&self) -> &[u8]
        ensures { result.now ≡ body self.now }
    {
        match self.state {
            State::Behind => &self.held[HEAD..],
            State::Within | State::Stopped => &[],
        }
    }

    /// How many bytes were used since the last unit.
    pub fn pending(&self) -> usize
        ensures { result ≡ length (pending self.now) }
    {
        match self.state {
            State::Within | State::Stopped => self.held.len(),
            State::Behind => 0,
        }
    }
}

/// Takes bytes of the piece until a unit is whole, and tells what the held bytes are then.
#[tactic(auto, using(crate::proofs::UnpackLemmas::is_seen))]
fn take(held: &mut Vec<u8>, piece: &[u8]) -> (Fed, State)
    requires part { IsPart held.old.items }
    requires room { 65539 ≤ vec_capacity held.old }
    ensures takes { (used : ℕ)
        × Takes held.old.items piece.now result.0 used (place_by result.1 held.new.items) }
    ensures sound { IsSound (record { held = held.new; state = result.1 }) }
{
    let used = fill(held, piece);
    if held.len() < unit_size(held) {
        (Fed::More, State::Within)
    } else if is_unit(held) {
        (Fed::Unit { used }, State::Behind)
    } else {
        (Fed::Bad, State::Stopped)
    }
}

/// Takes bytes of the piece until the held ones are as many as their unit has, and tells how many it took.
fn fill(held: &mut Vec<u8>, piece: &[u8]) -> usize
    requires part { IsPart held.old.items }
    requires room { 65539 ≤ vec_capacity held.old }
    ensures within { result ≤ length piece.now }
    ensures taken { held.new.items ≡ held.old.items ++ take result piece.now }
    ensures most { length held.new.items ≤ unit_size held.new.items }
    ensures all { length held.new.items < unit_size held.new.items → result ≡ length piece.now }
    ensures room_after { 65539 ≤ vec_capacity held.new }
{
    let head = fill_to(held, HEAD, piece);
    let size = unit_size(held);
    head + fill_to(held, size, &piece[head..])
}

/// Takes bytes of the piece until the held ones are so many, if they are fewer.
fn fill_to(held: &mut Vec<u8>, size: usize, piece: &[u8]) -> usize
    requires { size ≤ vec_capacity held.old }
    ensures within { result ≤ length piece.now }
    ensures taken { held.new.items ≡ held.old.items ++ take result piece.now }
    ensures most { 0 < result → length held.new.items ≤ size }
    ensures all { length held.new.items < size → result ≡ length piece.now }
    ensures room { vec_capacity held.old ≤ vec_capacity held.new }
{
    let wanted = size.saturating_sub(held.len()).min(piece.len());
    held.extend_from_slice(&piece[..wanted]).unwrap();
    wanted
}

/// However a stream was cut into pieces, the units given are its first ones, in their order, and what is pending
/// stands after them; it stops at the first that is whole and no unit.
#[tactic(auto, using(crate::proofs::UnpackLemmas::any_pieces_lem))]
pub fn any_pieces()
    ensures { (calls : List Call) → AreCalls (within []) calls
        → StandsFor (end_of (within []) calls) (used_by calls) (given_by calls) }
{}

/// A stream has its units and what is pending after them in one way, so it is all the same how it was cut.
#[tactic(auto, using(crate::proofs::UnpackLemmas::one_reading_lem))]
pub fn one_reading()
    ensures { (p q : Place) (stream : List ℕ) (runs others : List Run) → StandsFor p stream runs
        → StandsFor q stream others → (runs ≡ others) × (pending p ≡ pending q) }
{}
