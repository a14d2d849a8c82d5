//! Who is shown each turn before a chain takes its items.

ghost use Rattle.std.specs.Prelude.{⊤};
ghost use Rattle.ids_types.specs.{Turn};
ghost use Rattle.filter_chain.specs.Turning.{turn_by};

use ids_types::{Entry, Parcel, TurnHead};

/// A log, which is shown each turn before the chain takes its items. It takes no part in the turn.
pub trait Log<B: Parcel> {
    /// What being shown this turn makes of it.
    ghost noted: { Self → Turn → Self → Type 0 };

    /// Takes note of a turn. No condition: a log can never stop a turn, and `noted` says what it missed.
    /// Steps: as its log; `Unlogged`: constant. Memory: as its log; `Unlogged`: none. Waits: as its log; `Unlogged`: no.
    /// By: no answer; no condition.
    fn note(&mut self, head: &TurnHead, items: &[Entry<B>])
        ensures { noted self.old (turn_by B.held head.now items.now) self.new };
}

/// No log: nothing is kept of a turn.
#[derive(Debug, Drop)]
pub struct Unlogged;

impl<B: Parcel> Log<B> for Unlogged {
    ghost noted = { λ old turn new. ⊤ };

    fn note(&mut self, _head: &TurnHead, _items: &[Entry<B>]) {}
}
