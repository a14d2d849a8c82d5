//! The queue's rule, and what its passes know by it.

use crossbeam_queue::protocol::{Join, Lesson, Outcome, Protocol, Split};
use crossbeam_queue::{Pass, RuledArrayQueue};
use std::collections::LinkedList;

/// What passes through the queue: message `index` of source `source`, both from 0.
#[derive(Clone, Copy, Debug, PartialEq, Eq)]
pub struct Taken {
    pub source: u8,
    pub index: u64,
}

/// What a pass knows. No value of it is made.
pub enum Known {
    /// A feeder that was welcomed back knows nothing.
    Nothing,
    /// A feeder knows its number, and how many pairs it put.
    Feeds(u8, u64),
    /// The drain knows how many feeders were made, the pairs that it took, and the feeders that are back, each with
    /// how many pairs it put.
    Drains(u8, LinkedList<Taken>, LinkedList<(u8, u64)>),
}

pub(crate) type Line = RuledArrayQueue<Taken, Known, InTurn>;

pub(crate) type Knower = Pass<Taken, Known>;

/// Each feeder's pairs come one after the other.
pub(crate) struct InTurn;

impl Protocol<Taken, Known> for InTurn {
    ghost use Rattle.std.specs.Prelude.{[]};
    ghost use Rattle.ids_reporter.specs.declared.rule.Known.TheVariants.{Drains};
    ghost use Rattle.ids_reporter.specs.Rule.{IsRelayed};

    ghost holds = { IsRelayed };

    ghost first = { Drains 0 [] [] };
}

/// A put.
pub(crate) struct Puts;

impl Outcome<Taken, Known> for Puts {
    ghost use Rattle.ids_reporter.specs.Rule.{HasPut};

    ghost then = { HasPut };
}

impl Lesson<Taken, Known> for Puts {
    ghost use Rattle.std.specs.Prelude.{⊤};

    ghost fact = { λ v items. ⊤ };
}

/// A take, and what the drain learns of the queue.
pub(crate) struct Takes;

impl Outcome<Taken, Known> for Takes {
    ghost use Rattle.ids_reporter.specs.Rule.{HasTaken};

    ghost then = { HasTaken };
}

impl Lesson<Taken, Known> for Takes {
    ghost use Rattle.ids_reporter.specs.Rule.{AddsUp};

    ghost fact = { AddsUp };
}

/// The drain makes the next feeder, and takes a feeder back.
pub(crate) struct Feeds;

impl Split<Known> for Feeds {
    ghost use Rattle.ids_reporter.specs.Rule.{with_feeder, new_feeder};

    ghost left = { with_feeder };

    ghost right = { new_feeder };
}

impl Join<Known> for Feeds {
    ghost use Rattle.ids_reporter.specs.declared.rule.Known.TheVariants.{Nothing};
    ghost use Rattle.ids_reporter.specs.Rule.{with_back};

    ghost both = { with_back };

    ghost spent = { Nothing };
}
