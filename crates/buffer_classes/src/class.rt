//! The classes of context data buffers, each a ring of its own.
ghost use Rattle.std.specs.Prelude.{◌≡◌};
ghost use Rattle.buffer_classes.specs.{class_sizes, first_fitting, IsBufferOf, no_note, admits_all};

use crate::buffer::CtxBuf;
use permit_ring::{Freight, Ring};

/// What is fixed for the ring of a class: its place among the classes, and the size of its buffers.
#[derive(Clone, Copy, Debug, PartialEq, Eq)]
pub struct ClassTerms {
    pub class: u8,
    pub size: u16,
}

/// What the ring of a class carries: a slot offers a buffer, and the claim that takes it out finishes at once
/// with nothing. It has no values.
pub struct Buffers;

impl Freight for Buffers {
    type Offered = CtxBuf;

    type Finished = ();

    type Terms = ClassTerms;

    type Note = ();

    ghost note = { no_note };

    ghost admits_offered = { IsBufferOf };

    ghost admits_note = { admits_all };
}

/// Buffers of one size.
#[derive(Drop)]
pub struct Class {
    pub(crate) size: u16,
    pub(crate) ring: Ring<Buffers>,
}

/// The classes of context data buffers, by rising size, which all callers and the one who takes share.
#[derive(Drop)]
pub struct Classes {
    pub(crate) classes: Vec<Class>,
}

impl Classes {
    // The first class whose buffers hold so many bytes, or their number where none does.
    pub(crate) fn first_fitting(&self, len: u64) -> usize
        ensures { result ≡ first_fitting len (class_sizes self.now) }
    {
        for class in 0..self.classes.len() {
            if self.classes[class].size as u64 >= len {
                return class;
            }
        }
        self.classes.len()
    }
}
