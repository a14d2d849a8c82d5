//! Where messages lie that stand one after the other, and of which instance they are.
ghost use Rattle.std.specs.Prelude.{◌≡◌, ℕ, ◌+◌, ◌<◌, ◌^◌, [], ◌∷◌, ◌++◌, List, length, slice_index, IfOk, OnOk};
ghost use Rattle.ids_frame.specs.{MessageParts, spelling};
ghost use Rattle.ids_reporter.specs.Sources.{IsIndexOf, end_of, instance_of};

use ids_frame::Message;
use ids_types::NoMemory;
use std::alloc::Global;

/// Of which instance the messages of a source are.
#[derive(Clone, Copy, Debug, PartialEq, Eq)]
pub enum Instance {
    /// There is no message.
    Empty,
    /// All are of this one, 0 to 1,023.
    One(u16),
    /// Two are of different ones.
    Mixed,
}

impl Instance {
    /// With one message more, of this instance.
    fn with(self, instance: u16) -> Instance
        ensures { (messages : List MessageParts) (m : MessageParts) → self ≡ instance_of messages → instance ≡ m.instance
            → result ≡ instance_of (messages ++ m ∷ []) }
    {
        match self {
            Instance::Empty => Instance::One(instance),
            Instance::One(one) if one == instance => self,
            _ => Instance::Mixed,
        }
    }
}

/// Where each message begins, then where the last one ends; and of which instance they are.
#[derive(Debug, Drop)]
pub(crate) struct Index {
    pub(crate) places: Vec<usize>,
    pub(crate) instance: Instance,
}

impl Index {
    /// Of no messages.
    pub(crate) fn make(alloc: Global) -> Result<Index, NoMemory>
        ensures { IfOk result (λ index. IsIndexOf index []) }
    {
        let mut places = Vec::new(alloc);
        places.push(0)?;
        Ok(Index {
            places,
            instance: Instance::Empty,
        })
    }

    /// Where message `i` begins, or the one before it ends.
    pub(crate) fn place(&self, i: usize) -> usize
        requires { i < length self.now.places.items }
        ensures { result ≡ slice_index self.now.places.items i }
    {
        self.places[i]
    }

    /// Adds the next message.
    pub(crate) fn add(&mut self, message: &Message<'_>) -> Result<(), NoMemory>
        requires some { 0 < length self.old.places.items }
        requires room { end_of self.old + length (spelling message.now) < 2 ^ 64 }
        ensures { (messages : List MessageParts) → IsIndexOf self.old messages
            → OnOk result (IsIndexOf self.new (messages ++ message.now ∷ [])) }
    {
        let end = self.place(self.places.len() - 1) + message.spelling_len() as usize;
        self.places.push(end)?;
        self.instance = self.instance.with(message.instance());
        Ok(())
    }
}
