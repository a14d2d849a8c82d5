//! A source: the messages of one manager.
ghost use Rattle.std.specs.Prelude.{◌≡◌, ◌<◌, ◌≤◌, length, slice_range, IfOk};
ghost use Rattle.ids_frame.specs.Messages.{joined, messages_read};
ghost use Rattle.ids_reporter.specs.declared.source.SourceFault.TheVariants as faults;
ghost use Rattle.ids_reporter.specs.Sources.{IsRead, instance_of, spelling_at};

use crate::index::{Index, Instance};
use ids_frame::{BadMessage, Messages};
use std::alloc::Global;
use std::marker::Model;

/// Why bytes are no source.
#[derive(Clone, Copy, Debug, PartialEq, Eq)]
pub enum SourceFault {
    /// The first message that cannot be read: where it begins, and why.
    Bad(BadMessage),
    NoMemory,
}

impl From<BadMessage> for SourceFault {
    ghost from_gives = { λ bad fault. fault ≡ faults.Bad bad };

    fn from(bad: BadMessage) -> SourceFault {
        SourceFault::Bad(bad)
    }
}

impl From<ids_types::NoMemory> for SourceFault {
    ghost from_gives = { λ _ fault. fault ≡ faults.NoMemory };

    fn from(_: ids_types::NoMemory) -> SourceFault {
        SourceFault::NoMemory
    }
}

/// The messages that bytes are.
#[tactic(auto, using(std::proofs::lemmas::Grind::common_steps, std::proofs::lemmas::Grind::get_or_default_zero, crate::proofs::SourceLemmas::whole_of))]
fn messages_in(bytes: &[u8]) -> Result<Messages<'_>, BadMessage>
    ensures read { result ≡ messages_read bytes.now }
    ensures whole { IfOk result (λ messages. bytes.now ≡ joined messages) }
{
    Messages::read(bytes)
}

/// The bytes from `start` up to `end`.
fn part(bytes: &[u8], start: usize, end: usize) -> &[u8]
    requires { (start ≤ end) × (end ≤ length bytes.now) }
    ensures { result.now ≡ slice_range bytes.now start end }
{
    &bytes[start..end]
}

/// The messages of one manager, as bytes, with where each of them lies.
#[derive(Debug, Drop)]
pub struct Source {
    bytes: Vec<u8>,
    index: Index,
}

impl Model for Source {
    ghost use Rattle.std.specs.Prelude.{List};
    ghost use Rattle.ids_frame.specs.{MessageParts, messages_of};
    ghost use Rattle.ids_reporter.specs.Sources.{IsIndexed};

    ghost Value = { List MessageParts };

    ghost view = { λ s. messages_of s.bytes.items };

    ghost invariant = { λ s. IsIndexed s.bytes.items s.index (messages_of s.bytes.items) };
}

impl Source {
    /// The messages that these bytes are, one after the other. `Bad` comes exactly where they are no messages, or
    /// more than that; no bytes are no messages.
    /// Steps: each message read twice: all are judged before the first is listed. Memory: may answer want of memory.
    /// By: `IsRead`; read off.
    #[tactic(auto, using(crate::proofs::SourceLemmas::few_messages, crate::proofs::SourceLemmas::has_room, crate::proofs::SourceLemmas::whole_read))]
    pub fn read(alloc: Global, bytes: Vec<u8>) -> Result<Source, SourceFault>
        ensures read { IsRead (messages_read bytes.items) result }
        ensures few { IfOk result (λ source. length source ≤ length bytes.items) }
    {
        let mut messages = messages_in(&bytes)?;
        let mut index = Index::make(alloc)?;
        while let Some(message) = messages.pop_front() {
            index.add(&message)?;
        }
        Ok(Source { bytes, index })
    }

    /// How many messages there are.
    pub fn len(&self) -> u64
        ensures { result ≡ length self.now }
    {
        self.index.places.len() as u64 - 1
    }

    /// The bytes of message `i`, from 0.
    #[tactic(auto, using(std::proofs::lemmas::Grind::common_steps, crate::proofs::SourceLemmas::message_in))]
    pub fn message(&self, i: u64) -> &[u8]
        requires { i < length self.now }
        ensures { result.now ≡ spelling_at self.now i }
    {
        let i = i as usize;
        let start = self.index.place(i);
        let end = self.index.place(i + 1);
        part(&self.bytes, start, end)
    }

    /// Of which instance the messages are.
    pub fn instance(&self) -> Instance
        ensures { result ≡ instance_of self.now }
    {
        self.index.instance
    }

    /// How many bytes the messages have in all.
    pub(crate) fn size(&self) -> usize {
        self.bytes.len()
    }
}
