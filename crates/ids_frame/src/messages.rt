//! Many messages, one after the other.
ghost use Rattle.std.specs.Prelude.{◌≡◌, ℕ, ◌∷◌, [], List, IfSome, IfNone, ◌↔◌};
ghost use Rattle.ids_frame.specs.{AreBytes, FitsMessage, Held, Holds, messages_read};

use crate::decoding::message_of;
use crate::fault::BadMessage;
use crate::message::Message;
use std::marker::Model;

/// Messages that stand one after the other in bytes, and are still to be taken. Each is read where
/// it lies, as it is taken; no memory is needed.
#[derive(Debug, Drop)]
pub struct Messages<'a> {
    bytes: &'a [u8],
}

impl<'a> Model for Messages<'a> {
    ghost use Rattle.std.specs.Prelude.{List};
    ghost use Rattle.ids_frame.specs.Message.{MessageParts};
    ghost use Rattle.ids_frame.specs.Messages.{HasMessages, messages_of};

    ghost Value = { List MessageParts };

    ghost view = { λ m. messages_of m.bytes.now };

    ghost invariant = { λ m. HasMessages m.bytes.now };
}

impl<'a> Messages<'a> {
    /// The messages of these bytes, where the bytes are messages and nothing else. No bytes are no
    /// messages. Otherwise the answer is the place and the fault of the first that cannot be read.
    /// Steps: the messages, each of 8 bytes or more; context and signature are passed over. By: read off; answer
    /// `BadMessage`, no NoMemory.
    #[tactic(auto, using(crate::proofs::MessagesLemmas::going_over))]
    pub fn read(bytes: &'a [u8]) -> Result<Messages<'a>, BadMessage>
        ensures value { result ≡ messages_read bytes.now }
    {
        let mut rest = bytes;
        while !rest.is_empty() {
            match message_of(rest) {
                Ok((_, behind)) => rest = behind,
                Err(fault) => {
                    let at = bytes.len() - rest.len();
                    return Err(BadMessage { at, fault });
                }
            }
        }
        Ok(Messages { bytes })
    }

    /// Takes the first message out.
    /// By: no loop; context and signature are lent.
    #[tactic(auto, using(crate::proofs::MessagesLemmas::taking_out))]
    pub fn pop_front(&mut self) -> Option<Message<'a>>
        ensures some { IfSome result (λ m. self.old ≡ m ∷ self.new) }
        ensures none { IfNone result (self.old ≡ []) }
        ensures same { IfNone result (self.new ≡ self.old) }
        ensures fits { IfSome result FitsMessage }
    {
        match message_of(self.bytes) {
            Ok((message, rest)) => {
                self.bytes = rest;
                Some(message)
            }
            Err(_) => None,
        }
    }
}

/// A file holds messages exactly where it is their spellings one after the other, and a fault
/// exactly where the messages stop at it.
#[tactic(auto, using(crate::proofs::MessagesLemmas::read_is_held))]
pub fn what_a_file_holds()
    ensures { (bytes : List ℕ) (held : Held) → AreBytes bytes →
        (messages_read bytes ≡ held) ↔ Holds bytes held }
{}
