//! The output of a turn: its messages.

ghost use Rattle.std.specs.Prelude.{◌≡◌, ◌<◌, ◌≤◌, ◌-◌, ◌^◌, length, IfOk};
ghost use Rattle.ids_types.specs.{empty_output, has_ended, has_put, has_sent, without_messages};

use crate::memory::NoMemory;
use crate::placing::put_bytes;
use std::alloc::Global;
use std::marker::Model;

/// What one turn of the main function gives: the messages that it sent.
///
/// All memory is taken when it is made, and serves one turn after another.
#[derive(Debug, Drop)]
pub struct TurnOut {
    sent: Vec<u8>,
    messages: u32,
    sent_left: u64,
}

impl Model for TurnOut {
    ghost use Rattle.ids_types.specs.Output.{Output};

    ghost Value = { Output };

    ghost use Rattle.ids_types.specs.Output.{output_of, IsSoundOutput};

    ghost view = { output_of };

    ghost invariant = { IsSoundOutput };
}

impl TurnOut {
    /// An empty one with room for so many bytes of messages.
    /// Steps: constant; one request. Memory: made once. By: no loop; no other call of it answers NoMemory.
    pub fn make(alloc: Global, sent: u64) -> Result<TurnOut, NoMemory>
        ensures { IfOk result (λ out. out ≡ empty_output sent) }
    {
        Ok(TurnOut {
            sent: Vec::with_capacity(alloc, sent as usize)?,
            messages: 0,
            sent_left: sent,
        })
    }

    /// The messages that were sent, one after the other.
    pub fn sent(&self) -> &[u8]
        ensures { result.now ≡ self.now.sent }
    {
        &self.sent
    }

    /// How many messages were sent.
    pub fn messages(&self) -> u32
        ensures { result ≡ self.now.messages }
    {
        self.messages
    }

    /// Lets its messages go, and keeps their room.
    /// Steps: the bytes of the messages. Memory: none, keeps its room. By: `without_messages`; read off.
    pub fn clear_messages(&mut self)
        ensures { self.new ≡ without_messages self.old }
    {
        self.sent_left += self.sent.len() as u64;
        self.sent.clear();
        self.messages = 0;
    }

    /// Adds a message.
    /// Steps: the bytes of the message. By: read off; condition `room`.
    pub fn send(&mut self, message: &[u8])
        requires room { length message.now ≤ self.old.sent_left }
        requires few { self.old.messages < 2 ^ 32 - 1 }
        ensures { self.new ≡ has_sent message.now self.old }
    {
        self.put(message);
        self.end_message();
    }

    /// Adds a piece of a message.
    /// Steps: the bytes of the piece. By: `has_put`; condition: room for it; read off.
    pub fn put(&mut self, piece: &[u8])
        requires { length piece.now ≤ self.old.sent_left }
        ensures { self.new ≡ has_put piece.now self.old }
    {
        put_bytes(&mut self.sent, piece);
        self.sent_left -= piece.len() as u64;
    }

    /// Ends a message, of which all pieces were put.
    pub fn end_message(&mut self)
        requires { self.old.messages < 2 ^ 32 - 1 }
        ensures { self.new ≡ has_ended self.old }
    {
        self.messages += 1;
    }
}
