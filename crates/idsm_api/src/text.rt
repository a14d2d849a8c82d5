//! The lines of the last turn.
ghost use Rattle.std.specs.Prelude.{◌≡◌, [], IfOk};
ghost use Rattle.filter_chain.specs.Turning.{turn_by};
ghost use Rattle.idsm_api.specs.Text.{IsNewText, LinesTell, Notes, PartTells, Prints};

use crate::answer::Answer;
use crate::number::{NumberAnswer, told, untold};
use crate::writing::put;
use filter_chain::Log;
use ids_config::ConfigParts;
use ids_types::{Entry, NoMemory, Parcel, TurnHead};
use journal::{most_of_a_turn, push_items, turn_fits};
use std::alloc::Global;

/// The lines of the last turn as a journal has them, if they were asked for.
#[derive(Drop)]
pub struct TurnText {
    pub(crate) asked: bool,
    /// There was no room for the lines of the last turn.
    pub(crate) missed: bool,
    pub(crate) text: Vec<u8>,
}

impl TurnText {
    /// No lines yet. Room is taken if they are asked for.
    pub(crate) fn make(alloc: Global, asked: bool, room: u64) -> Result<TurnText, NoMemory>
        ensures { IfOk result (IsNewText asked) }
    {
        let room = if asked { room } else { 0 };
        Ok(TurnText {
            asked,
            missed: false,
            text: Vec::with_capacity(alloc, room as usize)?,
        })
    }

    /// The lines.
    pub(crate) fn lines(&self) -> Result<&[u8], Answer>
        ensures { LinesTell self.now result }
    {
        match (self.asked, self.missed) {
            (false, _) => Err(Answer::OutOfRange),
            (true, true) => Err(Answer::SmallBuffer),
            (true, false) => Ok(&self.text),
        }
    }

    /// Writes as many bytes of the lines as fit, from byte `at` on, and answers how many.
    pub(crate) fn put_part(&self, at: u64, buffer: &mut [u8]) -> NumberAnswer
        ensures { PartTells self.now at buffer.old result.answer result.number buffer.new }
    {
        match self.lines() {
            Ok(lines) => {
                let from = (at as usize).min(lines.len());
                let part = &lines[from..];
                let part = &part[..part.len().min(buffer.len())];
                put(part, buffer);
                told(part.len() as u64)
            }
            Err(refusal) => untold(refusal),
        }
    }
}

impl<B: Parcel> Log<B> for TurnText {
    ghost noted = { Notes };

    /// Takes no memory: a turn whose lines may be longer than the room is missed.
    fn note(&mut self, head: &TurnHead, items: &[Entry<B>]) {
        if self.asked {
            self.text.clear();
            self.missed = !prints(&mut self.text, head, items);
        }
    }
}

/// Prints the lines of a turn to a text without any, if its room is enough whatever their numbers are.
fn prints<B: Parcel>(text: &mut Vec<u8>, head: &TurnHead, items: &[Entry<B>]) -> bool
    requires { text.old.items ≡ [] }
    ensures { Prints (turn_by B.held head.now items.now) text.old text.new result }
{
    turn_fits(items, text.capacity() as u64) && push_items(text, head, items).is_ok()
}

/// How many bytes the lines of a turn have at most, if each context data buffer is in it once.
pub(crate) fn room_for(config: &ConfigParts) -> u64 {
    let (mut largest, mut together) = (0, 0u64);
    for (size, number) in &config.classes {
        largest = *size;
        together = together.saturating_add(size.saturating_mul(*number));
    }
    let bytes = together.min(largest.saturating_mul(config.ring));
    most_of_a_turn(config.ring, config.classes.len() as u64, bytes)
}
