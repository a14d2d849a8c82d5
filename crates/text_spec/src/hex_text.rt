//! Bytes as hexadecimal digits that are still to be decoded.

ghost use Rattle.std.specs.Prelude.{◌≡◌, ◌≤◌};
ghost use Rattle.text_spec.specs.{length, take, drop, some_hex};

use crate::hexadecimal::{are_lower_digits, put_bytes};
use std::marker::Model;

/// A byte or more as a word of lower-case hexadecimal, not decoded yet: the word is lent, however long
/// it is.
#[derive(Debug, Drop)]
pub struct HexText<'a> {
    digits: &'a [u8],
}

impl<'a> Model for HexText<'a> {
    ghost use Rattle.std.specs.Prelude.{ℕ, List};

    ghost Value = { List ℕ };

    ghost use Rattle.text_spec.specs.Hexadecimal.{lent_bytes, IsText};

    ghost view = { lent_bytes };

    ghost invariant = { IsText };
}

#[tactic(auto, using(crate::proofs::HexadecimalLemmas::readings))]
impl<'a> HexText<'a> {
    /// The bytes that the word writes, `None` where it is no text of a byte or more.
    /// Steps: the bytes of the word. By: read off; the word is lent.
    pub fn of(word: &'a [u8]) -> Option<HexText<'a>>
        ensures { result ≡ some_hex word.now }
    {
        if word.is_empty() || word.len() % 2 == 1 || !are_lower_digits(word) {
            return None;
        }
        Some(HexText { digits: word })
    }

    /// How many bytes there are.
    pub fn len(&self) -> usize
        ensures { result ≡ length self.now }
    {
        self.digits.len() / 2
    }

    /// Decodes the bytes into the front of `room`, and returns how many they are.
    /// Steps: the bytes that it writes. By: `count`; read off; condition: room for them.
    #[inline(always)]
    pub fn decode(&self, room: &mut [u8]) -> usize
        requires { length self.now ≤ length room.old }
        ensures count { result ≡ length self.now }
        ensures bytes { take result room.new ≡ self.now }
        ensures rest { drop result room.new ≡ drop result room.old }
        ensures same { length room.new ≡ length room.old }
    {
        put_bytes(self.digits, room);
        self.len()
    }
}
