//! Timestamps, read and written.

ghost use Rattle.std.specs.Prelude.{◌≡◌, ◌<◌, ◌^◌, ◌≤◌, ◌++◌, ◌+◌};
ghost use Rattle.text_spec.specs.{Appends, Written, ℕ, List, Option, OnOk, OnErr, length, vec_len, vec_capacity, option_and_then, option_map, stamp_in, stamp_text, stamp_of_bytes, hex_in, Stamp};

use crate::hexadecimal::{are_lower_digits, push_hex, put_bytes, put_hex};
use ids_types::{NoMemory, Stamp};

/// The optional timestamp that the word writes, `None` where it is no text of one.
/// Steps: at most 16 digits; a longer word is refused by its length. By: read off.
#[inline(always)]
pub fn stamp(word: &[u8]) -> Option<Option<Stamp>>
    ensures { result ≡ stamp_in word.now }
{
    match word {
        [b'-'] => Some(None),
        _ => Some(Some(stamp_of_digits(word)?)),
    }
}

/// The timestamp of sixteen digits.
#[inline(never)]
#[tactic(auto, using(crate::proofs::HexadecimalLemmas::readings))]
fn stamp_of_digits(word: &[u8]) -> Option<Stamp>
    ensures { option_map Some result ≡ option_and_then stamp_of_bytes (hex_in word.now) }
{
    if word.len() != 16 || !are_lower_digits(word) {
        return None;
    }
    let mut bytes = [0; 8];
    put_bytes(word, &mut bytes);
    Some(Stamp(u64::from_be_bytes(bytes)))
}

/// Appends the text of the optional timestamp.
/// Steps: at most 16 digits. Memory: may answer want of memory, only where the room is short. By: `added`; read off.
pub fn push_stamp(out: &mut Vec<u8>, stamp: Option<Stamp>) -> Result<(), NoMemory>
    ensures added { Appends out.old out.new result (stamp_text stamp) }
    ensures err { OnErr result (out.new.items ≡ out.old.items) }
{
    match stamp {
        None => Ok(out.push(b'-')?),
        Some(stamp) => push_hex(out, &stamp.0.to_be_bytes()),
    }
}

/// How many bytes the text of the optional timestamp has.
#[tactic(auto, using(crate::proofs::HexadecimalLemmas::length_hex))]
pub(crate) fn stamp_len(stamp: Option<Stamp>) -> usize
    ensures value { result ≡ length (stamp_text stamp) }
    ensures few { result ≤ 16 }
{
    match stamp {
        None => 1,
        Some(_) => 16,
    }
}

/// Writes the text of the optional timestamp into room that is there.
#[tactic(auto, using(crate::proofs::HexadecimalLemmas::length_hex))]
pub(crate) fn put_stamp(out: &mut Vec<u8>, stamp: Option<Stamp>)
    requires { vec_len out.old + length (stamp_text stamp) ≤ vec_capacity out.old }
    ensures { Written out.old out.new (stamp_text stamp) }
{
    match stamp {
        None => out.push_reserved(b'-'),
        Some(stamp) => put_hex(out, &stamp.0.to_be_bytes()),
    }
}

/// An optional timestamp has one text, which is read as it.
pub fn one_text_for_a_stamp()
    ensures absent { stamp_in (stamp_text None) ≡ Some None }
    ensures read { (n : ℕ) → n < 2 ^ 64 →
        let stamp : Option Stamp = Some (record { 0 = n }) in
        stamp_in (stamp_text stamp) ≡ Some stamp }
    ensures only { (word : List ℕ) (stamp : Option Stamp) → stamp_in word ≡ Some stamp →
        stamp_text stamp ≡ word }
{}
