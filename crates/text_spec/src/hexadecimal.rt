//! Bytes to lower-case hexadecimal digits and back.

ghost use Rattle.std.specs.Prelude.{◌≡◌, ◌/◌, ◌%◌, ◌<◌, ◌≤◌, ◌++◌, ◌*◌, ◌∷◌, ◌+◌};
ghost use Rattle.text_spec.specs.{Appends, Written, ℕ, List, length, take, drop, IsTrue, OnOk, OnErr, [], vec_len, vec_capacity, slice_index, list_all, IsBytes, encode_lower, lower_digits, bytes_word, hex_in, is_lower_digit as writes_digit, IsWritten};

use ids_types::NoMemory;

/// Decodes pairs of digits into the front of `room`. That they are digits is not looked at again.
#[tactic(auto, using(crate::proofs::HexadecimalLemmas::rooms))]
pub(crate) fn put_bytes(digits: &[u8], room: &mut [u8])
    requires digits { IsTrue (list_all writes_digit digits.now) }
    requires pairs { length digits.now % 2 ≡ 0 }
    requires fits { length digits.now / 2 ≤ length room.old }
    ensures bytes { hex_in digits.now ≡ Some (take (length digits.now / 2) room.new) }
    ensures rest { drop (length digits.now / 2) room.new ≡ drop (length digits.now / 2) room.old }
    ensures same { length room.new ≡ length room.old }
{
    for i in 0..digits.len() / 2 {
        room[i] = byte_of(digits[2 * i], digits[2 * i + 1]);
    }
}

/// The byte that two digits write.
fn byte_of(high: u8, low: u8) -> u8
    requires high { IsTrue (writes_digit high) }
    requires low { IsTrue (writes_digit low) }
    ensures { IsWritten result high low }
{
    value_of(high) * 16 + value_of(low)
}

/// The value of a digit.
fn value_of(digit: u8) -> u8
    requires { IsTrue (writes_digit digit) }
    ensures small { result < 16 }
    ensures written { slice_index lower_digits result ≡ digit }
{
    if digit < b'a' {
        digit - b'0'
    } else {
        digit - b'a' + 10
    }
}

/// Appends the text of the bytes.
/// Steps: two digits a byte. Memory: may answer want of memory, only where the room is short. By: `added`; read off.
#[tactic(auto, using(crate::proofs::HexadecimalLemmas::length_hex, std::proofs::lemmas::Grind::common_steps))]
pub fn push_hex(out: &mut Vec<u8>, bytes: &[u8]) -> Result<(), NoMemory>
    ensures added { Appends out.old out.new result (encode_lower bytes.now) }
    ensures err { OnErr result (out.new.items ≡ out.old.items) }
{
    out.reserve(2 * bytes.len())?;
    put_hex(out, bytes);
    Ok(())
}

/// Appends the word of the bytes: `-` where there are none.
/// Steps: two digits a byte. Memory: may answer want of memory. By: read off.
pub fn push_bytes(out: &mut Vec<u8>, bytes: &[u8]) -> Result<(), NoMemory>
    ensures { OnOk result (out.new.items ≡ out.old.items ++ bytes_word bytes.now) }
{
    match bytes {
        [] => Ok(out.push(b'-')?),
        _ => push_hex(out, bytes),
    }
}

/// Writes the text of the bytes into room that is there, that of eight bytes at a time.
#[tactic(auto, using(crate::proofs::HexadecimalLemmas::writings))]
pub(crate) fn put_hex(out: &mut Vec<u8>, bytes: &[u8])
    requires { vec_len out.old + 2 * length bytes.now ≤ vec_capacity out.old }
    ensures { Written out.old out.new (encode_lower bytes.now) }
{
    for k in 0..bytes.len() / 8 {
        put_eight(out, &bytes[8 * k..8 * k + 8]);
    }
    put_each(out, &bytes[bytes.len() / 8 * 8..]);
}

/// Writes the text of eight bytes. By its test, which always passes, the compiler knows that nothing has to grow.
#[inline(always)]
fn put_eight(out: &mut Vec<u8>, bytes: &[u8])
    requires eight { length bytes.now ≡ 8 }
    requires room { vec_len out.old + 16 ≤ vec_capacity out.old }
    ensures { Written out.old out.new (encode_lower bytes.now) }
{
    if out.capacity() - out.len() >= 16 {
        out.extend_from_slice(&sixteen_of(bytes)).unwrap();
    }
}

/// The digits of eight bytes, which the compiler makes all at once.
#[inline(always)]
#[tactic(auto, using(crate::proofs::HexadecimalLemmas::writings))]
fn sixteen_of(bytes: &[u8]) -> [u8; 16]
    requires { length bytes.now ≡ 8 }
    ensures { result ≡ encode_lower bytes.now }
{
    let mut digits = [0; 16];
    for i in 0..8 {
        digits[2 * i] = digit_of(bytes[i] / 16);
        digits[2 * i + 1] = digit_of(bytes[i] % 16);
    }
    digits
}

/// Writes the text of the bytes one by one.
#[tactic(auto, using(crate::proofs::HexadecimalLemmas::writings))]
fn put_each(out: &mut Vec<u8>, bytes: &[u8])
    requires { vec_len out.old + 2 * length bytes.now ≤ vec_capacity out.old }
    ensures { Written out.old out.new (encode_lower bytes.now) }
{
    for i in 0..bytes.len() {
        out.push_reserved(digit_of(bytes[i] / 16));
        out.push_reserved(digit_of(bytes[i] % 16));
    }
}

/// The digit of a value.
fn digit_of(value: u8) -> u8
    requires { value < 16 }
    ensures { result ≡ slice_index lower_digits value }
{
    if value < 10 {
        b'0' + value
    } else {
        b'a' + (value - 10)
    }
}

/// Whether all bytes are digits.
pub(crate) fn are_lower_digits(word: &[u8]) -> bool
    ensures { result ≡ list_all writes_digit word.now }
{
    let mut all = true;
    for byte in word {
        all &= byte.is_ascii_digit() | matches!(byte, b'a'..=b'f');
    }
    all
}

/// Bytes have one text, which is read as them.
#[tactic(auto, using(crate::proofs::HexadecimalLemmas::readings))]
pub fn one_text_for_bytes()
    ensures read { (bytes : List ℕ) → IsBytes bytes → hex_in (encode_lower bytes) ≡ Some bytes }
    ensures only { (word bytes : List ℕ) → hex_in word ≡ Some bytes → encode_lower bytes ≡ word }
{}
