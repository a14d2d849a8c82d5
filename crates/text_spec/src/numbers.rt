//! Decimal numbers, read and written.

ghost use Rattle.std.specs.Prelude.{◌≡◌, ◌<◌, ◌≤◌, ◌^◌, ◌++◌, ◌∷◌, ◌+◌, ◌*◌, ◌/◌, ◌%◌, if◌then◌else◌};
ghost use Rattle.text_spec.specs.{Appends, Written, ℕ, List, option_map, decimal, IsTrue, OnOk, OnErr, [], length, vec_len, vec_capacity, is_ascii_digit, list_all, digits_value, space, capped, number_in, zero_digit};

use ids_types::NoMemory;

/// The number of a word of digits that have this value, `None` where the word is no number.
pub(crate) fn number_of(digits: &[u8], value: u64) -> Option<u64>
    requires digits { IsTrue (list_all is_ascii_digit digits.now) }
    requires value { value ≡ capped (digits_value 10 digits.now) }
    ensures { result ≡ option_map capped (number_in digits.now) }
{
    match digits {
        [] => None,
        [b'0', _, ..] => None,
        _ => Some(value),
    }
}

/// The number with one digit more. Few are so great that the sum has to be watched.
pub(crate) fn with_digit(number: u64, digit: u64) -> u64
    requires { digit ≤ 9 }
    ensures { result ≡ capped (number * 10 + digit) }
{
    if number < 1_000_000_000 {
        return number * 10 + digit;
    }
    number.saturating_mul(10).saturating_add(digit)
}

/// Appends the text of the number: quick where it has one digit or two, as most have.
/// Steps: at most 20 digits. Memory: may answer want of memory, only where the room is short. By: `added`; read off.
#[tactic(auto, using(crate::proofs::NumbersLemmas::written))]
pub fn push_number(out: &mut Vec<u8>, number: u64) -> Result<(), NoMemory>
    ensures added { Appends out.old out.new result (decimal number) }
    ensures err { OnErr result (out.new.items ≡ out.old.items) }
{
    if number >= 100 || out.capacity() - out.len() < 2 {
        return push_long_number(out, number);
    }
    put_short(out, number);
    Ok(())
}

/// The same for more digits, or little room.
#[inline(never)]
#[tactic(auto, using(crate::proofs::NumbersLemmas::written))]
fn push_long_number(out: &mut Vec<u8>, number: u64) -> Result<(), NoMemory>
    ensures added { Appends out.old out.new result (decimal number) }
    ensures err { OnErr result (out.new.items ≡ out.old.items) }
{
    if out.capacity() - out.len() < MOST_DIGITS {
        out.reserve(digits_len(number))?;
    }
    put_number(out, number);
    Ok(())
}

/// Appends a space and a number: quick where it has one digit or two, as most have.
/// Steps: at most 21 bytes. Memory: may answer want of memory, only where the room is short. By: `added`; read off.
#[tactic(auto, using(crate::proofs::NumbersLemmas::written))]
pub fn push_field(out: &mut Vec<u8>, number: u64) -> Result<(), NoMemory>
    ensures added { Appends out.old out.new result (space ∷ decimal number) }
    ensures err { OnErr result (out.new.items ≡ out.old.items) }
{
    if number >= 100 || out.capacity() - out.len() < 3 {
        return push_long_field(out, number);
    }
    out.push_reserved(b' ');
    put_short(out, number);
    Ok(())
}

/// The same for more digits, or little room.
#[inline(never)]
#[tactic(auto, using(crate::proofs::NumbersLemmas::written))]
fn push_long_field(out: &mut Vec<u8>, number: u64) -> Result<(), NoMemory>
    ensures added { Appends out.old out.new result (space ∷ decimal number) }
    ensures err { OnErr result (out.new.items ≡ out.old.items) }
{
    if out.capacity() - out.len() <= MOST_DIGITS {
        out.reserve(1 + digits_len(number))?;
    }
    put_field(out, number);
    Ok(())
}

/// How many bytes the text of the number has.
#[tactic(auto, using(crate::proofs::NumbersLemmas::written))]
pub(crate) fn digits_len(number: u64) -> usize
    ensures { result ≡ length (decimal number) }
{
    if number < 10 {
        return 1;
    }
    if number < 100 {
        return 2;
    }
    digits_len(number / 100) + 2
}

/// How many digits a number has at most.
const MOST_DIGITS: usize = 20;

/// Writes a space and a number into room that is there.
#[inline(always)]
#[tactic(auto, using(crate::proofs::NumbersLemmas::written))]
pub(crate) fn put_field(out: &mut Vec<u8>, number: u64)
    requires { vec_len out.old + (1 + length (decimal number)) ≤ vec_capacity out.old }
    ensures { Written out.old out.new (space ∷ decimal number) }
{
    out.push_reserved(b' ');
    put_number(out, number);
}

/// Writes a number into room that is there. Most have four digits or fewer.
#[inline(always)]
#[tactic(auto, using(crate::proofs::NumbersLemmas::written))]
fn put_number(out: &mut Vec<u8>, number: u64)
    requires { vec_len out.old + length (decimal number) ≤ vec_capacity out.old }
    ensures { Written out.old out.new (decimal number) }
{
    if number < 10_000 {
        return put_few(out, number);
    }
    put_digits(out, number);
}

/// Writes a number into room that is there, its four last digits after those before them.
#[inline(never)]
#[tactic(auto, using(crate::proofs::NumbersLemmas::written))]
fn put_digits(out: &mut Vec<u8>, number: u64)
    requires { vec_len out.old + length (decimal number) ≤ vec_capacity out.old }
    ensures { Written out.old out.new (decimal number) }
{
    if number < 10_000 {
        return put_few(out, number);
    }
    put_digits(out, number / 10_000);
    put_pair(out, number % 10_000 / 100);
    put_pair(out, number % 100);
}

/// Writes a number of four digits or fewer.
#[inline(always)]
#[tactic(auto, using(crate::proofs::NumbersLemmas::written))]
fn put_few(out: &mut Vec<u8>, number: u64)
    requires few { number < 10_000 }
    requires room { vec_len out.old + length (decimal number) ≤ vec_capacity out.old }
    ensures { Written out.old out.new (decimal number) }
{
    if number < 100 {
        return put_short(out, number);
    }
    put_short(out, number / 100);
    put_pair(out, number % 100);
}

/// Writes a number of one digit or two.
#[inline(always)]
#[tactic(auto, using(crate::proofs::NumbersLemmas::written))]
fn put_short(out: &mut Vec<u8>, number: u64)
    requires short { number < 100 }
    requires room { vec_len out.old + length (decimal number) ≤ vec_capacity out.old }
    ensures { Written out.old out.new (decimal number) }
{
    if number < 10 {
        return out.push_reserved(b'0' + number as u8);
    }
    put_pair(out, number);
}

/// Writes the two last digits of a number, `0` and `7` of 7.
#[inline(always)]
fn put_pair(out: &mut Vec<u8>, number: u64)
    requires pair { number < 100 }
    requires room { vec_len out.old + 2 ≤ vec_capacity out.old }
    ensures { Written out.old out.new ((zero_digit + number / 10) ∷ (zero_digit + number % 10) ∷ []) }
{
    out.push_reserved(b'0' + (number / 10) as u8);
    out.push_reserved(b'0' + (number % 10) as u8);
}

/// A number below 2^64 has one text, which is read as it.
#[tactic(auto, using(crate::proofs::NumbersLemmas::number_again, crate::proofs::NumbersLemmas::number_takes))]
pub fn one_text_for_a_number()
    ensures read { (n : ℕ) → n < 2 ^ 64 → number_in (decimal n) ≡ Some n }
    ensures only { (word : List ℕ) (n : ℕ) → n < 2 ^ 64 → number_in word ≡ Some n →
        decimal n ≡ word }
{}
