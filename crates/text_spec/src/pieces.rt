//! The words of a line and the parts of a word, taken one after another.

ghost use Rattle.std.specs.Prelude.{◌≡◌, ◌==◌, ◌&&◌, ◌+◌, ◌<◌, ◌≤◌, ◌∷◌};
ghost use Rattle.text_spec.specs.{is_ascii_digit, ℕ, List, true, false, length, take, drop, slice_index, option_map, IfSome, IfOk, IfErr, a_mode, a_number, a_stamp, first_as, first_of, ended as ended_of, AreDigits, IsNumberOf, pieces_left, differs, pieces_of};
ghost use Rattle.memchr.specs.Find.{IsFirstByte, is_byte};

use crate::numbers::{number_of, with_digit};
use crate::stamps::stamp;
use ids_types::{Mode, Stamp};
use memchr::memchr;
use std::marker::Model;

/// The pieces of a text between separators that are still to be read: the words of a line, or the
/// parts of a word. A text without a separator is one piece.
#[derive(Debug, Drop)]
pub struct Pieces<'a, const SEPARATOR: u8> {
    rest: Option<&'a [u8]>,
}

/// The words of a line.
pub type Words<'a> = Pieces<'a, b' '>;

impl<'a, const SEPARATOR: u8> Model for Pieces<'a, SEPARATOR> {
    ghost Value = { List (List ℕ) };

    ghost view = { λ p. pieces_left SEPARATOR (option_map (λ r. r.now) p.rest) };
}

impl<'a, const SEPARATOR: u8> Pieces<'a, SEPARATOR> {
    /// All pieces of a text.
    pub fn of(text: &'a [u8]) -> Pieces<'a, SEPARATOR>
        ensures { result ≡ pieces_of SEPARATOR text.now }
    {
        Pieces { rest: Some(text) }
    }

    /// The text of all pieces that are left, not cut; none after the last piece.
    /// By: no loop; the text is lent.
    pub fn text(self) -> Option<&'a [u8]>
        ensures { pieces_left SEPARATOR (option_map (λ r. r.now) result) ≡ self.entry }
    {
        self.rest
    }

    /// The first piece, and those after it.
    /// Steps: the bytes up to the separator. By: read off.
    #[inline(always)]
    pub fn first(self) -> Option<(&'a [u8], Pieces<'a, SEPARATOR>)>
        ensures { option_map (λ x. (x.0.now, x.1)) result ≡ first_of self.entry }
    {
        let (piece, rest) = cut_short(self.rest?, SEPARATOR);
        Some((piece, Pieces { rest }))
    }

    /// The number at the front, of any length, and the pieces after it. A number that is greater is
    /// told as `u64::MAX`, so that a number out of its range is not taken for a word that is no number.
    /// Steps: the bytes up to the separator or to the first that is no digit. By: read off.
    #[inline(always)]
    pub fn any_number(self) -> Option<(u64, Pieces<'a, SEPARATOR>)>
        ensures { result ≡ first_as a_number self.entry }
    {
        let (number, rest) = cut_number::<SEPARATOR>(self.rest?)?;
        Some((number, Pieces { rest }))
    }

    /// The optional timestamp at the front, and the pieces after it.
    /// Steps: the bytes up to the separator. By: read off.
    #[inline(always)]
    pub fn stamp(self) -> Option<(Option<Stamp>, Pieces<'a, SEPARATOR>)>
        ensures { result ≡ first_as a_stamp self.entry }
    {
        let (word, rest) = self.first_stamp()?;
        let stamp = stamp(word)?;
        Some((stamp, rest))
    }

    /// The first piece, and those after it, quick where it has one byte or sixteen, as timestamps have.
    #[inline(always)]
    fn first_stamp(self) -> Option<(&'a [u8], Pieces<'a, SEPARATOR>)>
        ensures { option_map (λ x. (x.0.now, x.1)) result ≡ first_of self.entry }
    {
        let (piece, rest) = cut_stamp(self.rest?, SEPARATOR);
        Some((piece, Pieces { rest }))
    }

    /// The mode at the front, and the pieces after it.
    /// Steps: the bytes up to the separator, and 5 names. By: read off.
    pub fn mode(self) -> Option<(Mode, Pieces<'a, SEPARATOR>)>
        ensures { result ≡ first_as a_mode self.entry }
    {
        let (word, rest) = self.first()?;
        let mode = Mode::named(word)?;
        Some((mode, rest))
    }

    /// Whether no piece is left.
    #[tactic(auto, using(crate::proofs::PiecesLemmas::some_piece))]
    pub fn is_empty(&self) -> bool
        ensures { result ≡ (length self.now == 0) }
    {
        matches!(self.rest, None)
    }

    /// The value, where no piece is left.
    /// Steps: constant, and the value let go where a piece is left.
    pub fn ended<T: Drop>(self, value: T) -> Option<T>
        ensures { result ≡ ended_of value self.entry }
    {
        self.is_empty().then_some(value)
    }
}

/// What stands before the first separator, and what stands after it, if there is one.
/// Steps: the bytes up to the first separator. By: `shorter`; read off.
#[inline(always)]
#[tactic(auto, using(crate::proofs::PiecesLemmas::cuts))]
pub fn cut(text: &[u8], separator: u8) -> (&[u8], Option<&[u8]>)
    ensures pieces { pieces_of separator text.now ≡
        result.0.now ∷ pieces_left separator (option_map (λ r. r.now) result.1) }
    ensures shorter { IfSome result.1 (λ r. length r.now < length text.now) }
{
    match place_of(text, separator) {
        None => (text, None),
        Some(i) => (&text[..i], Some(&text[i + 1..])),
    }
}

/// The first place of a byte.
#[inline(never)]
fn place_of(text: &[u8], byte: u8) -> Option<usize>
    ensures { IsFirstByte (is_byte byte) text.now result }
{
    memchr(byte, text)
}

/// The same as `cut`, quick where the first piece has one byte, as many words have.
#[inline(always)]
fn cut_short(text: &[u8], separator: u8) -> (&[u8], Option<&[u8]>)
    ensures { pieces_of separator text.now ≡
        result.0.now ∷ pieces_left separator (option_map (λ r. r.now) result.1) }
{
    match text {
        [byte] if *byte != separator => (text, None),
        [byte, next, rest @ ..] if *byte != separator && *next == separator => {
            (&text[..1], Some(rest))
        }
        _ => cut(text, separator),
    }
}

/// The same as `cut`, quick where the first piece has one byte or sixteen.
#[inline(always)]
fn cut_stamp(text: &[u8], separator: u8) -> (&[u8], Option<&[u8]>)
    ensures { pieces_of separator text.now ≡
        result.0.now ∷ pieces_left separator (option_map (λ r. r.now) result.1) }
{
    if ends_at_sixteen(text, separator) {
        return (&text[..16], Some(&text[17..]));
    }
    cut_short(text, separator)
}

/// Whether the first piece has sixteen bytes, and another one follows it.
#[inline(always)]
fn ends_at_sixteen(text: &[u8], separator: u8) -> bool
    ensures long { result ≡ true → 17 ≤ length text.now }
    ensures pieces { result ≡ true →
        pieces_of separator text.now ≡ take 16 text.now ∷ pieces_of separator (drop 17 text.now) }
{
    if text.len() <= 16 || text[16] != separator {
        return false;
    }
    let mut free = true;
    for i in 0..16 {
        free &= text[i] != separator;
    }
    free
}

/// How many digits are read before the loop begins. Most numbers have no more.
const FEW: usize = 5;

/// The number of a piece and what stands after the piece, `None` where the piece is no number.
type Cut<'a> = Option<(u64, Option<&'a [u8]>)>;

/// The number that the first piece writes, and what stands after the piece.
#[inline(always)]
fn cut_number<const SEPARATOR: u8>(text: &[u8]) -> Cut<'_>
    ensures { IsNumberOf SEPARATOR text.now result }
{
    match few_digits(text, SEPARATOR) {
        Ok(value) => cut_digits(text, FEW, value, SEPARATOR),
        Err(cut) => cut,
    }
}

/// The value of the first digits, or the number where the piece has no more.
#[inline(always)]
fn few_digits(text: &[u8], separator: u8) -> Result<u64, Cut<'_>>
    ensures more { IfOk result (λ value. AreDigits separator text.now FEW value) }
    ensures cut { IfErr result (λ cut. IsNumberOf separator text.now cut) }
{
    let value = next_digit(text, 0, 0, separator)?;
    let value = next_digit(text, 1, value, separator)?;
    let value = next_digit(text, 2, value, separator)?;
    let value = next_digit(text, 3, value, separator)?;
    next_digit(text, 4, value, separator)
}

/// The number, where the digits up to `start` have this value.
#[inline(always)]
fn cut_digits(text: &[u8], start: usize, value: u64, separator: u8) -> Cut<'_>
    requires { AreDigits separator text.now start value }
    ensures { IsNumberOf separator text.now result }
{
    let mut value = value;
    for i in start..text.len() {
        match next_digit(text, i, value, separator) {
            Ok(more) => value = more,
            Err(cut) => return cut,
        }
    }
    whole_number(text, value, separator)
}

/// The value with the digit at `i`, or the number where no digit of the piece stands there.
#[inline(always)]
fn next_digit(text: &[u8], i: usize, value: u64, separator: u8) -> Result<u64, Cut<'_>>
    requires { AreDigits separator text.now i value }
    ensures more { IfOk result (λ more. AreDigits separator text.now (i + 1) more) }
    ensures cut { IfErr result (λ cut. IsNumberOf separator text.now cut) }
{
    if i == text.len() {
        return Err(whole_number(text, value, separator));
    }
    let byte = text[i];
    if byte.is_ascii_digit() && byte != separator {
        return Ok(with_digit(value, u64::from(byte - b'0')));
    }
    Err(number_before(text, i, value, separator))
}

/// The number of a text of digits.
#[inline(always)]
#[tactic(auto, using(crate::proofs::PiecesLemmas::whole_piece))]
fn whole_number(text: &[u8], value: u64, separator: u8) -> Cut<'_>
    requires { AreDigits separator text.now (length text.now) value }
    ensures { IsNumberOf separator text.now result }
{
    Some((number_of(text, value)?, None))
}

/// The number of the digits before the first byte that is no digit of it.
#[inline(always)]
#[tactic(auto, using(crate::proofs::PiecesLemmas::no_number, std::proofs::lemmas::Bool::Decides::nat_tests))]
fn number_before(text: &[u8], i: usize, value: u64, separator: u8) -> Cut<'_>
    requires digits { AreDigits separator text.now i value }
    requires within { i < length text.now }
    requires last { let byte = slice_index text.now i in
        is_ascii_digit byte && differs separator byte ≡ false }
    ensures { IsNumberOf separator text.now result }
{
    if text[i] != separator {
        return None;
    }
    let number = number_of(&text[..i], value)?;
    Some((number, Some(&text[i + 1..])))
}
