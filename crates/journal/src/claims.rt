//! The numbers of a missing context, which stay text until they are asked for.

ghost use Rattle.std.specs.Prelude.{◌≡◌};
ghost use Rattle.text_spec.specs.Contexts.{claims_in, numbers_in};

use ids_types::Numbers;
use std::marker::Model;
use text_spec::Pieces;

/// Zero to four numbers with points between them, their form judged. The text is lent, so that a report
/// without them needs no room for four numbers on its way.
#[derive(Debug, Drop)]
pub(crate) struct Claims<'a> {
    text: &'a [u8],
}

impl<'a> Model for Claims<'a> {
    ghost use Rattle.std.specs.Prelude.{ℕ, List};

    ghost Value = { List ℕ };

    ghost use Rattle.journal.specs.ClaimsView.{lent_claims, AreClaims};

    ghost view = { lent_claims };

    ghost invariant = { AreClaims };
}

impl<'a> Claims<'a> {
    /// The numbers that the text writes, `None` where it has another form.
    #[inline(always)]
    pub(crate) fn of(text: &'a [u8]) -> Option<Claims<'a>>
        ensures { result ≡ claims_in text.now }
    {
        let _numbers = claims_of(text)?;
        Some(Claims { text })
    }

    /// The numbers.
    #[inline(always)]
    pub(crate) fn numbers(&self) -> Numbers
        ensures { result ≡ self.now }
    {
        claims_of(self.text).unwrap()
    }
}

/// Zero to four numbers with points between them.
#[inline(never)]
fn claims_of(text: &[u8]) -> Option<Numbers>
    ensures { result ≡ claims_in text.now }
{
    if text.is_empty() {
        return Some(Numbers::make(&[]));
    }
    numbers_of(Pieces::of(text))
}

/// At most four numbers.
fn numbers_of(pieces: Pieces<'_, b'.'>) -> Option<Numbers>
    ensures { result ≡ numbers_in 4 pieces.entry }
{
    let mut values = [0; 4];
    let mut rest = pieces;
    for i in 0..4 {
        if rest.is_empty() {
            return Some(Numbers::make(&values[..i]));
        }
        let (value, next) = rest.any_number()?;
        values[i] = value;
        rest = next;
    }
    rest.ended(Numbers::make(&values))
}
