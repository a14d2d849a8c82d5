//! An answer with a number.
ghost use Rattle.idsm_api.specs.Numbers.{tells, tells_none};
ghost use Rattle.std.specs.Prelude.{◌≡◌};

use crate::answer::Answer;

/// An answer, and the number that was asked for: 0 where the answer is a refusal.
#[derive(Clone, Copy)]
pub struct NumberAnswer {
    pub answer: Answer,
    pub number: u64,
}

/// The number that was asked for.
pub(crate) fn told(number: u64) -> NumberAnswer
    ensures { result ≡ tells number }
{
    NumberAnswer {
        answer: Answer::Done,
        number,
    }
}

/// A refusal.
pub(crate) fn untold(answer: Answer) -> NumberAnswer
    ensures { result ≡ tells_none answer }
{
    NumberAnswer { answer, number: 0 }
}
