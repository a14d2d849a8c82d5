//! What calls answer, and the number of each answer.
ghost use Rattle.std.specs.Prelude.{◌≡◌};
ghost use Rattle.idsm_api.specs.Answers.{code_of, control_answer, report_answer};

use report_api::{Control, Report};

/// What a call answers. The number of an answer never changes.
#[derive(Clone, Copy, Debug, PartialEq, Eq)]
pub enum Answer {
    /// All that was asked for is done.
    Done,
    /// The handle has nothing.
    Unset,
    /// The handle has a manager where a caller is wanted, or a caller where a manager is.
    OtherRole,
    /// No event buffer was free. A report is counted as lost, a control is not.
    LostEvent,
    /// The report stands in the history without its context: no buffer that fits was free.
    WithoutContext,
    /// No sensor reports this event; of a mode, that the event is not configured.
    UnknownEvent,
    /// A report tells of at least one event.
    ZeroCount,
    /// The caller has made 2^40 calls, or the manager 2^62 turns.
    Spent,
    /// The tick is below that of the last turn.
    TickBack,
    /// The tick is above 2^62.
    TickTooLarge,
    /// A number is none of those that there are.
    OutOfRange,
    /// The allocator had no room.
    NoMemory,
    /// The text has no configuration.
    Configuration,
    /// The buffer is too small, and nothing was written.
    SmallBuffer,
    /// The handle has something already.
    Occupied,
    /// A message cannot be read, is longer than a unit may be, or is signed already.
    BadMessage,
}

impl Answer {
    /// The number of the answer. Those from 15 to 19 are of the C interface alone.
    /// By: `code_of`; no loop.
    pub fn code(self) -> u8
        ensures { result ≡ code_of self }
    {
        match self {
            Answer::Done => 0,
            Answer::Unset => 1,
            Answer::OtherRole => 2,
            Answer::LostEvent => 3,
            Answer::WithoutContext => 4,
            Answer::UnknownEvent => 5,
            Answer::ZeroCount => 6,
            Answer::Spent => 7,
            Answer::TickBack => 8,
            Answer::TickTooLarge => 9,
            Answer::OutOfRange => 10,
            Answer::NoMemory => 11,
            Answer::Configuration => 12,
            Answer::SmallBuffer => 13,
            Answer::Occupied => 14,
            Answer::BadMessage => 20,
        }
    }
}

/// The answer of a report.
pub(crate) fn answer_of_report(report: &Report) -> Answer
    ensures { result ≡ report_answer report.now }
{
    match report {
        Report::Accepted(_) => Answer::Done,
        Report::WithoutContext(..) => Answer::WithoutContext,
        Report::LostEvent(_) => Answer::LostEvent,
        Report::UnknownEvent => Answer::UnknownEvent,
        Report::ZeroCount => Answer::ZeroCount,
        Report::PassSpent => Answer::Spent,
    }
}

/// The answer of a control.
pub(crate) fn answer_of_control(control: &Control) -> Answer
    ensures { result ≡ control_answer control.now }
{
    match control {
        Control::Accepted(_) => Answer::Done,
        Control::LostEvent(_) => Answer::LostEvent,
        Control::UnknownEvent => Answer::UnknownEvent,
        Control::PassSpent => Answer::Spent,
    }
}
