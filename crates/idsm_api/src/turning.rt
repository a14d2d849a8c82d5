//! What a turn answers.
ghost use Rattle.std.specs.Prelude.{◌≡◌, ◌↔◌, true, false};
ghost use Rattle.idsm_api.specs.{refused, told_in};
ghost use Rattle.idsm_api.specs.Turning.{HasNoneToTell};

use crate::answer::Answer;
use crate::text::TurnText;
use event_chain::EventChain;
use report_api::CtxBuf;

/// The manager over its chain.
pub(crate) type ChainManager = main_function::Manager<EventChain<CtxBuf>, TurnText>;

/// What a turn tells in numbers.
#[derive(Clone, Copy)]
pub struct Told {
    /// Its number, from 0.
    pub turn: u64,
    /// How many bytes its messages have, and how many they are.
    pub bytes: u64,
    pub messages: u32,
    /// How many reports and controls it took.
    pub entries: u64,
    /// How many reports were lost since the turn before, and how many missed their context.
    pub lost_events: u64,
    pub lost_contexts: u64,
}

/// The answer of a turn, and what it tells: nothing if it was refused.
#[derive(Clone, Copy)]
pub struct TurnAnswer {
    pub answer: Answer,
    pub told: Told,
    /// A journal may leave out the lines of this turn: it took nothing, has no count to tell, and closed no window.
    pub quiet: bool,
}

impl TurnAnswer {
    /// A turn that was not made.
    pub fn refused(answer: Answer) -> TurnAnswer
        ensures { result ≡ refused answer }
    {
        let told = Told {
            turn: 0,
            bytes: 0,
            messages: 0,
            entries: 0,
            lost_events: 0,
            lost_contexts: 0,
        };
        TurnAnswer {
            answer,
            told,
            quiet: false,
        }
    }
}

/// Whether the last turn is quiet: it closed no window, took nothing, and has no count to tell.
pub(crate) fn is_quiet(closes: bool, manager: &ChainManager) -> bool
    ensures { (result ≡ true) ↔ ((closes ≡ false) × HasNoneToTell manager.now.head manager.now.taken) }
{
    let head = manager.head();
    !closes
        && manager.taken() == 0
        && head.lost_events == 0
        && head.lost_contexts == 0
        && head.limited == 0
}

/// What the last turn of a manager tells.
pub(crate) fn told_in(manager: &ChainManager) -> Told
    ensures { result ≡ told_in manager.now }
{
    let (head, out) = (manager.head(), manager.out());
    Told {
        turn: manager.turns().saturating_sub(1),
        bytes: out.sent().len() as u64,
        messages: out.messages(),
        entries: manager.taken(),
        lost_events: head.lost_events,
        lost_contexts: head.lost_contexts,
    }
}
