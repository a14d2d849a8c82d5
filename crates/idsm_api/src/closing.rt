//! What a close answers, and how the callers come back.
ghost use Rattle.std.specs.Prelude.{◌≡◌, ◌≤◌, [], length, vec_capacity};
ghost use Rattle.idsm_api.specs.{no_totals, passes_of, nothing_told};

use crate::answer::Answer;
use crate::caller::Caller;
use crate::turning::{Told, TurnAnswer};
use main_function::Totals;
use report_api::Pass;

/// The answer of a close, what its last turn tells, and what all turns together took and lost: nothing where it was
/// refused.
#[derive(Clone, Copy)]
pub struct CloseAnswer {
    pub answer: Answer,
    pub told: Told,
    pub totals: Totals,
}

/// A close that was refused.
pub(crate) fn not_closed(answer: Answer) -> CloseAnswer
    ensures answer { result.answer ≡ answer }
    ensures told { result.told ≡ nothing_told }
    ensures totals { result.totals ≡ no_totals }
{
    CloseAnswer {
        answer,
        told: TurnAnswer::refused(answer).told,
        totals: Totals {
            entries: 0,
            lost_events: 0,
            lost_contexts: 0,
        },
    }
}

/// Takes the pass of each caller, in their order.
pub(crate) fn take_passes(callers: &mut Vec<Caller>, passes: &mut Vec<Pass>)
    requires none { passes.old.items ≡ [] }
    requires room { length callers.old.items ≤ vec_capacity passes.old }
    ensures passes { passes.new.items ≡ passes_of callers.old.items }
    ensures empty { callers.new.items ≡ [] }
    ensures room { vec_capacity passes.new ≡ vec_capacity passes.old }
{
    while let Some(caller) = callers.pop() {
        passes.push_reserved(caller.pass);
    }
    passes.reverse();
}
