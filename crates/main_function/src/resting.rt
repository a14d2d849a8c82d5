//! How a desk holds all passes at a rest, and releases them.
ghost use Rattle.std.specs.Prelude.{◌≡◌, ◌++◌, length, map};
ghost use Rattle.buffer_classes.specs.{AllOf, givers_of};
ghost use Rattle.report_api.specs.{IsDeskOf, desk_memo, to_give_back};
ghost use Rattle.main_function.specs.{OnlyWelcomes, all_back, AreAllPasses};
ghost use Rattle.main_function.specs.Resting.{AreHeld, HaveGoneOn, OnlyMoves, ReleasedSeats, memos_of};

use crate::rest::HasPass;
use report_api::{Desk, Shared};

/// Has the desk hold all passes, the last first.
pub(crate) fn hold_all<P: HasPass>(desk: &mut Desk, shared: &Shared, passes: &mut [P])
    requires mine { IsDeskOf shared.now desk.old }
    requires passes { AreAllPasses shared.now (desk_memo desk.old) (map P.its passes.old) }
    ensures mine { IsDeskOf shared.now desk.new }
    ensures told { desk_memo desk.new ≡ all_back (memos_of P.its passes.old) (desk_memo desk.old) }
    ensures counts { to_give_back desk.new ≡ to_give_back desk.old }
    ensures givers { AllOf (λ i. OnlyWelcomes (length passes.old)) (givers_of desk.old.givers) (givers_of desk.new.givers) }
    ensures held { AreHeld shared.now desk.new (map P.its passes.new) }
    ensures stays { AllOf (λ i. P.stays) passes.old passes.new }
{
    let mut left = passes.len();
    while left > 0 {
        left -= 1;
        passes[left].hold(desk, shared);
    }
}

/// Has the desk release all passes, the first first.
pub(crate) fn release_all<P: HasPass>(desk: &mut Desk, shared: &Shared, passes: &mut [P])
    requires mine { IsDeskOf shared.now desk.old }
    requires held { AreHeld shared.now desk.old (map P.its passes.old) }
    ensures mine { IsDeskOf shared.now desk.new }
    ensures moved { OnlyMoves (length passes.old) desk.old desk.new }
    ensures passes { HaveGoneOn shared.now desk.old (map P.its passes.new) }
    ensures classes { AllOf (λ i. ReleasedSeats (length passes.old)) (givers_of desk.old.givers) (givers_of desk.new.givers) }
    ensures remembers { (desk_memo desk.new).released ≡ (desk_memo desk.old).released ++ memos_of P.its passes.new }
    ensures stays { AllOf (λ i. P.stays) passes.old passes.new }
{
    for i in 0..passes.len() {
        passes[i].release(desk, shared);
    }
}
