//! How all passes come back to the desk.
ghost use Rattle.std.specs.Prelude.{◌≡◌, [], length, map, vec_capacity};
ghost use Rattle.buffer_classes.specs.{AllOf, givers_of};
ghost use Rattle.report_api.specs.{IsDeskOf, desk_memo, to_give_back, pass_memo};
ghost use Rattle.main_function.specs.{OnlyWelcomes, all_back, AreAllPasses};

use report_api::{Desk, Pass, Shared};

/// Takes all passes back, the last first.
pub(crate) fn welcome_all(desk: &mut Desk, shared: &Shared, passes: &mut Vec<Pass>)
    requires mine { IsDeskOf shared.now desk.old }
    requires passes { AreAllPasses shared.now (desk_memo desk.old) passes.old.items }
    ensures mine { IsDeskOf shared.now desk.new }
    ensures told { desk_memo desk.new ≡ all_back (map pass_memo passes.old.items) (desk_memo desk.old) }
    ensures counts { to_give_back desk.new ≡ to_give_back desk.old }
    ensures givers { AllOf (λ i. OnlyWelcomes (length passes.old.items)) (givers_of desk.old.givers) (givers_of desk.new.givers) }
    ensures empty { passes.new.items ≡ [] }
    ensures room { vec_capacity passes.new ≡ vec_capacity passes.old }
{
    while let Some(pass) = passes.pop() {
        desk.welcome(shared, pass);
    }
}
