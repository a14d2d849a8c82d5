//! What ties the turn that a manager made, and what a journal can tell of it: each function has a law as its contract,
//! and no body.

ghost use Rattle.std.specs.Prelude.{◌≡◌, ◌≤◌, ◌∷◌, ◌++◌, [], ℕ, List, reverse};
ghost use Rattle.std.specs.List.{AllByRecursion};
ghost use Rattle.ids_types.specs.{Turn};
ghost use Rattle.buffer_classes.specs.declared.giver.Giver.{Giver};
ghost use Rattle.ids_config.specs.{IsValid};
ghost use Rattle.ids_config.specs.Parts.{Parts};
ghost use Rattle.chain_spec.specs.Chain.{IsCausal};
ghost use Rattle.text_spec.specs.{IsHeld, turn_told};
ghost use Rattle.journal.specs.Fitting.{AreInRange, IsTurnInRange};
ghost use Rattle.report_api.specs.Making.{IsOfConfig};
ghost use Rattle.report_api.specs.declared.shared.Shared.{Shared};
ghost use Rattle.report_api.specs.{DeskMemo};
ghost use Rattle.main_function.specs.{IsManagerOf, Stands, Turned, last_of};
ghost use Rattle.main_function.specs.declared.manager.Manager.{Manager as Turner};

use filter_chain::{Chain, Log};
use report_api::CtxBuf;

/// What a turn leaves tells which turn was made: its head stands in the manager, and its entries are the items by which
/// what the desk noted grew.
pub fn there_is_one_turn<C: Chain<CtxBuf>, L: Log<CtxBuf>>()
    ensures { (tick : ℕ) (desk : DeskMemo) (givers : List Giver) (old new : Turner C L)
        (one other : Turned C.stands L.noted C.kept tick desk givers old new) → one.turn ≡ other.turn }
{}

/// A turn is in range for a journal, if its timestamps and its bytes can be held. All turns that a manager stands for are
/// in range, and each tells of held-back events what is due, if that holds of those before the last.
pub fn a_turn_is_in_range<C: Chain<CtxBuf>, L: Log<CtxBuf>>()
    ensures turn { (config : Parts) (shared : Shared) (tick : ℕ) (desk : DeskMemo) (givers : List Giver) (old new : Turner C L) →
        IsValid config → IsOfConfig config shared.terms → IsManagerOf C.events C.kept shared old → IsManagerOf C.events C.kept shared new →
        (turned : Turned C.stands L.noted C.kept tick desk givers old new) →
        AllByRecursion IsHeld (turn_told turned.turn) → IsTurnInRange config turned.turn }
    ensures more { (config : Parts) (tick : ℕ) (desk : DeskMemo) (givers : List Giver) (old new : Turner C L) (turns : List Turn) →
        Stands C.stands config old turns → last_of old ≤ tick → (turned : Turned C.stands L.noted C.kept tick desk givers old new) →
        AreInRange config turns → IsTurnInRange config turned.turn → AreInRange config (turns ++ turned.turn ∷ []) }
    ensures causal { (config : Parts) (tick : ℕ) (desk : DeskMemo) (givers : List Giver) (old new : Turner C L) (turns : List Turn) →
        Stands C.stands config old turns → (turned : Turned C.stands L.noted C.kept tick desk givers old new) →
        IsCausal config (reverse turns) → IsCausal config (reverse (turns ++ turned.turn ∷ [])) }
{}
