//! What closed rings make of a history: each function has a law as its contract, and no body.

ghost use Rattle.std.specs.Prelude.{◌≡◌, ℕ, List, length, map, sum_by};
ghost use Rattle.ids_config.specs.Parts.{Parts};
ghost use Rattle.history_spec.specs.Contexts.{too_small};
ghost use Rattle.buffer_classes.specs.{AreClasses, class_sizes, first_fitting, AreGiversOf, givers_of};
ghost use Rattle.buffer_classes.specs.declared.class.Classes.{Classes};
ghost use Rattle.buffer_classes.specs.declared.givers.Givers.{Givers};
ghost use Rattle.report_queue.specs.{IsAllTaken};
ghost use Rattle.history_spec.specs.{AreSettled};
ghost use Rattle.report_api.specs.{asks_back};
ghost use Rattle.report_api.specs.Names.{DeskMemo, PassMemo};
ghost use Rattle.law_closing.specs.{HaveAllCalls, accepted_in, calls_by, came, ClosedDesk, GiversHaveNumbers, HaveNumbers, HaveSizes};

/// Once all passes are back and the report ring and the ring of each class is settled, the turns have all calls of
/// the passes, and nothing else. The entries of each caller are its accepted calls, in order and with what they
/// carried. All entries stand in the order in which their calls claimed their places: the steps of all passes stand in
/// one order, and the claim that stands first got the lower ticket. Each lost call found none free. The claims of each class are 0, 1, 2 and so on, each once. Where a context is missing, with a number for
/// each class that would have held it, all buffers of these had been claimed before.
pub fn closed_desks_have_all_calls()
    ghost closed: { ClosedDesk }
    ensures { HaveAllCalls closed.config closed.passes closed.turns }
{}

/// What each caller asked of each class is then what its calls show, and each claim of it is settled.
#[tactic(auto, using(crate::proofs::ClosedLemmas::settled_classes))]
pub fn closed_desks_settle_the_classes()
    ghost closed: { ClosedDesk }
    ensures { (claimants : ℕ → List ℕ) × AreSettled closed.config closed.turns (calls_by closed.passes)
        (asks_back (givers_of closed.desk.givers)) claimants }
{}

/// What was taken is as many items as calls of the passes were accepted.
#[tactic(auto, using(crate::proofs::CountLemmas::all_accepted))]
pub fn as_many_items_as_accepted_calls()
    ensures { (desk : DeskMemo) (passes : List PassMemo) → IsAllTaken desk → desk.back ≡ map came passes →
        length desk.notes ≡ sum_by accepted_in passes }
{}

/// The ring of each class has as many positions as its giver has buffers to give, and a seat for each caller.
pub fn rings_have_their_givers_numbers()
    ensures { (config : Parts) (classes : Classes) (givers : Givers) → AreGiversOf classes givers →
        GiversHaveNumbers config (givers_of givers) → HaveNumbers config classes }
{}

/// Since the sizes rise, the classes that are too small for a context are just those before the first that fits. So
/// a report that lists the classes that it asked in vain lists one number for each that would have fitted.
#[tactic(auto, using(crate::proofs::SizeLemmas::first_is_small))]
pub fn the_first_fitting_class_counts_the_small_ones()
    ensures { (config : Parts) (classes : Classes) (bytes : ℕ) → AreClasses classes → HaveSizes config classes →
        first_fitting bytes (class_sizes classes) ≡ too_small config bytes }
{}
