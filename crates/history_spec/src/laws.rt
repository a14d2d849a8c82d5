//! What the logs of rings make of a history: each function has a law as its contract, and no body.

ghost use Rattle.std.specs.Prelude.{◌≡◌, ℕ, ◌+◌, ◌-◌, ◌*◌, ◌<◌, ◌≤◌, List, [], ◌∷◌, length, take};
ghost use Rattle.std.specs.List.{AllByRecursion};
ghost use Rattle.ids_types.specs.{Turn, entries_of, Fate, lost};
ghost use mathlib.Core.Option.{some};
ghost use lib.ListN.{get_elem?};
ghost use Rattle.history_spec.specs.Names.{Entry, Loss};
ghost use Rattle.ids_config.specs.Parts.{Parts};
ghost use Rattle.history_spec.specs.Follows.{Follows};
ghost use Rattle.history_spec.specs.{claims_of, entries_by, entries_from, sizes_in, AskedBy, AreDecided, fates_of, all_losses, Calls, fronts_from, IsFront, AreMerged, StandsIn, AreSettled, AreLegalContexts, Rest, start, Rested, entries_before, IsSettledAt, SeesAll, IsLater, calls_between, lost_between, turns_between, needing, missing_in, ClassRest, claimed_at, free_at, ClassesRested, entries_between, AskInOrder, from_class, greatest, too_many};

/// Where the logs of the class rings are settled and follow what the calls asked, the claims of the history
/// stand in it once and in order, and each missing context is legal.
#[tactic(auto, using(crate::proofs::ContextLemmas::legal_contexts))]
pub fn settled_logs_give_legal_contexts()
    ensures { (config : Parts) (turns : List Turn) (calls : ℕ → Calls) (log : ℕ → ℕ → List Fate) (claimants : ℕ → List ℕ) →
        AreSettled config turns calls log claimants → AreLegalContexts config turns }
{}

/// Where each caller's calls are decided on a report ring, its accepted ones by the tickets of its entries, each
/// call is one entry or one loss, in order, and each loss is legal. Callers beyond the list have no entries.
pub fn decided_calls_are_merged()
    ensures { (n : ℕ) (turns : List Turn) (calls : ℕ → ℕ) (callers : List (List Fate)) →
        AreDecided n calls turns callers → AreMerged n calls turns (all_losses n 0 callers) }
{}

/// Each front of a report ring of n places is these and what some of the first turns gave back.
#[tactic(auto, using(crate::proofs::FrontLemmas::front_was))]
pub fn what_a_front_is()
    ensures { (n front : ℕ) (turns : List Turn) → StandsIn (fronts_from n turns (n ∷ [])) front → IsFront n turns front }
{}

/// Between two rests at most so many calls are lost as there are more than event buffers, and none if there are no
/// more. At least so many are lost as there are more than the turns between the rests can take, if no turn takes more
/// than there are event buffers.
#[tactic(auto, using(crate::proofs::RestLemmas::least))]
pub fn a_round_loses_at_most_what_it_has_too_many()
    ensures most { (n callers : ℕ) (turns : List Turn) (losses : List Loss) (first second : Rest) →
        IsSettledAt n turns losses first → IsSettledAt n turns losses second → SeesAll turns losses first →
        IsLater callers first second → lost_between first second losses ≤ calls_between callers first second - n }
    ensures none { (n callers : ℕ) (turns : List Turn) (losses : List Loss) (first second : Rest) →
        IsSettledAt n turns losses first → IsSettledAt n turns losses second → SeesAll turns losses first →
        IsLater callers first second → calls_between callers first second ≤ n → lost_between first second losses ≡ 0 }
    ensures least { (n callers : ℕ) (turns : List Turn) (losses : List Loss) (first second : Rest) →
        IsSettledAt n turns losses first → IsSettledAt n turns losses second → IsLater callers first second →
        AllByRecursion (λ turn. length turn.entries ≤ n) turns →
        calls_between callers first second - n * (second.turns - first.turns) ≤ lost_between first second losses }
{}

/// Each entry of the turns between two rests is that of a call that was made between them.
pub fn entries_stand_in_turns_of_their_own_round()
    ensures { (n callers : ℕ) (turns : List Turn) (losses : List Loss) (first second : Rest) →
        IsSettledAt n turns losses first → IsSettledAt n turns losses second → IsLater callers first second →
        (e : Entry (List ℕ)) → StandsIn (entries_of (turns_between first second turns)) e →
        (first.calls e.caller ≤ e.call) × (e.call < second.calls e.caller) }
{}

/// Of the contexts between two rests that fit a class, at most so many are missing: for each class, take how many need it
/// or a larger one, less the buffers of these classes that were free at the first rest. The greatest of these is the bound,
/// and none is missing if each is 0. Just so many are if no more buffers are claimed than were offered at the first rest.
pub fn a_round_misses_at_most_what_it_has_too_many()
    ensures most { (config : Parts) (turns : List Turn) (log : ℕ → ℕ → List Fate) (first second : ClassRest) →
        ClassesRested turns log first → ClassesRested turns log second → AskInOrder config turns log first second →
        missing_in config (entries_between turns first second) ≤ greatest (length config.classes) (too_many config turns first second) }
    ensures none { (config : Parts) (turns : List Turn) (log : ℕ → ℕ → List Fate) (first second : ClassRest) →
        ClassesRested turns log first → ClassesRested turns log second → AskInOrder config turns log first second →
        ((i : ℕ) → i < length config.classes → needing config i (entries_between turns first second)
        ≤ from_class i (length config.classes) (free_at turns first)) →
        missing_in config (entries_between turns first second) ≡ 0 }
    ensures just { (config : Parts) (turns : List Turn) (log : ℕ → ℕ → List Fate) (first second : ClassRest) →
        ClassesRested turns log first → ClassesRested turns log second → AskInOrder config turns log first second →
        ((i : ℕ) → i < length config.classes → claimed_at turns second i ≤ first.offered i) →
        missing_in config (entries_between turns first second) ≡ greatest (length config.classes) (too_many config turns first second) }
{}

/// The entries claimed as many buffers of each class as there are claimants, if the logs of the classes are settled.
#[tactic(auto, using(crate::proofs::ContextLemmas::each_claim))]
pub fn settled_logs_have_each_claim()
    ensures { (config : Parts) (turns : List Turn) (calls : ℕ → Calls) (log : ℕ → ℕ → List Fate) (claimants : ℕ → List ℕ) →
        AreSettled config turns calls log claimants → (i : ℕ) → length (claims_of i (entries_of turns)) ≡ length (claimants i) }
{}

/// A moment is a rest for the classes, if the logs by then were settled, are the first part of what each caller asked, and
/// each ask that was lost later saw claimed all that had been offered by then.
pub fn what_had_been_asked_by_a_rest()
    ensures { (config : Parts) (turns : List Turn) (calls early_calls : ℕ → Calls) (log early : ℕ → ℕ → List Fate)
        (claimants : ℕ → List ℕ) (at : ClassRest) →
        AreSettled config (take at.rest.turns turns) early_calls early claimants →
        ((caller : ℕ) → early_calls caller ≡ take (at.rest.calls caller) (calls caller)) →
        ((caller i : ℕ) → early caller i ≡ take (at.asks caller i) (log caller i)) →
        ((caller i : ℕ) → at.asks caller i ≤ length (log caller i)) →
        ((caller i place claimed : ℕ) → get_elem? (log caller i) place ≡ some (lost claimed) → at.asks caller i ≤ place →
        at.offered i ≤ claimed) →
        ClassesRested turns log at × AskedBy config calls log at }
{}

/// Each entry between two rests asked the classes that fit its context in order, if each caller's log is what its calls
/// asked, and each entry is that of a call between the rests.
pub fn contexts_ask_in_order()
    ensures { (config : Parts) (turns : List Turn) (calls : ℕ → Calls) (log : ℕ → ℕ → List Fate) (first second : ClassRest) →
        ((caller : ℕ) → entries_by caller (entries_of turns) ≡ entries_from caller 0 (calls caller)) →
        ((caller i : ℕ) → Follows (sizes_in config) i (calls caller) (log caller i)) →
        AskedBy config calls log first → AskedBy config calls log second → first.rest.turns ≤ second.rest.turns →
        ((e : Entry (List ℕ)) → StandsIn (entries_between turns first second) e →
        (first.rest.calls e.caller ≤ e.call) × (e.call < second.rest.calls e.caller)) →
        AskInOrder config turns log first second }
{}

/// A moment is a rest, if the turns so far are one merge of the fates that the calls had by then, and each call that was
/// lost later saw claimed all that had been offered by then. So is the start.
pub fn what_had_become_by_a_rest()
    ensures at_a_rest { (n : ℕ) (turns : List Turn) (callers early : List (List Fate)) (rest : Rest) →
        length early ≡ length callers →
        ((caller : ℕ) → fates_of early caller ≡ take (rest.calls caller) (fates_of callers caller)) →
        AreMerged n rest.calls (take rest.turns turns) (all_losses n 0 early) →
        ((caller call claimed : ℕ) → get_elem? (fates_of callers caller) call ≡ some (lost claimed) →
        rest.calls caller ≤ call → entries_before rest.turns turns + n ≤ claimed) →
        Rested n turns (all_losses n 0 callers) rest }
    ensures at_start { (n : ℕ) (turns : List Turn) (losses : List Loss) → Rested n turns losses start }
{}
