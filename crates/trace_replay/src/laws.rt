//! What the rests of a replay say: each function has a law as its contract, and no body.

ghost use Rattle.std.specs.Prelude.{ℕ, List, ◌≡◌, ◌+◌, ◌-◌, ◌<◌, ◌≤◌, length};
ghost use Rattle.trace_replay.specs.{AreRounds, ClassRest, Entry, Gives, IsReplay, IsRestOf, LiesInItsRound, Parts, Round, RunManager, StandsIn, entries_between, entries_of, free_at, from_class, greatest, lines_before, lines_in, lost_in, missing_in, needing, rest_by, round_at, too_many, turns_between};

/// Each call of a caller lies between the turn that ended the round before its line's, where there is one, and the
/// turn that ended its own. The rest after the one tells that it was not made yet. The rest before the other tells
/// that it was.
#[tactic(auto, using(crate::proofs::RestLemmas::lies_in_its_round))]
pub fn a_call_lies_in_its_round()
    ensures { (callers : ℕ) (rounds : List Round) (k caller call : ℕ) → k < length rounds → caller < callers →
        length (lines_before rounds k caller) ≤ call → call < length (lines_before rounds (k + 1) caller) →
        LiesInItsRound callers rounds k caller call }
{}

/// Each entry of a round's turns is that of a call that a line of this round asks for.
pub fn an_entry_stands_in_its_round()
    ensures { (config : Parts) (rounds : List Round) (m : RunManager) (gives : Gives) (k : ℕ) →
        IsReplay config rounds m gives → AreRounds config rounds → k < length rounds → (e : Entry (List ℕ)) →
        StandsIn (entries_of (turns_between (rest_by rounds k) (rest_by rounds (k + 1)) gives.turns)) e →
        (length (lines_before rounds k e.caller) ≤ e.call) × (e.call < length (lines_before rounds (k + 1) e.caller)) }
{}

/// Of the calls of a round at most so many are lost as it has more lines than there are event buffers, and none if it
/// has no more.
pub fn no_round_loses_what_fits()
    ensures most { (config : Parts) (rounds : List Round) (m : RunManager) (gives : Gives) (k : ℕ) →
        IsReplay config rounds m gives → AreRounds config rounds → k < length rounds →
        lost_in rounds k gives.losses ≤ lines_in (round_at rounds k) - config.ring }
    ensures none { (config : Parts) (rounds : List Round) (m : RunManager) (gives : Gives) (k : ℕ) →
        IsReplay config rounds m gives → AreRounds config rounds → k < length rounds →
        lines_in (round_at rounds k) ≤ config.ring → lost_in rounds k gives.losses ≡ 0 }
{}

/// Of the contexts in a round's turns that fit a class, at most so many are missing: for each class, take how many need it
/// or a larger one, less the buffers of these classes that were free at the rest before the round. The greatest of these is
/// the bound, and none is missing if each is 0. At the start all are free.
pub fn no_round_misses_what_fits()
    ensures most { (config : Parts) (rounds : List Round) (m : RunManager) (gives : Gives) (k : ℕ) (first second : ClassRest)
        (is : IsReplay config rounds m gives) → AreRounds config rounds → k < length rounds → IsRestOf is k first → IsRestOf is (k + 1) second →
        missing_in config (entries_between gives.turns first second) ≤ greatest (length config.classes) (too_many config gives.turns first second) }
    ensures none { (config : Parts) (rounds : List Round) (m : RunManager) (gives : Gives) (k : ℕ) (first second : ClassRest)
        (is : IsReplay config rounds m gives) → AreRounds config rounds → k < length rounds → IsRestOf is k first → IsRestOf is (k + 1) second →
        ((i : ℕ) → i < length config.classes → needing config i (entries_between gives.turns first second)
        ≤ from_class i (length config.classes) (free_at gives.turns first)) →
        missing_in config (entries_between gives.turns first second) ≡ 0 }
{}
