//! That the commands agree: the function has a law as its contract, and no body.

ghost use Rattle.cmd_steps.specs.Words.{EndsOrFails, EndsWith, Heard, List, RanCommand, ReplayFiles, Shelved, ℕ};
ghost use Rattle.law_agreement.specs.Agreement.{FindsLeft, HasTheSame, WasReplayed, check_again, fold_again};

/// Where a replay ended with 0 and its journal is no longer than `fold` may read, `fold` of its configuration and
/// journal writes the same messages and the same event memory, and `check` finds its messages the same. Want of
/// memory, a call of the shelf that fails, or a put that fails can end either of them with another status, and
/// nothing else can.
pub fn replay_fold_and_check_agree()
    ensures folded { (names : ReplayFiles) (old left found new : Shelved) (messages memory : List ℕ) (before after : Heard) →
        WasReplayed names old left → FindsLeft names left found →
        RanCommand (fold_again names messages memory) 0 found new before after →
        HasTheSame names messages memory left.files new.files }
    ensures folds { (names : ReplayFiles) (old left found new : Shelved) (messages memory : List ℕ) (status : ℕ) (before after : Heard) →
        WasReplayed names old left → FindsLeft names left found →
        RanCommand (fold_again names messages memory) status found new before after →
        EndsOrFails 0 (fold_again names messages memory) status found new before after }
    ensures checks { (names : ReplayFiles) (old left found new : Shelved) (status : ℕ) (before after : Heard) →
        WasReplayed names old left → FindsLeft names left found →
        RanCommand (check_again names) status found new before after →
        EndsWith 0 (check_again names) status found new before after }
{}
