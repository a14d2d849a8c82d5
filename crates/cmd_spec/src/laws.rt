//! What the definitions of a run give: each function has a law as its contract, and no body.

ghost use Rattle.std.specs.Prelude.{◌≡◌, ◌≢◌, ℕ, List, Ok, Err, IsTrue};
ghost use Rattle.cmd_spec.specs.Names.{Command, Heard, MissesOne, Refusal, Shelved, Stop};
ghost use Rattle.cmd_files.specs.Texts.{row_of, stop_status};
ghost use Rattle.cmd_spec.specs.{CanBeDone, EndsWith, EndsOrFails, DidWork, IsOfBytes, Task, Refuses, judge, RanCommand};

/// What the input files deserve decides how a run over a shelf that tells them ends: with the status of
/// their refusal, with that of the first fault of what they ask for, or with 0. Only want of memory, the put of the
/// text, a write, a disk, or an earlier read that failed can end it otherwise. A run that ended with 0 did work that they
/// ask for.
pub fn files_decide_the_answer()
    ensures refused { (command : Command) (status : ℕ) (old new : Shelved) (before after : Heard)
        (reason : Stop (List ℕ)) → RanCommand command status old new before after →
        IsTrue old.tells → judge command old.files ≡ Err reason →
        EndsWith (stop_status reason) command status old new before after }
    ensures unfit { (command : Command) (status : ℕ) (old new : Shelved) (before after : Heard)
        (task : Task) (refusal : Refusal (List ℕ)) → RanCommand command status old new before after →
        IsTrue old.tells → judge command old.files ≡ Ok task → IsOfBytes task → Refuses task refusal →
        EndsWith (row_of refusal).status command status old new before after }
    ensures served { (command : Command) (status : ℕ) (old new : Shelved) (before after : Heard)
        (task : Task) → RanCommand command status old new before after →
        IsTrue old.tells → judge command old.files ≡ Ok task → CanBeDone task →
        EndsOrFails 0 command status old new before after }
    ensures done { (command : Command) (old new : Shelved) (before after : Heard)
        (task : Task) → RanCommand command 0 old new before after →
        IsTrue old.tells → judge command old.files ≡ Ok task → DidWork task new }
{}

/// Where a shelf counts no fault, as `SteadyShelf` never does, a run never ends with 3, and with 7 only where the put of
/// its text failed. So no file that cannot be read or written is told of a shelf that never fails.
#[tactic(auto, using(crate::proofs::RunLemmas::no_file_fails))]
pub fn no_file_fails_where_no_fault_is_counted()
    ensures unread { (command : Command) (status : ℕ) (old new : Shelved) (before after : Heard) →
        RanCommand command status old new before after → new.faults.count ≡ 0 → status ≢ 3 }
    ensures unwritten { (command : Command) (old new : Shelved) (before after : Heard) →
        RanCommand command 7 old new before after → new.faults.count ≡ 0 → MissesOne before.misses after.misses }
{}
