//! What the definitions of a run over a disk give: the function has a law as its contract, and no body.

ghost use Rattle.cmd_disk.specs.Completeness.{CompletesKeep, CompletesRecall};

use memory_disk::Disk;

/// A run that has what it needs, and in which no call fails, does what it was asked to, unless there is too little memory
/// or, for a `keep`, no sequence for its next save. It has what it needs where the shelf and the disk tell what they
/// hold, the disk keeps some records, and the files of a `keep` have a recording.
pub fn a_run_is_done_where_no_call_fails<D: Disk>()
    ensures kept { CompletesKeep D.shows }
    ensures recalled { CompletesRecall D.shows }
{}
