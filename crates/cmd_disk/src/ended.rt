//! How work on a disk ended, with the disk.

ghost use Rattle.std.specs.Prelude.{◌≡◌};
ghost use Rattle.cmd_disk.specs.Keeping.{not_begun as end_not_begun};

use cmd_files::{DiskStop, Stop};
use memory_store::BeginFault;

/// What work on a disk gave or why it stopped, and the disk, which is handed back either way.
pub(crate) struct Ended<'a, T, D> {
    pub(crate) end: Result<T, Stop<&'a str>>,
    pub(crate) disk: D,
}

/// Work that ended so.
pub(crate) fn ended_with<'a, T, D>(end: Result<T, Stop<&'a str>>, disk: D) -> Ended<'a, T, D>
    ensures { result ≡ record { end = end.entry; disk = disk } }
{
    Ended { end, disk }
}

/// Work that stopped where its store could not be begun. `failed` is how a disk that failed is told.
pub(crate) fn not_begun<'a, T, D>(fault: BeginFault<D>, failed: DiskStop) -> Ended<'a, T, D>
    ensures { result ≡ end_not_begun failed fault }
{
    match fault {
        BeginFault::Failed(disk) => ended_with(Err(Stop::OnDisk(failed)), disk),
        BeginFault::Damaged { slot, disk } => {
            ended_with(Err(Stop::OnDisk(DiskStop::Damaged { slot })), disk)
        }
        BeginFault::NoMemory(disk) => ended_with(Err(Stop::NoMemory), disk),
    }
}
