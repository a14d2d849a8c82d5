//! The command `recall`: the records that a disk keeps, as text.

ghost use Rattle.std.specs.Prelude.{◌≡◌};
ghost use Rattle.cmd_steps.specs.Words.{EndsAs, IfErr, IfOk, IsTrue, OnOk, PairFiles, Some, codes, number_text, length, memory_text, pair_of, plain_end, recall_command};
ghost use Rattle.memory_disk.specs.Disks.{LeavesSince, MayBeLeft, bytes_of};
ghost use Rattle.cmd_disk.specs.Keeping.{HasDiskCause};
ghost use Rattle.cmd_disk.specs.Runs.{RecalledBy, written_end};
ghost use Rattle.cmd_files.specs.Writing.{StandsInPart};

use crate::ended::{Ended, not_begun};
use cmd_files::{DiskStop, NewFile, Stop, write_files};
use cmd_words::PairNames;
use ids_outside::{Shelf, WriteFault};
use ids_types::NoMemory;
use memory_disk::Disk;
use memory_store::{Records, Store};
use std::alloc::Global;

/// Writes the text of the records that the disk keeps, and gives the line that tells how many they are.
#[tactic(auto, using(crate::proofs::KeepLemmas::recall_not_begun))]
pub(crate) fn recall<'a, H: Shelf, D: Disk>(
    alloc: Global,
    names: PairNames<'a>,
    shelf: &mut H,
    disk: D,
) -> Ended<'a, Vec<u8>, D>
    ensures ends { EndsAs (recall_command (pair_of names.entry)) (plain_end result.end)
        (H.shows shelf.old) (H.shows shelf.new) }
    ensures cause { HasDiskCause D.shows disk result.disk (plain_end result.end) }
    ensures same { IsTrue (D.shows disk).tells → bytes_of (D.shows result.disk) ≡ bytes_of (D.shows disk) }
    ensures any_moment { IsTrue (D.shows disk).tells →
        LeavesSince (D.shows disk).run (D.shows result.disk).run (MayBeLeft (D.shows disk).run.now) }
    ensures recalled { IsTrue (H.shows shelf.old).tells → IsTrue (D.shows disk).tells →
        RecalledBy (bytes_of (D.shows disk)) names.entry.target.now (H.shows shelf.old).files (H.shows shelf.new).files
        (plain_end result.end) }
{
    match Store::begin(alloc, disk) {
        Ok((store, records)) => {
            let end = match write_records(alloc, &records, names.target, shelf) {
                Ok(line) => Ok(line),
                Err(fault) => Err(Stop::from(fault)),
            };
            let disk = store.finish();
            Ended { end, disk }
        }
        Err(fault) => not_begun(fault, DiskStop::Failed),
    }
}

/// Writes the text of the records, and gives the line that counts them. All memory is taken before the file is made.
fn write_records<H: Shelf>(
    alloc: Global,
    records: &Records,
    target: &str,
    shelf: &mut H,
) -> Result<Vec<u8>, WriteFault>
    ensures ends { (names : PairFiles) → target.now ≡ names.target → EndsAs (recall_command names) (written_end result)
        (H.shows shelf.old) (H.shows shelf.new) }
    ensures written { IsTrue (H.shows shelf.old).tells →
        OnOk result ((H.shows shelf.new).files target.now ≡ Some (memory_text records.now)) }
    ensures part { IsTrue (H.shows shelf.old).tells → IfErr result (λ _. StandsInPart (H.shows shelf.old).files (H.shows shelf.new).files
        (record { name = target.now; bytes = memory_text records.now })) }
    ensures line { IfOk result (λ said. said.items ≡ number_text (codes "records ") (length records.now)) }
{
    let text = records.print(alloc).map_err(|_| WriteFault::NoMemory)?;
    let line = records_line(alloc, records.len()).map_err(|_| WriteFault::NoMemory)?;
    let file = NewFile {
        name: target,
        bytes: &text,
        cuts: &[],
    };
    write_files(&[file], shelf)?;
    Ok(line)
}

/// `records R`, and a line feed.
fn records_line(alloc: Global, records: u16) -> Result<Vec<u8>, NoMemory>
    ensures { IfOk result (λ line. line.items ≡ number_text (codes "records ") records) }
{
    let line = format!(in alloc; "records {records}\n")?;
    Ok(line.into_bytes())
}
