//! The command `keep`: the event memory of a recording, saved on a disk after each turn.

ghost use Rattle.std.specs.Prelude.{◌≡◌};
ghost use Rattle.cmd_steps.specs.Words.{EndsAs, IfErr, IfOk, IsFoldable, IsTrue, keep_command, keep_files_of, plain_end};
ghost use Rattle.cmd_disk.specs.Keeping.{HasDiskCause, LeavesBehind, StopsKeeping};
ghost use Rattle.cmd_disk.specs.Runs.{LeavesRecorded};
ghost use Rattle.cmd_spec.specs.Keeping.{saved_text};

use crate::ended::{Ended, ended_with, not_begun};
use crate::saving::{Folding, save_turns};
use chain_plain::Desk;
use cmd_files::{DiskStop, Stop};
use cmd_steps::read_inputs;
use cmd_words::KeepNames;
use event_chain::EventChain;
use ids_config::Config;
use ids_outside::Shelf;
use ids_types::{History, NoMemory};
use memory_disk::Disk;
use memory_store::Store;
use std::alloc::Global;

/// Keeps the event memory of a recording, and gives the line that tells how often it was saved.
pub(crate) fn keep<'a, H: Shelf, D: Disk>(
    alloc: Global,
    names: KeepNames<'a>,
    shelf: &mut H,
    disk: D,
) -> Ended<'a, Vec<u8>, D>
    ensures ends { EndsAs (keep_command (keep_files_of names.entry)) (plain_end result.end)
        (H.shows shelf.old) (H.shows shelf.new) }
    ensures cause { HasDiskCause D.shows disk result.disk (plain_end result.end) }
    ensures leaves { IsTrue (H.shows shelf.old).tells → LeavesRecorded D.shows (keep_files_of names.entry)
        (H.shows shelf.old).files disk result.disk (plain_end result.end) }
{
    let inputs = match read_inputs(alloc, names.from, shelf) {
        Ok(inputs) => inputs,
        Err(stop) => return ended_with(Err(stop), disk),
    };
    let history = &inputs.journal.history;
    let Ok(line) = saved_line(alloc, history.turns()) else {
        return ended_with(Err(Stop::NoMemory), disk);
    };
    let Ended { end, disk } = save_history(alloc, &inputs.config, history, disk);
    match end {
        Ok(()) => ended_with(Ok(line), disk),
        Err(stop) => ended_with(Err(stop), disk),
    }
}

/// Saves the event memory after each turn of a history. All memory is taken before the first call of the disk.
fn save_history<'a, D: Disk>(
    alloc: Global,
    config: &Config,
    history: &History,
    disk: D,
) -> Ended<'a, (), D>
    requires { IsFoldable config.now history.now.turns }
    ensures stops { IfErr result.end StopsKeeping }
    ensures cause { HasDiskCause D.shows disk result.disk result.end }
    ensures leaves { IsTrue (D.shows disk).tells →
        LeavesBehind config.now history.now.turns (D.shows disk) (D.shows result.disk) result.end }
{
    let events = config.parts().events.len() as u64;
    let Ok(desk) = Desk::make(alloc, events) else {
        return ended_with(Err(Stop::NoMemory), disk);
    };
    let Ok(chain) = EventChain::make(alloc, config) else {
        return ended_with(Err(Stop::NoMemory), disk);
    };
    let mut folding = Folding { desk, chain };
    match Store::begin(alloc, disk) {
        Ok((store, _)) => save_turns(config, history, &mut folding, store),
        Err(fault) => not_begun(fault, DiskStop::FailedAfter { saves: 0 }),
    }
}

/// `saved T`, and a line feed.
fn saved_line(alloc: Global, saves: u64) -> Result<Vec<u8>, NoMemory>
    ensures { IfOk result (λ line. line.items ≡ saved_text saves) }
{
    let line = format!(in alloc; "saved {saves}\n")?;
    Ok(line.into_bytes())
}
