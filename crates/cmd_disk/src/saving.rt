//! The turns of a history, each folded and the event memory after it saved. No memory is taken.

ghost use Rattle.std.specs.Prelude.{◌≡◌};
ghost use Rattle.cmd_steps.specs.Words.{IsFoldable, IsTrue};
ghost use Rattle.cmd_disk.specs.Keeping.{HasSaveCause, IsNewFolding, SavedAll};

use crate::ended::{Ended, ended_with};
use chain_plain::Desk;
use cmd_files::{DiskStop, Stop};
use event_chain::EventChain;
use filter_chain::Chain;
use ids_config::Config;
use ids_types::{History, Plain};
use memory_disk::Disk;
use memory_image::the_records_of_a_history_can_be_kept;
use memory_store::{SaveFault, Store};

/// A chain that took no turn yet, and a desk for its turns: all memory that folding needs.
#[derive(Drop)]
pub(crate) struct Folding<'h> {
    pub(crate) desk: Desk<'h>,
    pub(crate) chain: EventChain<Plain<'h>>,
}

/// Folds the history turn by turn, and saves the event memory after each turn.
pub(crate) fn save_turns<'h, 'a, D: Disk>(
    config: &Config,
    history: &'h History,
    folding: &mut Folding<'h>,
    store: Store<D>,
) -> Ended<'a, (), D>
    requires new { IsNewFolding config.now folding.old }
    requires foldable { IsFoldable config.now history.now.turns }
    ensures tells { (D.shows result.disk).tells ≡ (D.shows store.disk).tells }
    // It may end for want of a sequence, or because a save failed, and never for want of memory.
    ensures cause { HasSaveCause D.shows store result.disk result.end }
    ensures saved { IsTrue (D.shows store.disk).tells → SavedAll D.shows config.now history.now.turns store result.disk result.end }
{
    // The configuration is valid, so its records can be kept.
    let _parts = config.parts();
    the_records_of_a_history_can_be_kept();
    // There are fewer than 2^64 turns.
    let _turns = history.turns();
    let mut current = store;
    let mut saves = 0;
    let mut turns = history.walk();
    while let Some((head, entries)) = turns.pop_front() {
        folding.desk.take(&mut folding.chain, &head, entries);
        current = match current.save(folding.chain.memory()) {
            Ok(store) => store,
            Err(SaveFault::Failed(disk)) => {
                return ended_with(Err(Stop::OnDisk(DiskStop::FailedAfter { saves })), disk);
            }
            Err(SaveFault::Worn(store)) => {
                let stop = Stop::OnDisk(DiskStop::WornAfter { saves });
                return ended_with(Err(stop), store.finish());
            }
        };
        saves += 1;
    }
    ended_with(Ok(()), current.finish())
}
