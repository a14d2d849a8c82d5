//! Folding a history through any chain, turn by turn.

ghost use Rattle.std.specs.Prelude.{◌≡◌, [], length, IfOk, OnOk};
ghost use Rattle.filter_chain.specs.Parcels.{IsShort};
ghost use Rattle.chain_plain.specs.{CanFold, Tells};

use crate::desk::{Desk, MOST_BYTES, MOST_ENTRIES};
use crate::tally::Tally;
use filter_chain::Chain;
use ids_config::Config;
use ids_types::{History, NoMemory, Plain};
use std::alloc::Global;

/// Has a chain that took no turn yet take those of a history.
/// Steps: as `outcome`, for the chain that it is given. Memory: may answer want of memory. Waits: as its chain;
/// `EventChain`: no. By: read off; `CanFold`.
pub fn fold<'h, C: Chain<Plain<'h>>>(
    alloc: Global,
    config: &Config,
    history: &'h History,
    chain: &mut C,
) -> Result<Tally, NoMemory>
    requires stands { C.stands chain.old config.now [] }
    requires events { C.events chain.old ≡ length config.now.events }
    requires kept { C.kept chain.old ≡ [] }
    requires turns { CanFold (length config.now.events) history.now.turns }
    ensures tells { IfOk result (Tells config.now history.now.turns) }
    ensures stands { OnOk result (C.stands chain.new config.now history.now.turns) }
{
    let mut desk = Desk::make(alloc, config.parts().events.len() as u64)?;
    let mut tally = Tally::make(alloc, history.turns())?;
    let mut turns = history.walk();
    while let Some((head, entries)) = turns.pop_front() {
        chain.reserve(MOST_ENTRIES, MOST_BYTES)?;
        desk.take(chain, &head, entries);
        tally.add(&desk.out, chain.limited())?;
    }
    Ok(tally)
}
