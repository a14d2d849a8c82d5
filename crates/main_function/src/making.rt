//! How a manager is made, for one configuration and its chain.
ghost use Rattle.std.specs.Prelude.{◌≡◌, ◌+◌, ◌*◌, ◌≤◌, [], length, map, IfOk};
ghost use Rattle.ids_config.specs.Parts.{class_of};
ghost use Rattle.buffer_classes.specs.Making.{spec_sizes};
ghost use Rattle.main_function.specs.{IsBuilt, IsNewManager, largest_size};

use crate::manager::Manager;
use crate::rest::{RestLog, Sent, Totals};
use filter_chain::{Log, ParcelChain, most_sent};
use ids_config::Config;
use ids_types::{NoMemory, TurnHead, TurnOut};
use report_api::{CtxBuf, Desk, Pass, Shared};
use std::alloc::Global;

/// What callers and the manager share, the manager, and the passes by their callers' numbers.
#[derive(Drop)]
pub struct Made<C, L> {
    pub shared: Shared,
    pub manager: Manager<C, L>,
    pub passes: Vec<Pass>,
}

// The size of the largest class, 0 where there is none.
#[tactic(auto, using(crate::proofs::LargestLemmas::larger_class))]
fn largest_of(classes: &[(u64, u64)]) -> u64
    ensures { result ≡ largest_size (spec_sizes (map class_of classes.now)) }
{
    let mut largest = 0;
    for class in classes {
        largest = largest.max(class.0);
    }
    largest
}

// A manager with room for a turn of all positions.
fn build<C: Drop, L: Drop>(
    alloc: Global,
    desk: Desk,
    chain: C,
    log: L,
    positions: u64,
    events: u64,
    largest: u64,
) -> Result<Manager<C, L>, NoMemory>
    requires few { positions ≤ 1024 }
    requires few_events { events ≤ 65536 }
    requires short { largest ≤ 1024 }
    ensures { IfOk result (IsBuilt desk chain log positions events largest) }
{
    Ok(Manager {
        desk,
        chain,
        log,
        items: Vec::with_capacity(alloc, positions as usize)?,
        back: Vec::with_capacity(alloc, (positions + events) as usize)?,
        out: TurnOut::make(alloc, most_sent(largest, positions, events))?,
        rests: RestLog::new(alloc),
        totals: Totals {
            entries: 0,
            lost_events: 0,
            lost_contexts: 0,
        },
        sent: Sent {
            messages: 0,
            limited: 0,
        },
        head: TurnHead {
            tick: 0,
            lost_events: 0,
            lost_contexts: 0,
            limited: 0,
        },
        taken: 0,
        turns: 0,
        positions,
        largest,
    })
}

/// Makes all that one manager needs: what is shared, a pass for each caller, and the manager with its log over its chain,
/// which has taken no turn and is of this configuration. No other call of this crate takes memory, but `reserve_rests` and
/// `rest`.
/// Steps: as `report_api::make`; the rest is constant. Memory: made once, but for `rest` and `reserve_rests`. Room for a
/// turn of all positions: at most 1,339,452 bytes of messages. By: `IsNewManager`; read off.
pub fn make<C: ParcelChain<CtxBuf> + Drop, L: Log<CtxBuf> + Drop>(
    alloc: Global,
    config: &Config,
    chain: C,
    log: L,
) -> Result<Made<C, L>, NoMemory>
    requires fresh { C.stands chain config.now [] }
    requires events { C.events chain ≡ length config.now.events }
    requires kept { C.kept chain ≡ [] }
    ensures manager { IfOk result (λ made. IsNewManager C.stands C.events C.kept config.now made.shared made.passes.items made.manager) }
    ensures log { IfOk result (λ made. made.manager.log ≡ log) }
{
    let parts = report_api::make(alloc, config)?;
    let read = config.parts();
    let largest = largest_of(&read.classes);
    let events = read.events.len() as u64;
    let manager = build(alloc, parts.desk, chain, log, read.ring, events, largest)?;
    Ok(Made {
        shared: parts.shared,
        manager,
        passes: parts.passes,
    })
}
