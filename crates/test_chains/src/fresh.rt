//! Chains that took no turn yet, each with a desk.

ghost use Rattle.std.specs.Prelude.{◌≡◌, ◌+◌, ◌≤◌, ◌<◌, vec_len, IfOk, OnOk};
ghost use Rattle.std.specs.List.{All};
ghost use Rattle.ids_config.specs.Parts.{Parts};
ghost use Rattle.test_chains.specs.Remembered.{IsFresh};

use chain_plain::Desk;
use event_chain::EventChain;
use ids_config::Config;
use ids_types::{NoMemory, Plain};
use std::alloc::Global;

/// A chain that took no turn yet, and a desk for its turns.
#[derive(Debug, Drop)]
pub(crate) struct Fresh<'h> {
    pub(crate) chain: EventChain<Plain<'h>>,
    pub(crate) desk: Desk<'h>,
}

impl<'h> Fresh<'h> {
    pub(crate) fn make(alloc: Global, config: &Config) -> Result<Fresh<'h>, NoMemory>
        ensures { IfOk result (IsFresh config.now) }
    {
        Ok(Fresh {
            chain: EventChain::make(alloc, config)?,
            desk: Desk::make(alloc, config.parts().events.len() as u64)?,
        })
    }
}

/// Adds such chains, until there are at least so many.
pub(crate) fn fill(
    alloc: Global,
    config: &Config,
    number: u64,
    chains: &mut Vec<Fresh<'_>>,
) -> Result<(), NoMemory>
    ensures fresh { All (IsFresh config.now) chains.old.items → All (IsFresh config.now) chains.new.items }
    ensures more { vec_len chains.old ≤ vec_len chains.new }
    ensures enough { OnOk result (number ≤ vec_len chains.new) }
{
    while (chains.len() as u64) < number {
        chains.push(Fresh::make(alloc, config)?)?;
    }
    Ok(())
}

/// Takes such a chain out.
pub(crate) fn next<'h>(chains: &mut Vec<Fresh<'h>>) -> Fresh<'h>
    requires { 0 < vec_len chains.old }
    ensures fresh { (config : Parts) → All (IsFresh config) chains.old.items →
        All (IsFresh config) chains.new.items × IsFresh config result }
    ensures len { vec_len chains.new + 1 ≡ vec_len chains.old }
{
    chains.pop().unwrap()
}
