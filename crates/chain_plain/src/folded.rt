//! What a whole history gives: its messages and its event memory.

ghost use Rattle.std.specs.Prelude.{◌≡◌, length, reverse, IfOk};
ghost use Rattle.filter_chain.specs.History.{count_of, messages_of, rows_of};
ghost use Rattle.chain_plain.specs.Recorded.{CanFold};
ghost use Rattle.chain_plain.specs.Telling.{ends_of, handed_by};

use crate::folding::fold;
use crate::tally::Tally;
use event_chain::EventChain;
use event_memory::Memory;
use filter_chain::Transcript;
use ids_config::Config;
use ids_types::{History, NoMemory};
use std::alloc::Global;

/// What the filter chain gives for a recorded history.
#[derive(Debug, Drop)]
pub struct Folded {
    /// The messages that were sent, one after the other.
    pub sent: Vec<u8>,
    /// How many bytes were sent by the end of each turn.
    pub ends: Vec<u64>,
    /// The number that each turn hands on to the next: how many events the limits held back in it.
    pub limited: Vec<u64>,
    /// How many messages were sent.
    pub messages: u64,
    /// The event memory after the last turn.
    pub memory: Memory,
}

/// What the filter chain of a configuration gives for a recorded history.
/// Steps: for each turn one `Chain::judge`, so the events that are aggregated again, at most 256, whatever the turn
/// has; the entries; and the bytes that are sent. Memory: may answer want of memory. By: read off; `CanFold`.
pub fn outcome(alloc: Global, config: &Config, history: &History) -> Result<Folded, NoMemory>
    requires { CanFold (length config.now.events) history.now.turns }
    ensures sent { IfOk result (λ folded. folded.sent.items ≡ messages_of config.now history.now.turns) }
    ensures ends { IfOk result (λ folded. folded.ends.items ≡ ends_of config.now history.now.turns) }
    ensures limited { IfOk result (λ folded. folded.limited.items ≡ handed_by config.now history.now.turns) }
    ensures messages { IfOk result (λ folded. folded.messages ≡ count_of config.now history.now.turns) }
    ensures memory { IfOk result (λ folded. reverse folded.memory.rows ≡ rows_of config.now history.now.turns) }
{
    let mut chain = EventChain::make(alloc, config)?;
    let Tally {
        transcript,
        limited,
    } = fold(alloc, config, history, &mut chain)?;
    let Transcript {
        sent,
        ends,
        messages,
    } = transcript;
    Ok(Folded {
        sent,
        ends,
        limited,
        messages,
        memory: chain.into_memory(),
    })
}
