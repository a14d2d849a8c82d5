//! What both filter chains give for a journal.

ghost use Rattle.std.specs.Prelude.{◌≡◌, [], length, IfOk};
ghost use Rattle.chain_plain.specs.Recorded.{CanFold};

use crate::plain_chain::PlainChain;
use chain_plain::{Tally, fold};
use config_json::read as read_config;
use event_chain::EventChain;
use filter_chain::Chain;
use ids_config::Config;
use ids_types::{History, Plain};
use std::alloc::Global;
use std::test::Fail;

/// What a chain gives for a history.
#[derive(Drop)]
pub(crate) struct Told {
    /// What each turn sends and hands on, and how many messages there are.
    pub(crate) tally: Tally,
    /// The text of the event memory after the last turn.
    pub(crate) memory: Vec<u8>,
}

impl Told {
    fn is_as(&self, other: &Told) -> bool {
        let (own, its) = (&self.tally.transcript, &other.tally.transcript);
        own.sent == its.sent
            && own.ends == its.ends
            && own.messages == its.messages
            && self.tally.limited == other.tally.limited
            && self.memory == other.memory
    }
}

/// What both chains give for a journal, which tells of each turn what the one before it hands on.
pub(crate) fn told_by_both(alloc: Global, config: &str, journal: &[u8]) -> Result<Told, Fail> {
    let config = read_config(alloc, config.as_bytes())?;
    let history = history_of(alloc, &config, journal)?;
    let one = told_by_events(alloc, &config, &history)?;
    let other = told_by_plain(alloc, &config, &history, journal.len() as u64)?;
    let is_same = one.is_as(&other) && is_handed_on(&history, &one.tally.limited);
    Ok(is_same.then_some(one).ok_or("the same by both chains")?)
}

/// What the event chain gives.
fn told_by_events(alloc: Global, config: &Config, history: &History) -> Result<Told, Fail>
    requires { CanFold (length config.now.events) history.now.turns }
{
    let mut chain = EventChain::make(alloc, config)?;
    told_by(alloc, config, history, &mut chain)
}

/// What the chain that begins anew gives, with room for so many bytes of context data.
fn told_by_plain(
    alloc: Global,
    config: &Config,
    history: &History,
    bytes: u64,
) -> Result<Told, Fail>
    requires { CanFold (length config.now.events) history.now.turns }
{
    let (turns, entries) = (history.turns(), history.total_entries());
    let mut chain = PlainChain::make(alloc, config, turns, entries, bytes)?;
    told_by(alloc, config, history, &mut chain)
}

/// The history of a journal, which a chain can take.
fn history_of(alloc: Global, config: &Config, journal: &[u8]) -> Result<History, Fail>
    ensures { IfOk result (λ history. CanFold (length config.now.events) history.turns) }
{
    let journal = journal::read(alloc, journal, config)?;
    Ok(journal.history)
}

/// What a chain that took no turn yet gives.
fn told_by<'h, C: Chain<Plain<'h>>>(
    alloc: Global,
    config: &Config,
    history: &'h History,
    chain: &mut C,
) -> Result<Told, Fail>
    requires stands { C.stands chain.old config.now [] }
    requires events { C.events chain.old ≡ length config.now.events }
    requires kept { C.kept chain.old ≡ [] }
    requires turns { CanFold (length config.now.events) history.now.turns }
{
    let tally = fold(alloc, config, history, chain)?;
    let memory = chain.memory().print(alloc)?;
    Ok(Told { tally, memory })
}

/// Whether each turn tells the number that the one before it hands on, and the first one 0.
fn is_handed_on(history: &History, limited: &[u64]) -> bool {
    let mut due = 0;
    let mut numbers = limited.iter();
    let mut turns = history.walk();
    while let Some((head, _)) = turns.pop_front() {
        if head.limited != due {
            return false;
        }
        due = numbers.next().copied().unwrap_or(0);
    }
    true
}
