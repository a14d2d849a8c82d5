//! The text of `explain`: the turns of a history with the fate of each item, its losses, and the accounts; and the
//! witness that hears what became of each item.

ghost use Rattle.std.specs.Prelude.{◌≡◌, ◌++◌, [], false, List, length, map, reverse, IfOk, OnOk};
ghost use Rattle.ids_config.specs.Parts.{Parts};
ghost use Rattle.chain_spec.specs.Moments.{Moment};
ghost use Rattle.chain_plain.specs.Recorded.{CanFold};
ghost use Rattle.event_chain.specs.{StandsWatched, ending_of};
ghost use Rattle.journal.specs.Answers.{told};
ghost use Rattle.text_spec.specs.Words.{text_of};
ghost use Rattle.chain_endings.specs.{explained_text, silent, told_in, turns_lines, Hears};

use crate::account::push_accounts;
use crate::turns::push_turn;
use chain_plain::Desk;
use event_chain::{Ending, EventChain, Witness};
use ids_config::Config;
use ids_types::{History, Loss, NoMemory, Plain};
use journal::push_loss;
use std::alloc::Global;

/// Hears what became of each item, and says so where it could not keep it.
#[derive(Drop)]
pub(crate) struct Listener {
    heard: Vec<Ending>,
    lost: bool,
}

impl Listener {
    /// One who heard nothing yet.
    pub(crate) fn make(alloc: Global) -> Listener
        ensures { (config : Parts) → Hears result config [] }
    {
        Listener {
            heard: Vec::new(alloc),
            lost: false,
        }
    }

    /// All that it heard, the first of it first.
    pub(crate) fn heard(&self) -> Result<&[Ending], NoMemory>
        ensures { IfOk result (λ heard. (config : Parts) (moments : List Moment) → Hears self.now config moments →
            map ending_of heard.now ≡ told_in config moments) }
    {
        if self.lost {
            return Err(NoMemory);
        }
        Ok(&self.heard)
    }
}

impl Witness for Listener {
    ghost knows = { Hears };

    fn tell(&mut self, ending: Ending) {
        if self.heard.push(ending).is_err() {
            self.lost = true;
        }
    }

    ghost silent = { silent };
}

/// The journal of a history and its losses, with what became of each item, and an account for each event.
/// Steps: for each turn one `Chain::judge` and its lines; what was heard once more, for the accounts; and the entries
/// once more, for what is missing. Memory: may answer want of memory. By: read off; `CanFold`.
pub fn explain(
    alloc: Global,
    config: &Config,
    history: &History,
    losses: &[Loss],
) -> Result<Vec<u8>, NoMemory>
    requires { CanFold (length config.now.events) history.now.turns }
    ensures { IfOk result (λ text. text.items ≡ explained_text config.now (told history.now.turns losses.now)) }
{
    let mut text = Vec::new(alloc);
    let chain = push_turns(alloc, config, history, &mut text)?;
    for loss in losses {
        push_loss(&mut text, loss)?;
    }
    push_accounts(
        alloc,
        config.parts(),
        history,
        chain.witness().heard()?,
        &mut text,
    )?;
    Ok(text)
}

/// Appends the lines of all turns, and gives the chain that took them, whose listener heard what became of each item.
fn push_turns<'h>(
    alloc: Global,
    config: &Config,
    history: &'h History,
    out: &mut Vec<u8>,
) -> Result<EventChain<Plain<'h>, Listener>, NoMemory>
    requires { CanFold (length config.now.events) history.now.turns }
    ensures text { OnOk result (out.new.items ≡ out.old.items ++ text_of (turns_lines config.now [] history.now.turns)) }
    ensures stands { IfOk result (StandsWatched (λ p. p.0.now) Hears config.now (reverse history.now.turns)) }
{
    let parts = config.parts();
    // Names how many turns there are, so that the proof knows that they can be counted.
    let _turns = history.turns();
    let mut chain = EventChain::watched(alloc, config, Listener::make(alloc))?;
    let mut desk = Desk::make(alloc, parts.events.len() as u64)?;
    let mut turns = history.walk();
    let mut turn = 0;
    while let Some((head, entries)) = turns.pop_front() {
        let from = chain.witness().heard()?.len();
        desk.take(&mut chain, &head, entries);
        let told = chain.witness().heard()?.split_at(from).1;
        push_turn(out, parts, history, turn, told)?;
        turn += 1;
    }
    Ok(chain)
}
