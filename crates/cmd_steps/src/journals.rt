//! Journals that are folded: what the chain gives for them, and whether they tell its own numbers.

ghost use Rattle.std.specs.Prelude.{◌+◌, ◌<◌, ◌^◌, ◌∷◌, ◌≡◌};
ghost use Rattle.cmd_steps.specs.Words.{IfOk, IsFoldable, IsOutcome, Judges, entries_of, bad_journal, folded_in, if_found, length, held_back_line as line_held_back, seen_as, told};

use chain_plain::{Folded, outcome};
use cmd_files::{Refusal, Stop};
use ids_config::Config;
use ids_types::{History, Loss};
use journal::{Journal, JournalFault, read};
use std::alloc::Global;

/// What a journal tells, and what the chain gives for it.
#[derive(Debug, Drop)]
pub struct Judged {
    pub history: History,
    /// The reports that the journal tells as lost.
    pub losses: Vec<Loss>,
    pub folded: Folded,
}

/// The history that the bytes are the journal of, folded, where it tells the chain's own numbers. The
/// bytes are given back before it is folded.
#[tactic(auto, using(cmd_spec::proofs::JournalLemmas::can_fold, cmd_spec::proofs::JournalLemmas::lines_are_few))]
pub(crate) fn judge_journal<'a>(
    alloc: Global,
    text: Vec<u8>,
    config: &Config,
) -> Result<Judged, Stop<&'a str>>
    ensures judges { Judges (if_found bad_journal (folded_in config.now text.items)) (seen_as (λ j. told j.history.turns j.losses.items) result) }
    ensures folds { IfOk result (λ j. IsOutcome config.now j.history.turns j.folded) }
    ensures foldable { IfOk result (λ j. IsFoldable config.now j.history.turns) }
{
    let Journal { history, losses } = match read(alloc, &text, config) {
        Ok(journal) => journal,
        Err(JournalFault::Line { line, number }) => {
            return Err(Stop::Refused(Refusal::BadJournal { line, number }));
        }
        Err(JournalFault::NoMemory) => return Err(Stop::NoMemory),
    };
    drop(text);
    let folded = outcome(alloc, config, &history)?;
    if let Some(line) = held_back_line(&history, &folded.limited) {
        // The fault of a turn whose number of held-back events is not the chain's.
        let number = 8;
        return Err(Stop::Refused(Refusal::BadJournal { line, number }));
    }
    Ok(Judged {
        history,
        losses,
        folded,
    })
}

/// The line of the first turn that tells another number than the turn before it hands on, or than 0 where
/// it is the first. `limited` has what each turn hands on.
fn held_back_line(history: &History, limited: &[u64]) -> Option<u64>
    requires { length history.now.turns + length (entries_of history.now.turns) + 1 < 2 ^ 64 }
    ensures { result ≡ line_held_back 1 (0 ∷ limited.now) history.now.turns }
{
    let mut line = 1;
    let mut due = 0;
    let mut numbers = limited;
    let mut turns = history.walk();
    while let Some((head, entries)) = turns.pop_front() {
        if head.limited != due {
            return Some(line);
        }
        line += 1 + entries.len() as u64;
        let (handed_on, rest) = numbers.split_first()?;
        due = *handed_on;
        numbers = rest;
    }
    None
}
