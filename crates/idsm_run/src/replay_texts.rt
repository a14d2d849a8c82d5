//! The texts of a replay: its event memory, its journal, and its line.

ghost use Rattle.std.specs.Prelude.{◌<◌, ◌^◌, ◌≡◌};
ghost use Rattle.cmd_steps.specs.Words.{IfOk, List, Parts, Round, journal_text, lost_contexts, memory_text, rows_of, replay_text as text_of, told, without_context};
ghost use Rattle.idsm_run.specs.Replayed.{IsReplayed};

use ids_types::{History, NoMemory};
use std::alloc::Global;
use trace_replay::Replayed;

/// What is told of a replay beside its messages.
#[derive(Drop)]
pub(crate) struct Texts {
    pub(crate) memory: Vec<u8>,
    pub(crate) journal: Vec<u8>,
    pub(crate) line: Vec<u8>,
}

/// Prints the event memory and the journal of a replay, and the line that tells what was replayed.
pub(crate) fn print_texts(alloc: Global, replayed: &Replayed) -> Result<Texts, NoMemory>
    requires { lost_contexts replayed.now.history.turns ≡ without_context replayed.now.history.turns }
    ensures memory { IfOk result (λ texts. (config : Parts) (rounds : List Round) → IsReplayed config rounds replayed.now →
        texts.memory.items ≡ memory_text (rows_of config replayed.now.history.turns)) }
    ensures journal { IfOk result (λ texts.
        texts.journal.items ≡ journal_text (told replayed.now.history.turns replayed.now.losses.items)) }
    ensures line { IfOk result (λ texts.
        texts.line.items ≡ text_of replayed.now.history.turns replayed.now.losses.items) }
{
    let memory = replayed.manager.memory().print(alloc)?;
    let journal = journal::print(alloc, &replayed.history, &replayed.losses)?;
    let line = replay_text(alloc, replayed)?;
    Ok(Texts {
        memory,
        journal,
        line,
    })
}

/// `turns T entries E losses L without W`, and a line feed: what was replayed.
fn replay_text(alloc: Global, replayed: &Replayed) -> Result<Vec<u8>, NoMemory>
    requires { lost_contexts replayed.now.history.turns ≡ without_context replayed.now.history.turns }
    ensures { IfOk result (λ text. text.items ≡ text_of replayed.now.history.turns replayed.now.losses.items) }
{
    let turns = replayed.history.turns();
    let entries = replayed.history.total_entries();
    let losses = replayed.losses.len();
    let without = contexts_lost(&replayed.history);
    let text = format!(in alloc;
        "turns {turns} entries {entries} losses {losses} without {without}\n"
    )?;
    Ok(text.into_bytes())
}

/// How many contexts the turns tell as lost.
fn contexts_lost(history: &History) -> u64
    requires { lost_contexts history.now.turns < 2 ^ 64 }
    ensures { result ≡ lost_contexts history.now.turns }
{
    let mut lost = 0;
    for turn in 0..history.turns() {
        lost += history.head(turn).lost_contexts;
    }
    lost
}
