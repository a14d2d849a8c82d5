//! What a run puts whose words are not in form, and what one puts and answers that answers something beside its status.

ghost use Rattle.cmd_steps.specs.Words.{IsAnswered, Puts, TellsFinished, usage};

use cmd_files::{BAD_WORDS, DONE, Stop, say, tell};
use cmd_words::USAGE;
use ids_outside::Sink;
use std::alloc::Global;

/// Puts the usage, where the words are not in form, and returns the status.
/// Steps: one put. Waits: as its sink. By: `Puts`; no loop.
pub fn say_usage<K: Sink>(out: &mut K) -> u8
    ensures { Puts usage 2 result (K.hears out.old) (K.hears out.new) }
{
    say(USAGE, BAD_WORDS, out)
}

/// A run that was done.
#[derive(Debug, Drop)]
pub struct Finished<M> {
    /// The line that tells what was done.
    pub line: Vec<u8>,
    /// What the run answers.
    pub made: M,
}

/// Puts the line of a run that was done, or tells why it stopped, and returns the status, with what was made where it
/// is 0.
/// Steps: as `cmd_files::say` or `tell`. Memory: as `tell`. Waits: as its sink. By: `TellsFinished`; no loop.
pub fn tell_finished<M: Drop, K: Sink>(
    alloc: Global,
    end: Result<Finished<M>, Stop<&str>>,
    out: &mut K,
) -> (u8, Option<M>)
    ensures { TellsFinished end.entry result.1 result.0 (K.hears out.old) (K.hears out.new) }
{
    match end {
        Ok(finished) => {
            let status = say(&finished.line, DONE, out);
            (status, answered(status, finished.made))
        }
        Err(stop) => (tell(alloc, Err(stop), out), None),
    }
}

/// What a run made, where its status is 0.
fn answered<M: Drop>(status: u8, made: M) -> Option<M>
    ensures { IsAnswered status made result }
{
    if status == DONE { Some(made) } else { None }
}
