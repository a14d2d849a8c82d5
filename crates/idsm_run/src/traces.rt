//! The input files of a replay.

ghost use Rattle.std.specs.Prelude.{◌≡◌};
ghost use Rattle.cmd_steps.specs.Words.{IfOk, Judges, Reads, asked_in, five_of, bad_trace, if_found, seen_as, trace_in};
ghost use Rattle.text_spec.specs.TraceReading.{AreRounds};
ghost use Rattle.idsm_run.specs.Replayed.{asked_of};

use cmd_files::{MAX_TRACE_BYTES, Refusal, Stop, read_file};
use cmd_steps::read_config;
use cmd_words::ReplayNames;
use ids_config::Config;
use ids_outside::Shelf;
use std::alloc::Global;
use trace_text::{Trace, TraceFault, read};

/// A configuration, and a trace of its events.
#[derive(Debug, Drop)]
pub(crate) struct Asked {
    pub(crate) config: Config,
    pub(crate) trace: Trace,
}

/// Reads the configuration and then the trace; each is judged before the next is read.
pub(crate) fn read_asked<'a, H: Shelf>(
    alloc: Global,
    names: ReplayNames<'a>,
    shelf: &mut H,
) -> Result<Asked, Stop<&'a str>>
    ensures reads { Reads (asked_in (five_of names.entry)) (seen_as asked_of result) (H.shows shelf.old) (H.shows shelf.new) }
    ensures callers { IfOk result (λ asked. asked.trace.callers ≡ asked.config.callers) }
    ensures rounds { IfOk result (λ asked. AreRounds asked.config asked.trace.rounds) }
{
    let config = read_config(alloc, names.config, shelf)?;
    let text = read_file(alloc, names.trace, MAX_TRACE_BYTES, shelf)?;
    let trace = judge_trace(alloc, text, &config)?;
    Ok(Asked { config, trace })
}

/// The trace that the bytes are under this configuration. The bytes are given back.
fn judge_trace<'a>(alloc: Global, text: Vec<u8>, config: &Config) -> Result<Trace, Stop<&'a str>>
    ensures judges { Judges (if_found bad_trace (trace_in config.now text.items)) (seen_as (λ t. t.rounds) result) }
    ensures callers { IfOk result (λ t. t.callers ≡ config.now.callers) }
    ensures rounds { IfOk result (λ t. AreRounds config.now t.rounds) }
{
    match read(alloc, &text, config) {
        Ok(trace) => Ok(trace),
        Err(TraceFault::Line { line, number }) => {
            Err(Stop::Refused(Refusal::BadTrace { line, number }))
        }
        Err(TraceFault::NoMemory) => Err(Stop::NoMemory),
    }
}
