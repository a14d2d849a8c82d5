//! Reading a trace from its text.

ghost use Rattle.std.specs.Prelude.{◌≡◌, IfOk, Ok};
ghost use Rattle.text_spec.specs.{Reads, AreRounds, trace_in};

use crate::reader::Reader;
use crate::trace::Trace;
use ids_config::{Config, asks};
use std::alloc::Global;
use text_spec::{LineFault, LineReader, TextFault, read_lines};

/// The trace that the text is under this configuration, or its first bad line and that line's first fault.
/// Steps: the bytes of the text. Memory: may answer want of memory (`TextFault`). By: `exact` (`Reads`); read off.
#[tactic(auto, using(text_spec::proofs::TraceLaws::trace_fits))]
pub fn read(alloc: Global, text: &[u8], config: &Config) -> Result<Trace, TextFault>
    // The answer is what the text's lines tell one after another.
    ensures exact { Reads (λ t. t.rounds) (trace_in config.now text.now) result }
    ensures callers { IfOk result (λ t. t.callers ≡ config.now.callers) }
    // The configuration allows what is read: each line, and the ticks.
    ensures fits { IfOk result (λ t. AreRounds config.now t.rounds) }
{
    read_trace(alloc, text, config)
}

/// What the lines of a text tell.
fn read_trace(alloc: Global, text: &[u8], config: &Config) -> Result<Trace, TextFault>
    ensures exact { Reads (λ t. t.rounds) (trace_in config.now text.now) result }
    ensures told { IfOk result (λ t. trace_in config.now text.now ≡ Ok t.rounds) }
    ensures callers { IfOk result (λ t. t.callers ≡ config.now.callers) }
{
    let reader = read_lines(Reader::new(alloc, config)?, text)?;
    Ok(reader.trace)
}

impl<'a> LineReader for Reader<'a> {
    ghost use Rattle.ids_config.specs.Parts.{Parts};
    ghost use Rattle.text_spec.specs.{PastRounds, trace_grammar, TraceLine};
    ghost use Rattle.trace_text.specs.Reading.{config_of, past_of};

    ghost Past = { PastRounds };

    ghost Line = { TraceLine };

    ghost Rules = { Parts };

    ghost grammar = { trace_grammar };

    ghost rules = { config_of };

    ghost past = { past_of };

    fn line(&mut self, line: &[u8]) -> Result<(), LineFault> {
        self.take(line)
    }

    /// No round may be open.
    fn end(&self) -> Result<(), u8> {
        asks(2, !self.is_open)
    }
}
