//! Reading a journal from its text.

ghost use Rattle.std.specs.Prelude.{◌≡◌, Ok, IfOk, IfErr};
ghost use Rattle.text_spec.specs.{IsJournal, journal_in, Told, Reads};
ghost use Rattle.journal.specs.Answers.{told, IsFirstBad, HasNone};

use crate::reader::Reader;
use ids_config::Config;
use ids_types::{History, Loss};
use std::alloc::Global;
use text_spec::{LineFault, LineReader, TextFault, read_lines};

/// What a journal tells.
#[derive(Debug, Drop)]
pub struct Journal {
    /// The turns of a run, each with its entries.
    pub history: History,
    /// The calls that found no event buffer, by caller and then by call.
    pub losses: Vec<Loss>,
}

/// The journal that the text is under this configuration, or its first bad line and that line's
/// first fault. The configuration's callers, ring and classes play no part.
/// Steps: the bytes of the text; where it tells losses also the entries, put into an ordered set once (log each), and
/// each loss looked up there (log). Memory: may answer want of memory (`TextFault`). By: `exact` (`Reads`); read off.
#[tactic(auto, using(text_spec::proofs::JournalLaws::journal_laws))]
pub fn read(alloc: Global, text: &[u8], config: &Config) -> Result<Journal, TextFault>
    // What is read is the journal of which this is the text, each byte of it.
    ensures found { IfOk result (λ j. IsJournal config.now text.now (told j.history.turns j.losses.items)) }
    // The text of a journal that fits is read as it, unless memory runs out.
    ensures again { (t : Told) → IsJournal config.now text.now t →
        Reads (λ j. told j.history.turns j.losses.items) (Ok t) result }
    // A fault is told only where the text is no journal.
    ensures only { IfErr result (HasNone config.now text.now) }
    // It is the first bad line, and that line's first fault.
    ensures first { IfErr result (IsFirstBad config.now text.now) }
    // The answer is what the text's lines tell one after another.
    ensures exact { Reads (λ j. told j.history.turns j.losses.items) (journal_in config.now text.now) result }
{
    // A configuration's events are few.
    let _parts = config.parts();
    read_journal(alloc, text, config)
}

/// What the lines of a text tell. A function of its own, so that the loop over the lines has all registers.
#[inline(never)]
fn read_journal(alloc: Global, text: &[u8], config: &Config) -> Result<Journal, TextFault>
    ensures exact { Reads (λ j. told j.history.turns j.losses.items) (journal_in config.now text.now) result }
    ensures told { IfOk result (λ j. journal_in config.now text.now ≡ Ok (told j.history.turns j.losses.items)) }
{
    let reader = read_lines(Reader::new(alloc, config)?, text)?;
    Ok(Journal {
        history: reader.history,
        losses: reader.losses,
    })
}

impl<'a> LineReader for Reader<'a> {
    ghost use Rattle.ids_config.specs.Parts.{Parts};
    ghost use Rattle.text_spec.specs.{Past, journal_grammar, Line};
    ghost use Rattle.journal.specs.ReaderView.{config_of, past_of};

    ghost Past = { Past };

    ghost Line = { Line };

    ghost Rules = { Parts };

    ghost grammar = { journal_grammar };

    ghost rules = { config_of };

    ghost past = { past_of };

    fn line(&mut self, line: &[u8]) -> Result<(), LineFault> {
        self.take(line)
    }

    /// A journal may end after any line.
    fn end(&self) -> Result<(), u8> {
        Ok(())
    }
}
