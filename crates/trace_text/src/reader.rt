//! What the lines so far of a trace tell, and the faults of the next one.

ghost use Rattle.std.specs.Prelude.{◌≡◌, ◌<◌, true, length, IfOk};
ghost use Rattle.text_spec.specs.TraceFaults.{no_rounds};

use crate::form::{RawAct, RawLine, line_for, line_of, read_ticks};
use crate::ranges::{are_ticks, has_event, is_act, keep_up, last_from};
use crate::trace::Trace;
use ids_config::{Config, asks};
use ids_types::NoMemory;
use std::alloc::Global;
use text_spec::{LineFault, Words};

/// What the lines read so far tell.
#[derive(Debug, Drop)]
pub(crate) struct Reader<'a> {
    pub(crate) config: &'a Config,
    pub(crate) trace: Trace,
    /// The last round has not ended: its tick is the last one so far.
    pub(crate) is_open: bool,
    /// The ticks of a line that opens a round.
    ticks: Vec<u64>,
    /// Where a context is decoded.
    room: Vec<u8>,
    ghost open_round: { is_open ≡ true → 0 < length trace.rounds },
    ghost callers: { trace.callers ≡ config.now.callers },
}

impl<'a> Reader<'a> {
    ghost use Rattle.std.specs.Prelude.{◌≡◌, ◌<◌, ◌≤◌, length, option_map, IfOk, OnOk};
    ghost use Rattle.text_spec.specs.{numbers_in, Took, after_line, past_with, asked_fault, closing_fault, no_rounds, opening_fault, trace_grammar, calls, closes, opens};
    ghost use Rattle.trace_text.specs.Reading.{act_told, added, past_of};

    pub(crate) fn new(alloc: Global, config: &'a Config) -> Result<Reader<'a>, NoMemory>
        ensures past { IfOk result (λ r. past_of r ≡ no_rounds) }
        ensures config { IfOk result (λ r. r.config.now ≡ config.now) }
    {
        Ok(Reader {
            config,
            trace: Trace::make(alloc, config)?,
            is_open: false,
            ticks: Vec::new(alloc),
            room: Vec::new(alloc),
        })
    }

    /// Takes a line, or tells its first fault.
    pub(crate) fn take(&mut self, line: &[u8]) -> Result<(), LineFault>
        ensures took { Took (past_of self.new)
            (after_line (trace_grammar self.old.config.now) (past_of self.old) line.now) result }
        ensures config { self.new.config.now ≡ self.old.config.now }
    {
        let Some((kind, words)) = Words::of(line).first() else {
            return Err(LineFault::Fault(1));
        };
        if kind == b"N".as_slice() {
            return self.open(words);
        }
        match line_of(kind, words) {
            None => Err(LineFault::Fault(1)),
            Some(RawLine::Call(caller, act)) => self.ask(caller, &act),
            Some(RawLine::Close(tick)) => self.close(tick),
        }
    }

    /// Opens a round, whose ticks beside these words are.
    #[tactic(auto, using(crate::proofs::Names::opening_small, crate::proofs::Names::opening_keeps_up))]
    fn open(&mut self, words: Words<'_>) -> Result<(), LineFault>
        ensures took { Took (past_of self.new)
            (past_with (trace_grammar self.old.config.now) (past_of self.old)
            (option_map opens (numbers_in (length words.entry) words.entry))) result }
        ensures config { self.new.config.now ≡ self.old.config.now }
    {
        if !read_ticks(words, &mut self.ticks)? {
            return Err(LineFault::Fault(1));
        }
        self.check_opening()?;
        let after = last_from(self.trace.last_tick(), &self.ticks);
        self.trace.push_round(&self.ticks, after)?;
        self.is_open = true;
        Ok(())
    }

    fn check_opening(&self) -> Result<(), u8>
        ensures { result ≡ opening_fault (past_of self.now) self.now.ticks.items }
    {
        asks(2, !self.is_open)?;
        asks(3, are_ticks(&self.ticks))?;
        asks(5, keep_up(self.trace.last_tick(), &self.ticks))
    }

    /// Takes what a caller asks for.
    fn ask(&mut self, caller: u64, act: &RawAct<'_>) -> Result<(), LineFault>
        ensures took { let past = past_of self.old in let config = self.old.config.now in
            Took (past_of self.new) (added config past (calls caller (act_told act.now))
            (asked_fault config past caller (act_told act.now))) result }
        ensures config { self.new.config.now ≡ self.old.config.now }
    {
        self.check_asked(caller, act)?;
        let line = line_for(act, &mut self.room)?;
        self.trace.push_line(caller as u8, &line)?;
        Ok(())
    }

    fn check_asked(&self, caller: u64, act: &RawAct<'_>) -> Result<(), u8>
        ensures fault { result ≡
            asked_fault self.now.config.now (past_of self.now) caller (act_told act.now) }
        ensures caller { OnOk result (caller < 32) }
        ensures few { OnOk result (length self.now.config.now.events ≤ 256) }
    {
        asks(2, self.is_open)?;
        asks(3, caller < u64::from(self.trace.callers()) && is_act(act))?;
        asks(4, has_event(self.config, act))
    }

    /// Ends the round.
    fn close(&mut self, tick: u64) -> Result<(), LineFault>
        ensures took { Took (past_of self.new)
            (added self.old.config.now (past_of self.old) (closes tick)
            (closing_fault (past_of self.old) tick)) result }
        ensures config { self.new.config.now ≡ self.old.config.now }
    {
        asks(2, self.is_open)?;
        asks(3, are_ticks(&[tick]))?;
        asks(5, self.trace.last_tick() <= tick)?;
        self.trace.end_round(tick);
        self.is_open = false;
        Ok(())
    }
}
