//! The history of a trace in which nothing is lost, in the making: one caller after the other makes its calls of a round,
//! and the filter chain takes the turns one by one.

ghost use Rattle.std.specs.Prelude.{◌≡◌, ◌≤◌, ◌<◌, ◌+◌, ◌∷◌, ◌++◌, [], List, length, map, reverse, IfOk, OnOk};
ghost use Rattle.history_spec.specs.{KeepUpFrom, lines_at, round_ticks};
ghost use Rattle.trace_text.specs.{line_asked, round_at};
ghost use Rattle.gen_recording.specs.{HasClass, Call, Plan, call_by, plans_in, plans_of, CanAsk, CanAskAll, CanRecord, CanTake, IsAt, IsBetween, IsRecording};

use crate::entries::{Counts, make_entry};
use chain_plain::{Desk, Tally};
use event_chain::EventChain;
use filter_chain::Chain;
use ids_config::Config;
use ids_types::{NoMemory, Plain, TurnHead};
use journal::push_items;
use std::alloc::Global;
use trace_text::{Line, Trace};

/// The journal of a history in the making, and what the filter chain gives for it.
#[derive(Debug, Drop)]
pub(crate) struct Recorder<'t> {
    pub(crate) counts: Counts,
    pub(crate) desk: Desk<'t>,
    pub(crate) chain: EventChain<Plain<'t>>,
    pub(crate) journal: Vec<u8>,
    /// The tick of the last turn.
    pub(crate) tick: u64,
    pub(crate) tally: Tally,
}

impl<'t> Recorder<'t> {
    /// Before the first turn.
    pub(crate) fn make(alloc: Global, config: &Config) -> Result<Recorder<'t>, NoMemory>
        ensures { IfOk result (IsAt config.now [] []) }
    {
        Ok(Recorder {
            counts: Counts::make(alloc, config)?,
            desk: Desk::make(alloc, config.parts().events.len() as u64)?,
            chain: EventChain::make(alloc, config)?,
            journal: Vec::new(alloc),
            tick: 0,
            tally: Tally::make(alloc, 0)?,
        })
    }

    /// Takes a caller's line: it becomes an entry of the next turn.
    fn call(&mut self, config: &Config, caller: u8, line: Line<'t>) -> Result<(), NoMemory>
        requires recording { IsRecording config.now self.old }
        requires few { length self.old.desk.items.items < 1024 }
        requires line { CanAsk config.now caller (line_asked line) }
        ensures at { OnOk result ((before : List Plan) (calls : List Call) → IsAt config.now before calls self.old →
            IsAt config.now before (calls ++ record { caller = caller; asked = line_asked line.entry } ∷ []) self.new) }
        ensures tick { OnOk result (self.new.tick ≡ self.old.tick) }
    {
        let entry = make_entry(config, caller, line, &mut self.counts)?;
        self.desk.items.push_reserved(entry);
        Ok(())
    }

    /// Makes the turn that takes all lines since the last one.
    fn turn(&mut self, config: &Config, tick: u64) -> Result<(), NoMemory>
        requires recording { IsRecording config.now self.old }
        requires tick { self.old.tick ≤ tick }
        ensures at { OnOk result ((before : List Plan) (calls : List Call) → IsAt config.now before calls self.old →
            IsAt config.now (record { tick = tick; calls = calls } ∷ before) [] self.new) }
        ensures tick { OnOk result (self.new.tick ≡ tick) }
    {
        let head = TurnHead {
            tick,
            lost_events: 0,
            lost_contexts: 0,
            limited: self.chain.limited(),
        };
        push_items(&mut self.journal, &head, &self.desk.items)?;
        self.desk.turn(&mut self.chain, &head);
        self.tick = tick;
        self.tally.add(&self.desk.out, self.chain.limited())
    }

    /// Takes all rounds of a trace, and the last turn.
    pub(crate) fn take_all(&mut self, config: &Config, trace: &'t Trace) -> Result<(), NoMemory>
        requires at { IsAt config.now [] [] self.old }
        requires can { CanRecord config.now trace.now }
        ensures { OnOk result (IsAt config.now (reverse (plans_of trace.now.rounds)) [] self.new) }
    {
        for round in 0..trace.rounds() {
            self.take_round(config, trace, round)?;
        }
        self.turn(config, self.tick)
    }

    /// Takes the turns of a round.
    fn take_round(&mut self, config: &Config, trace: &'t Trace, round: u64) -> Result<(), NoMemory>
        requires between { IsBetween config.now self.old }
        requires there { round < length trace.now.rounds }
        requires callers { trace.now.callers ≡ config.now.callers }
        requires can { CanTake config.now (round_at trace.now.rounds round) }
        requires ticks { KeepUpFrom self.old.tick (round_ticks (round_at trace.now.rounds round)) }
        ensures at { OnOk result ((before : List Plan) → IsAt config.now before [] self.old →
            IsAt config.now (reverse (plans_in (round_at trace.now.rounds round)) ++ before) [] self.new) }
        ensures tick { OnOk result (self.new.tick ≡ (round_at trace.now.rounds round).after) }
    {
        for &tick in trace.beside(round) {
            self.turn(config, tick)?;
        }
        for caller in 0..trace.callers() {
            self.take_lines(config, trace, round, caller)?;
        }
        self.turn(config, trace.after(round))
    }

    /// Takes the lines of a caller in a round.
    fn take_lines(
        &mut self,
        config: &Config,
        trace: &'t Trace,
        round: u64,
        caller: u8,
    ) -> Result<(), NoMemory>
        requires recording { IsRecording config.now self.old }
        requires there { round < length trace.now.rounds }
        requires caller { caller < trace.now.callers }
        requires few { length self.old.desk.items.items + length (lines_at caller (round_at trace.now.rounds round)) ≤ 1024 }
        requires can { CanAskAll config.now caller (lines_at caller (round_at trace.now.rounds round)) }
        ensures at { OnOk result ((before : List Plan) (calls : List Call) → IsAt config.now before calls self.old →
            IsAt config.now before (calls ++ map (call_by caller) (lines_at caller (round_at trace.now.rounds round))) self.new) }
        ensures tick { OnOk result (self.new.tick ≡ self.old.tick) }
    {
        for i in 0..trace.lines(round, caller) {
            self.call(config, caller, trace.line(round, caller, i))?;
        }
        Ok(())
    }
}
