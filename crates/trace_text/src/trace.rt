//! A trace as a value: its rounds, and the calls that make and read it.

ghost use Rattle.std.specs.Prelude.{◌≡◌, ℕ, ◌-◌, ◌<◌, ◌≤◌, ◌^◌, ◌∷◌, ◌++◌, [], length, slice_range, IfOk, OnOk, OnErr};
ghost use Rattle.std.specs.List.{AllByRecursion};
ghost use Rattle.history_spec.specs.{KeepUpFrom, last_tick, lines_at, lines_of};
ghost use Rattle.text_spec.specs.{ended_at, with_last, AreTicks};
ghost use Rattle.trace_text.specs.{line_asked, line_at, end_at as place_at, no_rounds_of, round_at, with_line, with_round};

use crate::rows::{CallerRows, Line};
use ids_config::Config;
use ids_types::NoMemory;
use std::alloc::Global;
use std::marker::Model;

/// A place between two rounds: how many ticks beside calls and lines of each caller stand before it, and
/// the last tick before it.
#[derive(Clone, Copy, Debug)]
pub(crate) struct RoundEnd {
    beside: usize,
    lines: [u32; 32],
    after: u64,
}

/// How much a trace is to have room for: rounds with a tick beside each, lines of each caller, and bytes of the
/// contexts of all lines.
#[derive(Clone, Copy, Debug)]
pub struct TraceRoom {
    pub rounds: usize,
    pub lines: usize,
    pub bytes: usize,
}

/// What a replay is asked to do: rounds, each with the lines of each caller and the ticks of its turns.
#[derive(Debug, Drop)]
pub struct Trace {
    beside: Vec<u64>,
    rows: CallerRows,
    /// Where the first round begins, and where each ends.
    ends: Vec<RoundEnd>,
}

impl Model for Trace {
    ghost use Rattle.trace_text.specs.TraceView.{Traced};

    ghost Value = { Traced };

    ghost use Rattle.trace_text.specs.TraceView.{traced, IsSound};

    ghost view = { traced };

    ghost invariant = { IsSound };
}

impl Trace {
    /// A trace of the configuration's callers, without rounds.
    /// Steps: the callers, at most 32. Memory: may answer want of memory; it grows later. By: read off.
    pub fn make(alloc: Global, config: &Config) -> Result<Trace, NoMemory>
        ensures { IfOk result (λ t. t ≡ no_rounds_of config.now.callers) }
    {
        let room = TraceRoom {
            rounds: 0,
            lines: 0,
            bytes: 0,
        };
        Trace::with_room(alloc, config, &room)
    }

    /// The same, with room at once for what is to come.
    /// Steps: the callers, at most 32. Memory: may answer want of memory; it grows where the room is short. By: read off.
    pub fn with_room(alloc: Global, config: &Config, room: &TraceRoom) -> Result<Trace, NoMemory>
        ensures { IfOk result (λ t. t ≡ no_rounds_of config.now.callers) }
    {
        let callers = config.parts().callers as usize;
        let mut ends = Vec::with_capacity(alloc, room.rounds.saturating_add(1))?;
        // Where the first round begins.
        ends.push(RoundEnd {
            beside: 0,
            lines: [0; 32],
            after: 0,
        })?;
        Ok(Trace {
            beside: Vec::with_capacity(alloc, room.rounds)?,
            rows: CallerRows::with_room(alloc, callers, room.lines, room.bytes)?,
            ends,
        })
    }

    /// Adds a round without lines.
    /// Steps: the ticks beside, and 32 numbers. Memory: may answer want of memory; 144 bytes a round, whatever the
    /// callers; unchanged then. By: `err`; read off.
    pub fn push_round(&mut self, beside: &[u64], after: u64) -> Result<(), NoMemory>
        requires small { AllByRecursion (λ tick. tick ≤ 2 ^ 62) (beside.now ++ after ∷ []) }
        requires keeps_up { KeepUpFrom (last_tick self.old.rounds) (beside.now ++ after ∷ []) }
        ensures ok { OnOk result (self.new ≡ with_round beside.now after self.old) }
        ensures err { OnErr result (self.new ≡ self.old) }
    {
        let lines = last_of(&self.ends).lines;
        self.ends.reserve(1)?;
        self.beside.extend_from_slice(beside)?;
        self.ends.push_reserved(RoundEnd {
            beside: self.beside.len(),
            lines,
            after,
        });
        Ok(())
    }

    /// Adds a caller's line to the last round.
    /// Steps: the bytes of the context. Memory: may answer want of memory, as it does at 2^32 lines of a caller;
    /// unchanged then. By: `err`; read off.
    pub fn push_line(&mut self, caller: u8, line: &Line<'_>) -> Result<(), NoMemory>
        requires caller { caller < self.old.callers }
        requires round { 0 < length self.old.rounds }
        ensures ok { OnOk result (self.new ≡ with_line caller (line_asked line.now) self.old) }
        ensures err { OnErr result (self.new ≡ self.old) }
        ensures count { length self.new.rounds ≡ length self.old.rounds }
    {
        let (caller, last) = (caller as usize, self.ends.len() - 1);
        let count = self.ends[last].lines[caller];
        let more = count.checked_add(1).ok_or(NoMemory)?;
        self.rows.push(caller, line)?;
        self.ends[last].lines[caller] = more;
        Ok(())
    }
}

impl Trace {
    /// How many callers there are.
    /// By: `few`: at most 32; no loop.
    pub fn callers(&self) -> u8
        ensures callers { result ≡ self.now.callers }
        ensures few { result ≤ 32 }
    {
        self.rows.callers() as u8
    }

    /// How many rounds there are. Each has a list of lines for each caller, no tick is below the one before
    /// it, and a caller's lines of all rounds are fewer than 2^32.
    pub fn rounds(&self) -> u64
        ensures count { result ≡ length self.now.rounds }
        ensures callers { AllByRecursion (λ round. length round.lines ≡ self.now.callers) self.now.rounds }
        ensures ticks { AreTicks self.now.rounds }
        ensures few { (caller : ℕ) → caller < self.now.callers →
            length (lines_of caller self.now.rounds) < 2 ^ 32 }
    {
        (self.ends.len() - 1) as u64
    }

    /// The ticks of the turns beside the calls of a round, from 0.
    pub fn beside(&self, round: u64) -> &[u64]
        requires { round < length self.now.rounds }
        ensures { result.now ≡ (round_at self.now.rounds round).beside }
    {
        let round = round as usize;
        let (start, end) = (end_at(&self.ends, round), end_at(&self.ends, round + 1));
        part(&self.beside, start.beside, end.beside)
    }

    /// The tick of the turn after the calls of a round.
    pub fn after(&self, round: u64) -> u64
        requires { round < length self.now.rounds }
        ensures { result ≡ (round_at self.now.rounds round).after }
    {
        end_at(&self.ends, round as usize + 1).after
    }

    /// How many lines a caller has in a round.
    pub fn lines(&self, round: u64, caller: u8) -> u64
        requires round { round < length self.now.rounds }
        requires caller { caller < self.now.callers }
        ensures { result ≡ length (lines_at caller (round_at self.now.rounds round)) }
    {
        let (round, caller) = (round as usize, caller as usize);
        let (start, end) = (end_at(&self.ends, round), end_at(&self.ends, round + 1));
        u64::from(end.lines[caller] - start.lines[caller])
    }

    /// Line `i` of a caller in a round, from 0, with its context lent.
    /// By: no loop; the context is lent.
    pub fn line(&self, round: u64, caller: u8, i: u64) -> Line<'_>
        requires round { round < length self.now.rounds }
        requires caller { caller < self.now.callers }
        requires line { i < length (lines_at caller (round_at self.now.rounds round)) }
        ensures { line_asked result ≡ line_at (lines_at caller (round_at self.now.rounds round)) i }
    {
        let (round, caller) = (round as usize, caller as usize);
        let start = u64::from(end_at(&self.ends, round).lines[caller]);
        self.rows.line(caller, (start + i) as usize)
    }

    /// The last tick of all, 0 where there are no rounds.
    pub fn last_tick(&self) -> u64
        ensures tick { result ≡ last_tick self.now.rounds }
        ensures ticks { AreTicks self.now.rounds }
    {
        last_of(&self.ends).after
    }

    /// Ends the last round at a later tick.
    pub(crate) fn end_round(&mut self, tick: u64)
        requires round { 0 < length self.old.rounds }
        requires later { last_tick self.old.rounds ≤ tick }
        requires small { tick ≤ 2 ^ 62 }
        ensures callers { self.new.callers ≡ self.old.callers }
        ensures rounds { self.new.rounds ≡ with_last (ended_at tick) self.old.rounds }
    {
        let last = self.ends.len() - 1;
        self.ends[last].after = tick;
    }
}

/// The ticks between two places.
fn part(ticks: &[u64], start: usize, end: usize) -> &[u64]
    requires start { start ≤ end }
    requires end { end ≤ length ticks.now }
    ensures { result.now ≡ slice_range ticks.now start end }
{
    &ticks[start..end]
}

/// Place `k` of those between rounds.
fn end_at(ends: &[RoundEnd], k: usize) -> &RoundEnd
    requires { k < length ends.now }
    ensures { result.now ≡ place_at ends.now k }
{
    &ends[k]
}

/// Where the last round ends.
fn last_of(ends: &[RoundEnd]) -> &RoundEnd
    requires { 0 < length ends.now }
    ensures { result.now ≡ place_at ends.now (length ends.now - 1) }
{
    end_at(ends, ends.len() - 1)
}
