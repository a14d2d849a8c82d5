//! The trace, drawn line by line, by numbers from a linear congruence.

ghost use Rattle.std.specs.Prelude.{◌≡◌, ℕ, ◌≤◌, ◌<◌, ◌+◌, ◌*◌, ◌%◌, ◌==◌, ◌&&◌, ◌++◌, ◌∷◌, [], length, IfOk, OnOk};
ghost use Rattle.history_spec.specs.Rounds.{last_tick};
ghost use Rattle.trace_text.specs.Lines.{line_asked};
ghost use Rattle.gen_options.specs.Ranges.{IsInRange};
ghost use Rattle.gen_recording.specs.{ramp as ramp_of, with_lines, draw, number_after, changes_by, drawn_below, draws_before, next_number, generated_round, lines_by, rounds_of, tick_after, report_of, stamp_of};

use gen_options::Options;
use ids_config::Config;
use ids_types::{EventIndex, NoMemory, Stamp};
use std::alloc::{AllocError, Global};
use trace_text::{Line, Trace, TraceAct, TraceRoom};

/// What each number is multiplied by for the next one.
const FACTOR: u64 = 6_364_136_223_846_793_005;

/// What is added then.
const ADDEND: u64 = 1_442_695_040_888_963_407;

/// How many of a number's lower bits a draw leaves out.
const LOWER_BITS: u32 = 33;

/// Draws one after another; each changes the number that the next one is made from.
#[derive(Debug, Drop)]
pub(crate) struct Draws {
    pub(crate) number: u64,
}

impl Draws {
    /// The next draw, a number below `k`.
    #[tactic(auto, using(crate::proofs::DrawLemmas::number_wraps))]
    pub(crate) fn below(&mut self, k: u64) -> u64
        requires { 0 < k }
        ensures number { self.new.number ≡ next_number self.old.number }
        ensures value { result ≡ drawn_below k self.new.number }
        ensures below { result < k }
    {
        self.number = self.number.wrapping_mul(FACTOR).wrapping_add(ADDEND);
        (self.number >> LOWER_BITS) % k
    }
}

/// How many times a caller reports in a round.
const REPORTS: u64 = 4;

/// How many bytes of context data a report has, by its draw.
const SIZES: [usize; 4] = [0, 4, 16, 40];

/// The trace of these options.
#[tactic(auto, using(crate::proofs::DrawLemmas::drawings))]
pub(crate) fn draw_trace(
    alloc: Global,
    options: &Options,
    config: &Config,
) -> Result<Trace, NoMemory>
    requires range { IsInRange options.now }
    requires callers { config.now.callers ≡ options.now.callers }
    ensures { IfOk result (λ trace. trace ≡ record { callers = options.now.callers; rounds = rounds_of options.now }) }
{
    let ramp = make_ramp(alloc)?;
    let number = options.start;
    let mut draws = Draws { number };
    let mut trace = Trace::with_room(alloc, config, &trace_room(options))?;
    for round in 0..options.rounds {
        draw_round(&mut trace, options, round, &mut draws, &ramp)?;
    }
    Ok(trace)
}

/// How much the trace of these options has room for: a little more than the draws give as a rule.
fn trace_room(options: &Options) -> TraceRoom
    requires { IsInRange options.now }
{
    let reports = REPORTS * options.rounds;
    TraceRoom {
        rounds: options.rounds as usize,
        lines: (reports + options.rounds / 100) as usize,
        bytes: (16 * REPORTS * (options.callers * options.rounds)) as usize,
    }
}

/// The bytes from 0 to 255, of which context data are cut.
#[tactic(auto, using(crate::proofs::DrawLemmas::made_more, crate::proofs::DrawLemmas::ramp_is))]
fn make_ramp(alloc: Global) -> Result<Vec<u8>, AllocError>
    ensures { IfOk result (λ bytes. bytes.items ≡ ramp_of) }
{
    let mut bytes = Vec::with_capacity(alloc, 256)?;
    for byte in 0..256_u16 {
        bytes.push(byte as u8)?;
    }
    Ok(bytes)
}

#[tactic(auto, using(crate::proofs::DrawLemmas::drawings))]
fn draw_round(
    trace: &mut Trace,
    options: &Options,
    round: u64,
    draws: &mut Draws,
    ramp: &[u8],
) -> Result<(), NoMemory>
    requires range { IsInRange options.now }
    requires callers { trace.old.callers ≡ options.now.callers }
    requires round { round < options.now.rounds }
    requires tick { last_tick trace.old.rounds ≡ 10 * round }
    requires ramp { ramp.now ≡ ramp_of }
    requires number { draws.old.number ≡ number_after options.now.start (draws_before options.now round 0) }
    ensures trace { OnOk result (trace.new ≡
        record { callers = trace.old.callers; rounds = trace.old.rounds ++ generated_round options.now round ∷ [] }) }
    ensures number { OnOk result (draws.new.number
        ≡ number_after options.now.start (draws_before options.now (round + 1) 0)) }
{
    let beside = [10 * round + 5];
    let ticks: &[u64] = if round % 2 == 1 { &beside } else { &[] };
    trace.push_round(ticks, 10 * (round + 1))?;
    for caller in 0..options.callers as u8 {
        draw_lines(trace, options, round, caller, draws, ramp)?;
    }
    Ok(())
}

/// Draws the lines of a caller in the last round.
#[tactic(auto, using(crate::proofs::DrawLemmas::drawings))]
fn draw_lines(
    trace: &mut Trace,
    options: &Options,
    round: u64,
    caller: u8,
    draws: &mut Draws,
    ramp: &[u8],
) -> Result<(), NoMemory>
    requires range { IsInRange options.now }
    requires round { round < options.now.rounds }
    requires some { 0 < length trace.old.rounds }
    requires caller { caller < trace.old.callers }
    requires ramp { ramp.now ≡ ramp_of }
    requires number { draws.old.number ≡ number_after options.now.start (draws_before options.now round caller) }
    ensures trace { OnOk result (trace.new ≡ with_lines caller (lines_by options.now round caller) trace.old) }
    ensures number { OnOk result (draws.new.number
        ≡ number_after options.now.start (draws_before options.now round (caller + 1))) }
{
    push_change(trace, round, caller)?;
    for _ in 0..REPORTS {
        let line = draw_report(draws, options.events, 10 * (round + 1), ramp);
        trace.push_line(caller, &line)?;
    }
    Ok(())
}

/// The change of the state by which the first caller begins each hundredth round.
#[tactic(auto, using(crate::proofs::DrawLemmas::drawings))]
fn push_change(trace: &mut Trace, round: u64, caller: u8) -> Result<(), NoMemory>
    requires some { 0 < length trace.old.rounds }
    requires caller { caller < trace.old.callers }
    ensures { OnOk result (trace.new ≡ with_lines caller (changes_by round caller) trace.old) }
{
    if !begins_with_change(round, caller) {
        return Ok(());
    }
    let state = if round / 100 % 2 == 0 { 1 } else { 0 };
    let act = TraceAct::State(state);
    trace.push_line(caller, &Line { act })
}

fn begins_with_change(round: u64, caller: u8) -> bool
    ensures { result ≡ (caller == 0 && round % 100 == 99) }
{
    caller == 0 && round % 100 == 99
}

/// Draws a report, with its context data cut from the ramp.
#[tactic(auto, using(crate::proofs::DrawLemmas::drawings))]
fn draw_report<'r>(draws: &mut Draws, events: u64, tick: u64, ramp: &'r [u8]) -> Line<'r>
    requires some { 0 < events }
    requires few { events ≤ 200 }
    requires ramp { ramp.now ≡ ramp_of }
    ensures line { (start n : ℕ) → draws.old.number ≡ number_after start n → line_asked result
        ≡ report_of tick (draw start n events) (draw start (n + 1) 3) (draw start (n + 2) 2) (draw start (n + 3) 4) }
    ensures number { (start n : ℕ) → draws.old.number ≡ number_after start n →
        draws.new.number ≡ number_after start (n + 1 + 1 + 1 + 1) }
{
    let event = draws.below(events);
    let count = 1 + draws.below(3);
    let stamp = stamp_by(draws.below(2), tick);
    let size = SIZES[draws.below(4) as usize];
    let act = TraceAct::Report {
        event: EventIndex(event as u16),
        count: count as u16,
        stamp,
        context: &ramp[event as usize..event as usize + size],
    };
    Line { act }
}

fn stamp_by(choice: u64, tick: u64) -> Option<Stamp>
    ensures { result ≡ stamp_of tick choice }
{
    if choice == 0 { None } else { Some(Stamp(tick)) }
}
