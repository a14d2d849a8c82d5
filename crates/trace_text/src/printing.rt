//! The text of a trace.

ghost use Rattle.std.specs.Prelude.{◌≡◌, ◌<◌, ◌≤◌, ◌++◌, ◌∷◌, [], length, codes, decimal, Ok, IfOk, OnOk};
ghost use Rattle.std.specs.List.{AllByRecursion};
ghost use Rattle.ids_config.specs.Parts.{Parts};
ghost use Rattle.history_spec.specs.Rounds.{lines_at};
ghost use Rattle.text_spec.specs.{bytes_word, ended_line, stamp_text, MayAsk, trace_in, asked_fields, opens, round_told, trace_fields, trace_text, space};
ghost use Rattle.trace_text.specs.{line_asked, caller_text, lines_text, ticks_text, round_at};

use crate::rows::{Line, TraceAct};
use crate::trace::Trace;
use ids_types::{EventIndex, NoMemory, Stamp};
use std::alloc::Global;
use text_spec::{push_bytes, push_field, push_mode, push_stamp};

/// The text of a trace: its rounds, the lines of each by caller.
/// Steps: the bytes of the text, and one step for each caller of each round, at most 32. Memory: may answer want of
/// memory. By: `text`; read off.
#[tactic(auto, using(crate::proofs::PrintingLemmas::pushes, crate::proofs::PrintingLemmas::text_again))]
pub fn print(alloc: Global, trace: &Trace) -> Result<Vec<u8>, NoMemory>
    ensures text { IfOk result (λ text. text.items ≡ trace_text trace.now.rounds) }
    // Under each configuration that has its callers and allows each of its lines, the text is read as it.
    ensures again { IfOk result (λ text. (config : Parts) → config.callers ≤ 32 →
        length config.events ≤ 256 → config.callers ≡ trace.now.callers →
        AllByRecursion (λ round. AllByRecursion (AllByRecursion (MayAsk config)) round.lines) trace.now.rounds →
        trace_in config text.items ≡ Ok trace.now.rounds) }
{
    let mut text = Vec::new(alloc);
    for round in 0..trace.rounds() {
        push_round(&mut text, trace, round)?;
    }
    Ok(text)
}

/// Appends the lines of a round.
#[tactic(auto, using(crate::proofs::PrintingLemmas::round_pushes))]
fn push_round(out: &mut Vec<u8>, trace: &Trace, round: u64) -> Result<(), NoMemory>
    requires round { round < length trace.now.rounds }
    requires callers { length (round_at trace.now.rounds round).lines ≡ trace.now.callers }
    ensures { OnOk result (out.new.items ≡
        out.old.items ++ lines_text (round_told (round_at trace.now.rounds round))) }
{
    push_opening(out, trace.beside(round))?;
    for caller in 0..trace.callers() {
        push_caller(out, trace, round, caller)?;
    }
    out.push(b'E')?;
    push_field(out, trace.after(round))?;
    Ok(out.push(b'\n')?)
}

/// Appends `N` and the ticks as a line.
#[tactic(auto, using(crate::proofs::PrintingLemmas::pushes))]
fn push_opening(out: &mut Vec<u8>, ticks: &[u64]) -> Result<(), NoMemory>
    ensures { OnOk result (out.new.items ≡ out.old.items ++ ended_line (trace_fields (opens ticks.now))) }
{
    out.push(b'N')?;
    push_ticks(out, ticks)?;
    Ok(out.push(b'\n')?)
}

/// Appends each tick after a space.
#[tactic(auto, using(crate::proofs::PrintingLemmas::pushes))]
fn push_ticks(out: &mut Vec<u8>, ticks: &[u64]) -> Result<(), NoMemory>
    ensures { OnOk result (out.new.items ≡ out.old.items ++ ticks_text ticks.now) }
{
    for tick in ticks {
        push_field(out, *tick)?;
    }
    Ok(())
}

/// Appends the lines of a caller in a round.
#[tactic(auto, using(crate::proofs::PrintingLemmas::pushes))]
fn push_caller(out: &mut Vec<u8>, trace: &Trace, round: u64, caller: u8) -> Result<(), NoMemory>
    requires round { round < length trace.now.rounds }
    requires caller { caller < trace.now.callers }
    ensures { OnOk result (out.new.items ≡
        out.old.items ++ caller_text caller (lines_at caller (round_at trace.now.rounds round))) }
{
    for i in 0..trace.lines(round, caller) {
        push_line(out, caller, &trace.line(round, caller, i))?;
    }
    Ok(())
}

/// Appends `R CALLER EVENT COUNT STAMP CONTEXT`, `S CALLER STATE` or `M CALLER EVENT MODE` as a line.
fn push_line(out: &mut Vec<u8>, caller: u8, line: &Line<'_>) -> Result<(), NoMemory>
    ensures { OnOk result (out.new.items ≡
        out.old.items ++ ended_line (asked_fields caller (line_asked line.now))) }
{
    match line.act {
        TraceAct::Report {
            event,
            count,
            stamp,
            context,
        } => {
            push_head(out, b'R', caller)?;
            push_report(out, event, count, stamp, context)?;
        }
        TraceAct::State(state) => {
            push_head(out, b'S', caller)?;
            push_field(out, u64::from(state))?;
        }
        TraceAct::SetMode { event, mode } => {
            push_head(out, b'M', caller)?;
            push_field(out, u64::from(event.0))?;
            out.push(b' ')?;
            push_mode(out, mode)?;
        }
    }
    Ok(out.push(b'\n')?)
}

/// Appends a line's letter and its caller.
fn push_head(out: &mut Vec<u8>, letter: u8, caller: u8) -> Result<(), NoMemory>
    ensures { OnOk result (out.new.items ≡ out.old.items ++ (letter ∷ (space ∷ decimal caller))) }
{
    out.push(letter)?;
    push_field(out, u64::from(caller))
}

/// Appends ` EVENT COUNT STAMP CONTEXT`.
fn push_report(
    out: &mut Vec<u8>,
    event: EventIndex,
    count: u16,
    stamp: Option<Stamp>,
    context: &[u8],
) -> Result<(), NoMemory>
    ensures { OnOk result (out.new.items ≡ out.old.items ++ ((space ∷ decimal event.0)
        ++ ((space ∷ decimal count) ++ ((space ∷ stamp_text stamp)
        ++ (space ∷ bytes_word context.now))))) }
{
    push_field(out, u64::from(event.0))?;
    push_field(out, u64::from(count))?;
    out.push(b' ')?;
    push_stamp(out, stamp)?;
    out.push(b' ')?;
    push_bytes(out, context)
}
