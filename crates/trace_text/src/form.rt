//! The forms of a trace's lines, and a line from its raw parts, once they are in their ranges.

ghost use Rattle.std.specs.Prelude.{◌≡◌, ◌∷◌, length, option_map, IfOk};
ghost use Rattle.text_spec.specs.{numbers_in, bytes_in, behind, told_in_one, asked_mode_form, asked_report_form, asked_state_form, round_end_form, trace_forms};
ghost use Rattle.trace_text.specs.Lines.{line_asked};
ghost use Rattle.trace_text.specs.Reading.{act_told, context_told, line_told, where_all, IsTyped};

use crate::rows::{Line, TraceAct};
use ids_types::{EventIndex, Mode, NoMemory, Stamp};
use text_spec::{HexText, Words};

/// What a caller asks for, its numbers not yet in their ranges and its context's bytes still as text.
#[derive(Debug, Drop)]
pub(crate) enum RawAct<'a> {
    /// Of an event, with its count, its timestamp and its context.
    Report(u64, u64, Option<Stamp>, Option<HexText<'a>>),
    State(u64),
    /// Of an event.
    SetMode(u64, Mode),
}

/// A line, but for one that opens a round: what a caller asks for, or the tick of a close.
#[derive(Debug, Drop)]
pub(crate) enum RawLine<'a> {
    Call(u64, RawAct<'a>),
    Close(u64),
}

/// What a line of this first word and these after it tells, `None` where it has no form.
pub(crate) fn line_of<'a>(kind: &[u8], words: Words<'a>) -> Option<RawLine<'a>>
    ensures { option_map line_told result ≡ told_in_one trace_forms (kind.now ∷ words.entry) }
{
    if kind == b"R".as_slice() {
        return report_of(words);
    }
    if kind == b"S".as_slice() {
        return state_of(words);
    }
    if kind == b"M".as_slice() {
        return setting_of(words);
    }
    if kind == b"E".as_slice() {
        return end_of(words);
    }
    None
}

/// The words after `R`. The last of them is read as what is left of the line: no context has a space.
#[tactic(auto, using(crate::proofs::Names::last_bytes))]
fn report_of(words: Words<'_>) -> Option<RawLine<'_>>
    ensures { option_map line_told result ≡ behind asked_report_form words.entry }
{
    let (caller, words) = words.any_number()?;
    let (event, words) = words.any_number()?;
    let (count, words) = words.any_number()?;
    let (stamp, words) = words.stamp()?;
    let context = context_of(words.text()?)?;
    let act = RawAct::Report(event, count, stamp, context);
    Some(RawLine::Call(caller, act))
}

/// The words after `S`.
fn state_of(words: Words<'_>) -> Option<RawLine<'_>>
    ensures { option_map line_told result ≡ behind asked_state_form words.entry }
{
    let (caller, words) = words.any_number()?;
    let (state, words) = words.any_number()?;
    words.ended(RawLine::Call(caller, RawAct::State(state)))
}

/// The words after `M`.
fn setting_of(words: Words<'_>) -> Option<RawLine<'_>>
    ensures { option_map line_told result ≡ behind asked_mode_form words.entry }
{
    let (caller, words) = words.any_number()?;
    let (event, words) = words.any_number()?;
    let (mode, words) = words.mode()?;
    words.ended(RawLine::Call(caller, RawAct::SetMode(event, mode)))
}

/// The words after `E`.
fn end_of(words: Words<'_>) -> Option<RawLine<'_>>
    ensures { option_map line_told result ≡ behind round_end_form words.entry }
{
    let (tick, words) = words.any_number()?;
    words.ended(RawLine::Close(tick))
}

/// `-`, or a byte or more.
#[inline(always)]
fn context_of(word: &[u8]) -> Option<Option<HexText<'_>>>
    ensures { option_map context_told result ≡ bytes_in word.now }
{
    if word == b"-".as_slice() {
        return Some(None);
    }
    Some(Some(HexText::of(word)?))
}

/// Reads words as ticks, and tells whether all of them are numbers.
pub(crate) fn read_ticks(words: Words<'_>, ticks: &mut Vec<u64>) -> Result<bool, NoMemory>
    ensures { IfOk result (λ all.
        where_all all ticks.new.items ≡ numbers_in (length words.entry) words.entry) }
{
    ticks.clear();
    let mut rest = words;
    while !rest.is_empty() {
        let Some((tick, next)) = rest.any_number() else {
            return Ok(false);
        };
        ticks.push(tick)?;
        rest = next;
    }
    Ok(true)
}

/// The line, whose context is decoded into the front of `room`.
pub(crate) fn line_for<'a>(act: &RawAct<'_>, room: &'a mut Vec<u8>) -> Result<Line<'a>, NoMemory>
    requires { IsTyped (act_told act.now) }
    ensures { IfOk result (λ line. line_asked line ≡ act_told act.now) }
{
    let act = match act {
        RawAct::Report(event, count, stamp, context) => TraceAct::Report {
            event: EventIndex(*event as u16),
            count: *count as u16,
            stamp: *stamp,
            context: decoded(context, room)?,
        },
        RawAct::State(state) => TraceAct::State(*state as u8),
        RawAct::SetMode(event, mode) => TraceAct::SetMode {
            event: EventIndex(*event as u16),
            mode: *mode,
        },
    };
    Ok(Line { act })
}

/// The bytes of a context, in the front of `room`.
fn decoded<'a>(context: &Option<HexText<'_>>, room: &'a mut Vec<u8>) -> Result<&'a [u8], NoMemory>
    ensures { IfOk result (λ bytes. bytes.now ≡ context_told context.now) }
{
    let Some(text) = context else {
        return Ok(&[]);
    };
    if room.len() < text.len() {
        room.resize(text.len(), 0)?;
    }
    let len = text.decode(room);
    Ok(&room[..len])
}
