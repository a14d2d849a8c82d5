//! The forms of a journal's lines, by the words after the first.

ghost use Rattle.std.specs.Prelude.{◌≡◌, [], ◌∷◌, option_map, Some, None};
ghost use Rattle.text_spec.specs.{claims_in, context_in, kept_in, a_number, a_mode, behind, read_by, turn_form, report_form, state_form, setting_form, loss_form, index, entry_of, begins, enters, loses};
ghost use Rattle.text_spec.specs.Maybe.{or_else};
ghost use Rattle.journal.specs.RawLines.{context_told, control_told, loss_told, report_told};
ghost use Rattle.ids_types.specs.declared.entry.Act.TheVariants.{State, SetMode};
ghost use Rattle.ids_types.specs.declared.entry.Carried.TheVariants.{Missing};

use crate::claims::Claims;
use crate::line::{RawChange, RawContext, RawControl, RawLoss, RawReport};
use ids_types::{Mode, TurnHead};
use text_spec::{HexText, Pieces, Words};

/// The words after `T`.
pub(crate) fn head_of(words: Words<'_>) -> Option<TurnHead>
    ensures { option_map (λ head. begins head) result ≡ behind turn_form words.entry }
{
    let (tick, words) = words.any_number()?;
    let (lost_events, words) = words.any_number()?;
    let (lost_contexts, words) = words.any_number()?;
    let (limited, words) = words.any_number()?;
    words.ended(TurnHead {
        tick,
        lost_events,
        lost_contexts,
        limited,
    })
}

/// The words after `R`. The last of them is read as what is left of the line: no context has a space.
#[inline(always)]
pub(crate) fn report_of(words: Words<'_>) -> Option<RawReport<'_>>
    ensures { option_map (λ report. enters (report_told report)) result ≡
        behind report_form words.entry }
{
    let (caller, words) = words.any_number()?;
    let (call, words) = words.any_number()?;
    let (event, words) = words.any_number()?;
    let (count, words) = words.any_number()?;
    let (stamp, words) = words.stamp()?;
    let context = context_of(words.text()?)?;
    Some(RawReport {
        caller,
        call,
        event,
        count,
        stamp,
        context,
    })
}

/// The words after `C`.
pub(crate) fn control_of(words: Words<'_>) -> Option<RawControl>
    ensures { option_map (λ control. enters (control_told control)) result ≡
        or_else (behind state_form words.entry) (behind setting_form words.entry) }
{
    let (caller, words) = words.any_number()?;
    let (call, words) = words.any_number()?;
    let (kind, words) = words.first()?;
    if kind == b"S".as_slice() {
        return state_of(caller, call, words);
    }
    if kind == b"M".as_slice() {
        return setting_of(caller, call, words);
    }
    None
}

/// A new state.
fn state_of(caller: u64, call: u64, words: Words<'_>) -> Option<RawControl>
    ensures { option_map (λ control. enters (control_told control)) result ≡
        read_by (a_number ∷ []) (λ state. enters (entry_of caller call (State state))) words.entry }
{
    let (state, words) = words.any_number()?;
    words.ended(RawControl {
        caller,
        call,
        change: RawChange::State(state),
    })
}

/// An event and its new mode.
fn setting_of(caller: u64, call: u64, words: Words<'_>) -> Option<RawControl>
    ensures { option_map (λ control. enters (control_told control)) result ≡
        read_by (a_number ∷ a_mode ∷ [])
        (λ event mode. enters (entry_of caller call (SetMode (index event) mode))) words.entry }
{
    let (event, words) = words.any_number()?;
    let (mode, words) = words.mode()?;
    words.ended(RawControl {
        caller,
        call,
        change: RawChange::SetMode { event, mode },
    })
}

/// The words after `L`.
pub(crate) fn loss_of(words: Words<'_>) -> Option<RawLoss>
    ensures { option_map (λ loss. loses (loss_told loss)) result ≡ behind loss_form words.entry }
{
    let (caller, words) = words.any_number()?;
    let (call, words) = words.any_number()?;
    let (given, words) = words.any_number()?;
    words.ended(RawLoss {
        caller,
        call,
        given,
    })
}

/// `-`, `CLASS:CLAIM:HEX`, or `!` and numbers.
#[inline(always)]
fn context_of(word: &[u8]) -> Option<RawContext<'_>>
    ensures { option_map context_told result ≡ context_in word.now }
{
    let (first, rest) = word.split_first()?;
    if *first == b'!' {
        return Some(RawContext::Missing(Claims::of(rest)?));
    }
    if word == b"-".as_slice() {
        return Some(RawContext::Absent);
    }
    kept_of(Pieces::of(word))
}

/// `CLASS:CLAIM:HEX`. What is left after the two numbers is the hexadecimal: it has no colon.
#[inline(always)]
fn kept_of(pieces: Pieces<'_, b':'>) -> Option<RawContext<'_>>
    ensures { option_map context_told result ≡ kept_in pieces.entry }
{
    let (class, pieces) = pieces.any_number()?;
    let (claim, pieces) = pieces.any_number()?;
    let bytes = HexText::of(pieces.text()?)?;
    Some(RawContext::Kept {
        class,
        claim,
        bytes,
    })
}
