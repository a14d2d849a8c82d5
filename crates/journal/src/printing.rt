//! The text of a journal.

ghost use Rattle.std.specs.Prelude.{◌≡◌, ◌<◌, ◌++◌, ◌∷◌, [], map, length, decimal, codes, IfOk, OnOk};
ghost use Rattle.std.specs.List.{flat_map, join_with_byte};
ghost use Rattle.ids_types.specs.{carried_by, entry_by, turn_at};
ghost use Rattle.ids_types.specs.declared.entry.Act.TheVariants.{Report, State, SetMode};
ghost use Rattle.text_spec.specs.{Appends, point, context_word, ended_line, begins, enters, loses, fields_of, turn_told, line_for, journal_text, Fits, IsJournal, stamp_text, space, line_feed, line_of};
ghost use Rattle.ids_config.specs.Parts.{Parts};
ghost use Rattle.journal.specs.Answers.{told};
ghost use Rattle.journal.specs.Printing.{lines_text, pointed, turn_text};

use ids_types::{
    Act, Carried, Entry, EventIndex, History, Loss, NoMemory, Numbers, Parcel, Stamp, TurnHead,
};
use std::alloc::Global;
use text_spec::{push_field, push_hex, push_mode, push_number, push_stamp};

/// The text of a history and its losses, which are printed as they are given.
/// Steps: the bytes of the text. Memory: may answer want of memory. By: `text`; read off.
pub fn print(alloc: Global, history: &History, losses: &[Loss]) -> Result<Vec<u8>, NoMemory>
    ensures text { IfOk result
        (λ text. text.items ≡ journal_text (told history.now.turns losses.now)) }
    // Where they fit a configuration, this is their journal under it.
    ensures journal { IfOk result (λ text. (config : Parts) →
        Fits config (told history.now.turns losses.now) →
        IsJournal config text.items (told history.now.turns losses.now)) }
{
    print_lines(alloc, history, losses)
}

#[tactic(auto, using(crate::proofs::PrintingLemmas::pushes))]
fn print_lines(alloc: Global, history: &History, losses: &[Loss]) -> Result<Vec<u8>, NoMemory>
    ensures { IfOk result (λ text. text.items ≡ journal_text (told history.now.turns losses.now)) }
{
    let mut text = Vec::new(alloc);
    for turn in 0..history.turns() {
        push_turn(&mut text, history, turn)?;
    }
    for loss in losses {
        push_loss(&mut text, loss)?;
    }
    Ok(text)
}

/// Appends the lines of a turn.
#[tactic(auto, using(crate::proofs::PrintingLemmas::pushes))]
fn push_turn(out: &mut Vec<u8>, history: &History, turn: u64) -> Result<(), NoMemory>
    requires { turn < length history.now.turns }
    ensures { OnOk result (out.new.items ≡ out.old.items ++ turn_text (turn_at history.now.turns turn)) }
{
    push_head(out, &history.head(turn))?;
    for i in 0..history.entries(turn) {
        push_entry(out, &history.entry(turn, i))?;
    }
    Ok(())
}

/// Appends the lines of a turn of these entries, whoever holds their contexts.
/// Steps: the bytes of the lines. Memory: may answer want of memory. By: read off.
pub fn push_items<B: Parcel>(
    out: &mut Vec<u8>,
    head: &TurnHead,
    items: &[Entry<B>],
) -> Result<(), NoMemory>
    ensures { Appends out.old out.new result (turn_text (record { head = head.now; entries = map (entry_by B.held) items.now })) }
{
    push_head(out, head)?;
    push_entries(out, items)
}

/// Appends entries as lines.
fn push_entries<B: Parcel>(out: &mut Vec<u8>, items: &[Entry<B>]) -> Result<(), NoMemory>
    ensures { Appends out.old out.new result (lines_text (map enters (map (entry_by B.held) items.now))) }
{
    for entry in items {
        push_entry(out, entry)?;
    }
    Ok(())
}

/// Appends `T TICK LOST_EVENTS LOST_CONTEXTS LIMITED` as a line.
/// Steps: the bytes of the line. Memory: may answer want of memory. By: read off.
pub fn push_head(out: &mut Vec<u8>, head: &TurnHead) -> Result<(), NoMemory>
    ensures { Appends out.old out.new result (ended_line (fields_of (begins head.now))) }
{
    out.push(b'T')?;
    push_field(out, head.tick)?;
    push_field(out, head.lost_events)?;
    push_field(out, head.lost_contexts)?;
    push_field(out, head.limited)?;
    Ok(out.push(b'\n')?)
}

/// Appends `L CALLER CALL GIVEN` as a line.
/// Steps: the bytes of the line. Memory: may answer want of memory. By: read off.
pub fn push_loss(out: &mut Vec<u8>, loss: &Loss) -> Result<(), NoMemory>
    ensures { Appends out.old out.new result (ended_line (fields_of (loses loss.now))) }
{
    push_call(out, b'L', loss.caller, loss.call)?;
    push_field(out, loss.given)?;
    Ok(out.push(b'\n')?)
}

/// Appends an entry as a line.
/// Steps: the bytes of the line. Memory: may answer want of memory. By: read off.
pub fn push_entry<B: Parcel>(out: &mut Vec<u8>, entry: &Entry<B>) -> Result<(), NoMemory>
    ensures { Appends out.old out.new result (ended_line (fields_of (enters (entry_by B.held entry.now)))) }
{
    push_fields(out, entry)?;
    Ok(out.push(b'\n')?)
}

/// Appends the line of an entry, without its line feed.
/// Steps: the bytes of the line. Memory: may answer want of memory. By: read off.
pub fn push_fields<B: Parcel>(out: &mut Vec<u8>, entry: &Entry<B>) -> Result<(), NoMemory>
    ensures { Appends out.old out.new result (line_for (enters (entry_by B.held entry.now))) }
{
    match &entry.act {
        Act::Report {
            event,
            count,
            stamp,
            context,
        } => {
            push_call(out, b'R', entry.caller, entry.call)?;
            push_report(out, *event, *count, *stamp, context)
        }
        Act::State(state) => {
            push_call(out, b'C', entry.caller, entry.call)?;
            out.extend_from_slice(b" S")?;
            push_field(out, u64::from(*state))
        }
        Act::SetMode { event, mode } => {
            push_call(out, b'C', entry.caller, entry.call)?;
            out.extend_from_slice(b" M")?;
            push_field(out, u64::from(event.0))?;
            out.push(b' ')?;
            push_mode(out, *mode)
        }
    }
}

/// Appends a line's letter, the caller and its call.
fn push_call(out: &mut Vec<u8>, letter: u8, caller: u8, call: u64) -> Result<(), NoMemory>
    ensures { Appends out.old out.new result ((letter ∷ ((space ∷ decimal caller) ++ (space ∷ decimal call)))) }
{
    out.push(letter)?;
    push_field(out, u64::from(caller))?;
    push_field(out, call)
}

/// Appends ` EVENT COUNT STAMP CONTEXT`.
fn push_report<B: Parcel>(
    out: &mut Vec<u8>,
    event: EventIndex,
    count: u16,
    stamp: Option<Stamp>,
    context: &Carried<B>,
) -> Result<(), NoMemory>
    ensures { Appends out.old out.new result (((space ∷ decimal event.0) ++ ((space ∷ decimal count) ++ ((space ∷ stamp_text stamp) ++ (space ∷ context_word (carried_by B.held context.now)))))) }
{
    push_field(out, u64::from(event.0))?;
    push_field(out, u64::from(count))?;
    out.push(b' ')?;
    push_stamp(out, stamp)?;
    out.push(b' ')?;
    push_context(out, context)
}

/// Appends the word of a context.
fn push_context<B: Parcel>(out: &mut Vec<u8>, context: &Carried<B>) -> Result<(), NoMemory>
    ensures { Appends out.old out.new result (context_word (carried_by B.held context.now)) }
{
    match context {
        Carried::Absent => Ok(out.push(b'-')?),
        Carried::Kept {
            class,
            claim,
            parcel,
        } => {
            push_number(out, u64::from(*class))?;
            out.push(b':')?;
            push_number(out, *claim)?;
            out.push(b':')?;
            push_hex(out, parcel.bytes())
        }
        Carried::Missing(numbers) => {
            out.push(b'!')?;
            push_claims(out, numbers)
        }
    }
}

/// Appends numbers with points between them.
fn push_claims(out: &mut Vec<u8>, numbers: &Numbers) -> Result<(), NoMemory>
    ensures { Appends out.old out.new result (join_with_byte point (map decimal numbers.now)) }
{
    for i in 0..numbers.len() {
        push_claim(out, i, numbers.get(i).unwrap())?;
    }
    Ok(())
}

/// Appends a number, after a point unless it is the first.
fn push_claim(out: &mut Vec<u8>, i: usize, number: u64) -> Result<(), NoMemory>
    ensures { Appends out.old out.new result (pointed i number) }
{
    if i > 0 {
        out.push(b'.')?;
    }
    push_number(out, number)
}
