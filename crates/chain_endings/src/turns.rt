//! The lines of a turn.

ghost use Rattle.std.specs.Prelude.{◌≡◌, ◌<◌, ◌++◌, ◌∷◌, [], List, Option, filter, is_some, length, map, option_to_list, IfOk, OnOk};
ghost use Rattle.ids_types.specs.{plain_entry, turn_at};
ghost use Rattle.chain_spec.specs.{Ending as Told, Moment};
ghost use Rattle.event_chain.specs.Told.{bare, ending_of};
ghost use Rattle.text_spec.specs.{enters, line_for, line_feed, text_of};
ghost use Rattle.chain_endings.specs.{ended_fields, entry_lines, given_line, turn_lines, endings_along, entry_moments, is_report, turn_endings};

use crate::lines::{push_fate, push_given};
use event_chain::Ending;
use ids_config::ConfigParts;
use ids_types::{Act, Entry, History, NoMemory, Plain};
use journal::{push_fields, push_head};

/// Appends the lines of a turn, where these are its endings in their order.
pub(crate) fn push_turn(
    out: &mut Vec<u8>,
    parts: &ConfigParts,
    history: &History,
    turn: u64,
    told: &[Ending],
) -> Result<(), NoMemory>
    requires { turn < length history.now.turns }
    ensures { OnOk result ((before : List Moment) →
        map ending_of told.now ≡ map bare (turn_endings parts.now before (turn_at history.now.turns turn)) →
        out.new.items ≡ out.old.items ++ text_of (turn_lines parts.now before (turn_at history.now.turns turn))) }
{
    push_head(out, &history.head(turn))?;
    let reports = reports_in(history, turn);
    let (opening, entered) = told.split_at(told.len().saturating_sub(reports));
    push_opening(out, parts, opening)?;
    push_entries(out, parts, history, turn, entered)?;
    Ok(())
}

/// How many entries of a turn are reports.
#[tactic(auto, using(std::proofs::lemmas::Grind::common_steps, crate::proofs::Lemmas::filter_few))]
fn reports_in(history: &History, turn: u64) -> usize
    requires { turn < length history.now.turns }
    ensures { result ≡ length (filter (λ entry. is_report entry.act) (turn_at history.now.turns turn).entries) }
{
    let mut reports = 0;
    for i in 0..history.entries(turn) {
        if is_report(&history.entry(turn, i)) {
            reports += 1;
        }
    }
    reports
}

fn is_report(entry: &Entry<Plain<'_>>) -> bool
    ensures { result ≡ is_report (plain_entry entry.now).act }
{
    matches!(entry.act, Act::Report { .. })
}

/// Appends a line for each of what windows gave and of the internal events.
fn push_opening(out: &mut Vec<u8>, parts: &ConfigParts, opening: &[Ending]) -> Result<(), NoMemory>
    ensures { OnOk result (out.new.items ≡
        out.old.items ++ text_of (map (given_line parts.now) (map ending_of opening.now))) }
{
    for ending in opening {
        push_given(out, parts, ending)?;
    }
    Ok(())
}

/// Appends the lines of a turn's entries, where these are the endings of its reports.
fn push_entries(
    out: &mut Vec<u8>,
    parts: &ConfigParts,
    history: &History,
    turn: u64,
    entered: &[Ending],
) -> Result<(), NoMemory>
    requires { turn < length history.now.turns }
    ensures { OnOk result ((before : List Moment) → let turn = turn_at history.now.turns turn in
        map ending_of entered.now ≡ map bare (endings_along parts.now before (entry_moments turn.head.tick turn.entries)) →
        out.new.items ≡ out.old.items ++ text_of (entry_lines parts.now turn.head.tick before turn.entries)) }
{
    let mut rest = entered;
    for i in 0..history.entries(turn) {
        rest = push_entry(out, parts, &history.entry(turn, i), rest)?;
    }
    Ok(())
}

/// Appends the line of an entry. These are the endings that are left, the first of them its own where it is a
/// report; gives those after it.
fn push_entry<'t>(
    out: &mut Vec<u8>,
    parts: &ConfigParts,
    entry: &Entry<Plain<'_>>,
    told: &'t [Ending],
) -> Result<&'t [Ending], NoMemory>
    ensures { IfOk result (λ rest. (ended : Option Told) (more : List Told) →
        is_some ended ≡ is_report (plain_entry entry.now).act →
        map ending_of told.now ≡ map bare (option_to_list ended) ++ more →
        (map ending_of rest.now ≡ more) × (out.new.items ≡ out.old.items
        ++ ((line_for (enters (plain_entry entry.now)) ++ ended_fields parts.now ended) ++ line_feed ∷ []))) }
{
    push_fields(out, entry)?;
    let rest = match told {
        [ending, rest @ ..] if is_report(entry) => {
            push_fate(out, parts, ending)?;
            rest
        }
        _ => told,
    };
    out.push(b'\n')?;
    Ok(rest)
}
