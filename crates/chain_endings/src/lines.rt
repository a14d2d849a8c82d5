//! The words and lines that are told beside those of a journal.

ghost use Rattle.std.specs.Prelude.{◌≡◌, ◌++◌, ◌∷◌, [], OnOk, codes, decimal};
ghost use Rattle.event_chain.specs.Told.{ending_of};
ghost use Rattle.text_spec.specs.Words.{line_feed};
ghost use Rattle.chain_endings.specs.ExplainedText.{Pushes, account_fields, fate_fields, field, given_line, letter_of, named, step_fields, stored_word};

use crate::account::is_stored;
use chain_spec::{Account, FATES};
use event_chain::Ending;
use ids_config::ConfigParts;
use ids_types::NoMemory;
use text_spec::push_field;

/// Appends `W EVENT COUNT FATE STORED`, or with `I`, as a line.
pub(crate) fn push_given(
    out: &mut Vec<u8>,
    parts: &ConfigParts,
    ending: &Ending,
) -> Result<(), NoMemory>
    ensures { OnOk result (out.new.items ≡ out.old.items ++ (given_line parts.now (ending_of ending.now) ++ line_feed ∷ [])) }
{
    out.push(letter_of(ending))?;
    push_field(out, u64::from(ending.event.0))?;
    push_field(out, u64::from(ending.count))?;
    push_fate(out, parts, ending)?;
    Ok(out.push(b'\n')?)
}

fn letter_of(ending: &Ending) -> u8
    ensures { result ∷ [] ≡ letter_of (ending_of ending.now) }
{
    if ending.by_window() { b'W' } else { b'I' }
}

/// Appends ` FATE STORED`.
pub(crate) fn push_fate(
    out: &mut Vec<u8>,
    parts: &ConfigParts,
    ending: &Ending,
) -> Result<(), NoMemory>
    ensures { OnOk result (out.new.items ≡ out.old.items ++ fate_fields parts.now (ending_of ending.now)) }
{
    push_word(out, ending.fate.name().as_bytes())?;
    push_word(out, stored_word(is_stored(parts, ending)))
}

/// Appends a word after a space.
fn push_word(out: &mut Vec<u8>, word: &[u8]) -> Result<(), NoMemory>
    ensures { OnOk result (out.new.items ≡ out.old.items ++ field word.now) }
{
    out.push(b' ')?;
    Ok(out.extend_from_slice(word)?)
}

fn stored_word(stored: bool) -> &'static [u8]
    ensures { result.now ≡ stored_word stored }
{
    if stored { b"stored" } else { b"-" }
}

/// Appends the numbers of an account, and how many context data are missing.
#[tactic(auto, using(std::proofs::Common::append_assoc))]
pub(crate) fn push_numbers(
    out: &mut Vec<u8>,
    account: &Account,
    missing: u64,
) -> Result<(), NoMemory>
    ensures { OnOk result (out.new.items ≡ out.old.items ++ account_fields account.now missing) }
{
    push_named(out, b"came", account.came)?;
    push_named(out, b"closed", account.closed)?;
    push_steps(out, account)?;
    push_named(out, b"open", account.waiting)?;
    push_named(out, b"stored", account.stored)?;
    push_named(out, b"missing", missing)?;
    Ok(())
}

/// Appends how many ended at each step.
fn push_steps(out: &mut Vec<u8>, account: &Account) -> Result<(), NoMemory>
    ensures { OnOk result (Pushes out.old.items (step_fields account.now) out.new.items) }
{
    for fate in &FATES {
        push_named(out, fate.name().as_bytes(), account.ended[fate.place()])?;
    }
    Ok(())
}

/// Appends a name and its number.
#[tactic(auto, using(std::proofs::Common::append_assoc))]
fn push_named(out: &mut Vec<u8>, name: &[u8], number: u64) -> Result<(), NoMemory>
    ensures { OnOk result (Pushes out.old.items (named name.now number) out.new.items) }
{
    push_word(out, name)?;
    push_field(out, number)?;
    Ok(())
}
