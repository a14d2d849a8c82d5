//! The account of each event, and their lines.

ghost use Rattle.std.specs.Prelude.{◌≡◌, ◌<◌, ◌^◌, ℕ, map, reverse, length, IfOk, not, ◌==◌, ◌&&◌, if◌then◌else◌, ◌+◌, ◌++◌, ◌∷◌, [], List, slice_index_or, OnOk, decimal, codes};
ghost use Rattle.ids_config.specs.Parts.{event_at};
ghost use Rattle.chain_spec.specs.{is_stored, events_in, moments};
ghost use Rattle.event_chain.specs.Told.{ending_of};
ghost use Rattle.chain_endings.specs.{AreOf, IsAtMost, kept_at, nothing, with_ending, CountsMissing, account_fields, account_line, field, is_missing, told_in};
ghost use Rattle.ids_types.specs.declared.entry.Entry.{Entry};
ghost use Rattle.ids_types.specs.{entries_of, plain_entry};
ghost use Rattle.text_spec.specs.Words.{line_feed, text_of};

use crate::lines::push_numbers;
use chain_spec::{Account, Fate, STEPS};
use event_chain::Ending;
use ids_config::{ConfigParts, EventParts};
use ids_types::{Act, Carried, Entry, EventIndex, History, NoMemory, Plain};
use std::alloc::Global;
use text_spec::push_field;

/// The account of no items.
fn nothing() -> Account
    ensures { result ≡ nothing }
{
    Account {
        came: 0,
        closed: 0,
        ended: [0; STEPS],
        waiting: 0,
        stored: 0,
    }
}

/// Adds an ending, whose item is stored or not.
fn add(account: &mut Account, ending: &Ending, stored: bool)
    requires { (n : ℕ) × (n < 2 ^ 63) × IsAtMost n account.old }
    ensures { account.new ≡ with_ending stored (ending_of ending.now) account.old }
{
    account.ended[ending.fate.place()] += 1;
    if ending.by_window() {
        account.closed += 1;
        account.waiting = 0;
    } else {
        account.came += 1;
        account.waiting += u64::from(ending.fate == Fate::InWindow);
    }
    account.stored += u64::from(stored);
}

/// Whether the item of an ending is stored.
pub(crate) fn is_stored(parts: &ConfigParts, ending: &Ending) -> bool
    ensures { result ≡ is_stored parts.now (ending_of ending.now) }
{
    ending.reached(Fate::AtSend) && stores(parts, ending.event)
}

/// Whether the event memory has room, and stores the event.
fn stores(parts: &ConfigParts, event: EventIndex) -> bool
    ensures { result ≡ ((event_at parts.now event.0).store && not (parts.now.memory == 0)) }
{
    match parts.events.get(usize::from(event.0)) {
        Some(event) => event.store && parts.memory != 0,
        None => false,
    }
}

/// The account of each event, of these endings, the first of which stands first.
pub(crate) fn accounts_of(
    alloc: Global,
    parts: &ConfigParts,
    told: &[Ending],
) -> Result<Vec<Account>, NoMemory>
    ensures { IfOk result (λ accounts. AreOf parts.now (reverse (map ending_of told.now)) accounts.items) }
{
    let mut accounts = vec![in alloc; nothing(); parts.events.len()]?;
    for ending in told {
        let stored = is_stored(parts, ending);
        add_to(&mut accounts, ending, stored);
    }
    Ok(accounts)
}

/// Adds an ending to the account of its event.
fn add_to(accounts: &mut Vec<Account>, ending: &Ending, stored: bool)
    requires { (n : ℕ) × (n < 2 ^ 63) × ((k : ℕ) → k < length accounts.old.items → IsAtMost n (kept_at accounts.old.items k)) }
    ensures len { length accounts.new.items ≡ length accounts.old.items }
    ensures each { (k : ℕ) → k < length accounts.old.items → kept_at accounts.new.items k
        ≡ (if ending.now.event.0 == k then with_ending stored (ending_of ending.now) (kept_at accounts.old.items k)
        else kept_at accounts.old.items k) }
{
    if let Some(account) = accounts.get_mut(usize::from(ending.event.0)) {
        add(account, ending, stored);
    }
}

/// Appends the account of each event as a line, where these are the endings of the history.
pub(crate) fn push_accounts(
    alloc: Global,
    parts: &ConfigParts,
    history: &History,
    told: &[Ending],
    out: &mut Vec<u8>,
) -> Result<(), NoMemory>
    requires { map ending_of told.now ≡ told_in parts.now (moments parts.now (reverse history.now.turns)) }
    ensures { OnOk result (out.new.items ≡
        out.old.items ++ text_of (map (account_line parts.now history.now.turns) (events_in parts.now))) }
{
    let accounts = accounts_of(alloc, parts, told)?;
    let missing = missing_in(alloc, parts.events.len(), history)?;
    for event in 0..parts.events.len() {
        push_account(out, parts, event, &accounts, &missing)?;
    }
    Ok(())
}

/// Appends the account of an event as a line.
#[tactic(auto, using(std::proofs::Common::append_assoc))]
fn push_account(
    out: &mut Vec<u8>,
    parts: &ConfigParts,
    event: usize,
    accounts: &[Account],
    missing: &[u64],
) -> Result<(), NoMemory>
    requires exists { event < length parts.now.events }
    requires accounts { event < length accounts.now }
    requires missing { event < length missing.now }
    ensures { OnOk result (let own = event_at parts.now event in out.new.items ≡ out.old.items
        ++ (((codes "A" ++ field (decimal event) ++ field (decimal own.id) ++ field (decimal own.sensor))
        ++ account_fields (kept_at accounts.now event) (slice_index_or missing.now event 0)) ++ line_feed ∷ [])) }
{
    push_names(out, event, &parts.events[event])?;
    push_numbers(out, &accounts[event], missing[event])?;
    out.push(b'\n')?;
    Ok(())
}

/// Appends `A EVENT ID SENSOR`.
fn push_names(out: &mut Vec<u8>, event: usize, own: &EventParts) -> Result<(), NoMemory>
    ensures { OnOk result (out.new.items ≡ out.old.items
        ++ (codes "A" ++ field (decimal event) ++ field (decimal own.now.id) ++ field (decimal own.now.sensor))) }
{
    out.push(b'A')?;
    push_field(out, event as u64)?;
    push_field(out, own.id)?;
    push_field(out, own.sensor)
}

/// How many reports of each event lost their context data.
fn missing_in(alloc: Global, events: usize, history: &History) -> Result<Vec<u64>, NoMemory>
    ensures { IfOk result (λ missing. (length missing.items ≡ events) × CountsMissing (entries_of history.now.turns) missing.items) }
{
    // Names how many entries there are, so that the proof knows that they can be counted.
    let _entries = history.total_entries();
    let mut missing = vec![in alloc; 0; events]?;
    let mut turns = history.walk();
    while let Some((_, entries)) = turns.pop_front() {
        let mut rest = entries;
        while let Some(entry) = rest.pop_front() {
            count_missing(&entry, &mut missing);
        }
    }
    Ok(missing)
}

/// Counts the entry where it is a report whose context data are missing.
fn count_missing(entry: &Entry<Plain<'_>>, missing: &mut Vec<u64>)
    requires { (k : ℕ) → k < length missing.old.items → slice_index_or missing.old.items k 0 + 1 < 2 ^ 64 }
    ensures len { length missing.new.items ≡ length missing.old.items }
    ensures each { (k : ℕ) → k < length missing.old.items → slice_index_or missing.new.items k 0
        ≡ (if is_missing k (plain_entry entry.now).act then slice_index_or missing.old.items k 0 + 1 else slice_index_or missing.old.items k 0) }
{
    let Act::Report {
        event,
        context: Carried::Missing(_),
        ..
    } = &entry.act
    else {
        return;
    };
    let event = usize::from(event.0);
    if event < missing.len() {
        missing[event] += 1;
    }
}
