//! The pairs of caller and call of a history's entries, each as one number.

ghost use Rattle.std.specs.Prelude.{◌≡◌, ℕ, ◌<◌, ◌^◌, ◌==◌, ◌||◌, not, length, IfOk, OnOk};
ghost use Rattle.std.specs.Ordering.{nat_cmp};
ghost use Rattle.std.specs.BTreeSet.{contains as set_contains};
ghost use Rattle.ids_types.specs.Turns.{turn_at};
ghost use Rattle.text_spec.specs.JournalFaults.{has_pair, is_pair, pair_of};
ghost use Rattle.std.specs.List.{list_any};

use crate::ranges::CALLS;
use ids_types::{History, NoMemory};
use std::alloc::Global;
use std::collections::BTreeSet;

/// The pairs of all entries.
pub(crate) fn pairs_of(alloc: Global, history: &History) -> Result<BTreeSet<u64>, NoMemory>
    ensures { IfOk result (λ s. (p : ℕ) → p < 2 ^ 48 → set_contains nat_cmp s p ≡ has_pair history.now.turns p) }
{
    let mut pairs = BTreeSet::new(alloc);
    for turn in 0..history.turns() {
        add_pairs(&mut pairs, history, turn)?;
    }
    Ok(pairs)
}

/// Adds the pairs of a turn's entries.
fn add_pairs(pairs: &mut BTreeSet<u64>, history: &History, turn: u64) -> Result<(), NoMemory>
    requires { turn < length history.now.turns }
    ensures { OnOk result ((p : ℕ) → p < 2 ^ 48 → set_contains nat_cmp pairs.new p
        ≡ (set_contains nat_cmp pairs.old p || list_any (is_pair p) (turn_at history.now.turns turn).entries)) }
{
    for i in 0..history.entries(turn) {
        let entry = history.entry(turn, i);
        pairs.insert(capped_pair(entry.caller, entry.call))?;
    }
    Ok(())
}

/// The pair of an entry. No loss has one of 2^48 and above.
fn capped_pair(caller: u8, call: u64) -> u64
    ensures { (p : ℕ) → p < 2 ^ 48 → (result == p) ≡ (pair_of caller call == p) }
{
    (u64::from(caller) * CALLS).saturating_add(call)
}

/// The pair is none of these.
pub(crate) fn is_free(pairs: &BTreeSet<u64>, pair: u64) -> bool
    ensures { result ≡ not (set_contains nat_cmp pairs.now pair) }
{
    !pairs.contains(&pair)
}
