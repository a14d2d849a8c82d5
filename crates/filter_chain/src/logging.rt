//! A turn as a history has it: its head and its entries.

ghost use Rattle.std.specs.Prelude.{◌≡◌, [], ◌∷◌, ◌++◌, length, IfOk, OnOk};
ghost use Rattle.ids_types.specs.{HasRoom, room_after};
ghost use Rattle.filter_chain.specs.Turning.{bytes_in, turn_by};

use crate::parcels::lent;
use ids_types::{Entry, History, NoMemory, Parcel, TurnHead};

/// Makes room in a history for one turn more with these entries.
/// Steps: the entries. Memory: may answer want of memory; the history has its old room then. By: `turns`, `room`; read off.
pub fn reserve_turn<B: Parcel>(items: &[Entry<B>], history: &mut History) -> Result<(), NoMemory>
    ensures turns { history.new.turns ≡ history.old.turns }
    ensures room { OnOk result (HasRoom history.new.room 1 (length items.now) (bytes_in B.held items.now)) }
{
    let bytes = context_bytes(items)?;
    history.reserve(1, items.len() as u64, bytes)
}

// How many bytes the contexts of entries have.
fn context_bytes<B: Parcel>(items: &[Entry<B>]) -> Result<u64, NoMemory>
    ensures { IfOk result (λ bytes. bytes ≡ bytes_in B.held items.now) }
{
    let mut bytes = 0u64;
    for entry in items {
        let context = lent(entry).kept_bytes().len() as u64;
        bytes = bytes.checked_add(context).ok_or(NoMemory)?;
    }
    Ok(bytes)
}

/// Adds the turn to a history.
/// Steps: the entries with the bytes of their contexts. By: condition: room for them; read off.
#[tactic(auto, using(std::proofs::lemmas::Grind::common_steps, crate::proofs::LogLemmas::with_entry_last, crate::proofs::LogLemmas::room_more))]
pub fn record_turn<B: Parcel>(head: &TurnHead, items: &[Entry<B>], history: &mut History)
    requires { HasRoom history.old.room 1 (length items.now) (bytes_in B.held items.now) }
    ensures turns { history.new.turns ≡ history.old.turns ++ turn_by B.held head.now items.now ∷ [] }
    ensures room { history.new.room ≡ room_after history.old.room 1 (length items.now) (bytes_in B.held items.now) }
{
    history.begin(head);
    for entry in items {
        history.add(&lent(entry));
    }
}
