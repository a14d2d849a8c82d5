//! A history is taken anew, by a chain that took no turn yet.

ghost use Rattle.std.specs.Prelude.{◌≡◌, ◌≤◌, ◌∷◌, ◌++◌, [], ℕ, true, length, map, reverse, vec_capacity};
ghost use Rattle.std.specs.List.{All};
ghost use Rattle.ids_types.specs.{entry_by, room_of, plain_entry};
ghost use Rattle.ids_config.specs.Parts.{Parts};
ghost use Rattle.filter_chain.specs.{last_tick, Sends, FitsTurn, most_sent, turn_by};
ghost use Rattle.chain_plain.specs.{AreInOrder, CanTake, IsReady};

use crate::desk::Desk;
use filter_chain::{Chain, lent};
use ids_types::{Entry, History, Parcel, Plain, TurnHead, TurnOut};

/// Has a chain that took no turn yet take those of a history, and then one of these items, whose messages are the
/// output's. The chain always has room, and no memory is taken.
/// Steps: for each turn of the history one `Chain::judge`, and one more for the items, which are lent before. Waits: as
/// its chain; `EventChain`: no. By: conditions `fits`, `ready`, `items`; read off.
pub fn retake<'h, B: Parcel, C: Chain<Plain<'h>>>(
    mut chain: C,
    mut desk: Desk<'h>,
    history: &'h History,
    head: &TurnHead,
    items: &'h [Entry<B>],
    out: &mut TurnOut,
) -> C
    requires fits { (any : C) (entries bytes : ℕ) → C.has_room any entries bytes ≡ true }
    requires ready { IsReady (C.events chain) desk }
    requires kept { C.kept chain ≡ [] }
    requires turns { All (CanTake (C.events chain)) history.now.turns }
    requires items { FitsTurn B.held (C.events chain) items.now }
    requires out { most_sent 1024 (length items.now) (C.events chain) ≤ room_of out.old }
    ensures took { (config : Parts) → C.stands chain config [] → AreInOrder (reverse history.now.turns) →
        last_tick history.now.turns ≤ head.now.tick →
        C.stands result config (history.now.turns ++ turn_by B.held head.now items.now ∷ [])
        × Sends config history.now.turns (turn_by B.held head.now items.now) out.new }
    ensures room { room_of out.new ≡ room_of out.old }
{
    let mut turns = history.walk();
    while let Some((head, entries)) = turns.pop_front() {
        desk.take(&mut chain, &head, entries);
    }
    let Desk {
        items: mut places,
        mut back,
        ..
    } = desk;
    lend(items, &mut places);
    chain.judge(head, &mut places, &mut back, out);
    chain
}

/// Puts the items where nothing is yet, with their context data lent.
fn lend<'h, B: Parcel>(items: &'h [Entry<B>], places: &mut Vec<Entry<Plain<'h>>>)
    requires none { places.old.items ≡ [] }
    requires room { length items.now ≤ vec_capacity places.old }
    ensures items { map plain_entry places.new.items ≡ map (entry_by B.held) items.now }
    ensures len { length places.new.items ≡ length items.now }
{
    for entry in items {
        places.push_reserved(lent(entry));
    }
}
