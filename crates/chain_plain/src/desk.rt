//! What a chain is handed at each turn, made once.

ghost use Rattle.std.specs.Prelude.{◌≡◌, ◌*◌, ◌≤◌, ◌∷◌, ◌++◌, [], true, List, IfOk};
ghost use Rattle.std.specs.List.{All};
ghost use Rattle.ids_types.specs.{Turn};
ghost use Rattle.ids_config.specs.Parts.{Parts};
ghost use Rattle.filter_chain.specs.{last_tick, Sends, IsShort, FitsTurn, turn_by};
ghost use Rattle.chain_plain.specs.{CanTake, turn_with, HasDeskRoom, IsReady};

use filter_chain::{Chain, most_sent};
use ids_types::{Entry, EntryWalk, NoMemory, Plain, TurnHead, TurnOut};
use std::alloc::Global;

/// How many entries a turn has at most.
pub const MOST_ENTRIES: u64 = 1024;

/// How many bytes of context data an entry has at most.
const MOST_CONTEXT: u64 = 1024;

/// How many bytes of context data a turn has at most.
pub const MOST_BYTES: u64 = MOST_CONTEXT * MOST_ENTRIES;

/// Room for the entries of a turn, for the parcels that come back, and for what the turn gives.
#[derive(Debug, Drop)]
pub struct Desk<'h> {
    /// The entries of the next turn.
    pub items: Vec<Entry<Plain<'h>>>,
    pub back: Vec<Plain<'h>>,
    /// What the last turn sent.
    pub out: TurnOut,
}

impl<'h> Desk<'h> {
    /// Room for each turn of a chain of so many events.
    /// Memory: made once: room for 1,024 entries, and at most 1,339,452 bytes of messages. By: `IsReady`; no loop.
    pub fn make(alloc: Global, events: u64) -> Result<Desk<'h>, NoMemory>
        requires { events ≤ 256 }
        ensures { IfOk result (IsReady events) }
    {
        Ok(Desk {
            items: Vec::with_capacity(alloc, MOST_ENTRIES as usize)?,
            back: Vec::with_capacity(alloc, (MOST_ENTRIES + events) as usize)?,
            out: TurnOut::make(alloc, most_sent(MOST_CONTEXT, MOST_ENTRIES, events))?,
        })
    }

    /// Has a chain that has room for the largest turn take one of these entries.
    /// Steps: the entries put on the desk, and one `Chain::judge`. Waits: as its chain; `EventChain`: no. By: `stands`,
    /// `sends`; condition `fits`; read off.
    pub fn take<C: Chain<Plain<'h>>>(
        &mut self,
        chain: &mut C,
        head: &TurnHead,
        entries: EntryWalk<'h>,
    )
        requires fits { C.has_room chain.old 1024 (1024 * 1024) ≡ true }
        requires ready { IsReady (C.events chain.old) self.old }
        requires entries { CanTake (C.events chain.old) (turn_with head.now entries) }
        requires kept { All (IsShort (λ p. p.0.now)) (C.kept chain.old) }
        ensures stands { (config : Parts) (turns : List Turn) → C.stands chain.old config turns →
            last_tick turns ≤ head.now.tick →
            C.stands chain.new config (turns ++ turn_with head.now entries.entry ∷ []) }
        ensures sends { (config : Parts) (turns : List Turn) → C.stands chain.old config turns →
            last_tick turns ≤ head.now.tick →
            Sends config turns (turn_with head.now entries.entry) self.new.out }
        ensures events { C.events chain.new ≡ C.events chain.old }
        ensures kept { All (IsShort (λ p. p.0.now)) (C.kept chain.new) }
        ensures ready { IsReady (C.events chain.old) self.new }
    {
        entries.put_after(&mut self.items);
        self.turn(chain, head);
    }

    /// Has a chain that has room for the largest turn take one of the items.
    /// Steps: one `Chain::judge`, and the parcels that came back. Waits: as its chain; `EventChain`: no. By: `ready`;
    /// condition `fits`; read off.
    pub fn turn<C: Chain<Plain<'h>>>(&mut self, chain: &mut C, head: &TurnHead)
        requires fits { C.has_room chain.old 1024 (1024 * 1024) ≡ true }
        requires room { HasDeskRoom (C.events chain.old) self.old }
        requires items { FitsTurn (λ p. p.0.now) (C.events chain.old) self.old.items.items }
        requires kept { All (IsShort (λ p. p.0.now)) (C.kept chain.old) }
        ensures stands { (config : Parts) (turns : List Turn) → C.stands chain.old config turns →
            last_tick turns ≤ head.now.tick →
            C.stands chain.new config (turns ++ turn_by (λ p. p.0.now) head.now self.old.items.items ∷ []) }
        ensures sends { (config : Parts) (turns : List Turn) → C.stands chain.old config turns →
            last_tick turns ≤ head.now.tick →
            Sends config turns (turn_by (λ p. p.0.now) head.now self.old.items.items) self.new.out }
        ensures events { C.events chain.new ≡ C.events chain.old }
        ensures kept { All (IsShort (λ p. p.0.now)) (C.kept chain.new) }
        ensures ready { IsReady (C.events chain.old) self.new }
    {
        chain.judge(head, &mut self.items, &mut self.back, &mut self.out);
        self.back.clear();
    }
}
