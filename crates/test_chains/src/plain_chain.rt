//! A chain that takes its whole history again at each turn.

ghost use Rattle.std.specs.Prelude.{◌≡◌, ℕ, ◌+◌, ◌≤◌, ◌∷◌, ◌++◌, [], true, List, length, vec_len, vec_capacity, IfOk, OnErr, OnOk};
ghost use Rattle.ids_types.specs.{room_of, Turn, room_after, wider_room};
ghost use Rattle.ids_config.specs.Parts.{Parts};
ghost use Rattle.filter_chain.specs.{last_tick, Sends, HandsBack, all_parcels, FitsTurn, most_sent, bytes_in, turn_by};
ghost use Rattle.test_chains.specs.Remembered.{Stands};
ghost use Rattle.test_chains.specs.Room.{has_turn_room};

use crate::fresh::{Fresh, fill, next};
use crate::handing::hand_back;
use chain_plain::retake;
use event_chain::EventChain;
use event_memory::Memory;
use filter_chain::{Chain, record_turn};
use ids_config::Config;
use ids_types::{Entry, History, NoMemory, Parcel, Plain, TurnHead, TurnOut};
use std::alloc::Global;
use std::marker::{Model, PhantomData};

/// A filter chain that keeps the whole history and no parcel, and takes all of it again at each turn.
///
/// A turn takes no memory: there is a fresh chain for each turn that there is room for.
#[derive(Debug, Drop)]
pub struct PlainChain<'c, B> {
    alloc: Global,
    config: &'c Config,
    history: History,
    fresh: Vec<Fresh<'static>>,
    /// What the last turn left.
    limited: u64,
    memory: Memory,
    parcel: PhantomData<B>,
}

impl<'c, B> Model for PlainChain<'c, B> {
    ghost use Rattle.test_chains.specs.Remembered.{Remembered, remembered, IsSound};

    ghost Value = { Remembered };

    ghost view = { remembered };

    ghost invariant = { IsSound };
}

impl<'c, B: Parcel> PlainChain<'c, B> {
    /// The chain of a configuration, before the first turn, with room for so many turns, and for so many entries and
    /// bytes of context data in all of them together.
    /// Steps: as many times `event_chain::EventChain::make` as turns, and a history with that room. Memory: made once,
    /// and more by `reserve`; each of its turns takes the whole history again, by `retake`. By: `stands`, `room`; read
    /// off.
    pub fn make(
        alloc: Global,
        config: &'c Config,
        turns: u64,
        entries: u64,
        bytes: u64,
    ) -> Result<PlainChain<'c, B>, NoMemory>
        ensures stands { IfOk result (Stands config.now []) }
        ensures events { IfOk result (λ chain. length chain.config.events ≡ length config.now.events) }
        ensures room { IfOk result (λ chain.
            chain.history.room ≡ record { turns = turns; entries = entries; bytes = bytes }) }
    {
        let mut fresh = Vec::new(alloc);
        fill(alloc, config, turns, &mut fresh)?;
        Ok(PlainChain {
            alloc,
            config,
            history: History::make(alloc, turns, entries, bytes)?,
            fresh,
            limited: 0,
            memory: EventChain::<Plain<'_>>::make(alloc, config)?.into_memory(),
            parcel: PhantomData,
        })
    }
}

impl<'c, B: Parcel> Chain<B> for PlainChain<'c, B> {
    ghost use Rattle.std.proofs.lemmas.List.Sorted.{IsPermutation-refl};
    ghost use Rattle.filter_chain.specs.Kept.{open_contexts};
    ghost use Rattle.test_chains.specs.Room.{smaller_turn_room};

    ghost stands = { λ chain config turns. Stands config turns chain };

    ghost events = { λ chain. length chain.config.events };

    ghost kept = { λ chain. [] };

    ghost has_room = { λ chain entries bytes. has_turn_room chain.history.room entries bytes };

    ghost sends_within = { λ chain items sent. most_sent 1024 (length items) (length chain.config.events) ≤ sent };

    /// Makes room for one turn more of that size, and lowers none of the room that there is.
    fn reserve(&mut self, entries: u64, bytes: u64) -> Result<(), NoMemory>
        ensures ok { OnOk result (has_turn_room self.new.history.room entries bytes ≡ true) }
        ensures stands { (config : Parts) (turns : List Turn) → Stands config turns self.old → Stands config turns self.new }
        ensures events { length self.new.config.events ≡ length self.old.config.events }
        ensures room { OnOk result (self.new.history.room ≡ wider_room self.old.history.room 1 entries bytes) }
        ensures err { OnErr result (self.new.history.room ≡ self.old.history.room) }
    {
        fill(self.alloc, self.config, 1, &mut self.fresh)?;
        self.history.reserve(1, entries, bytes)
    }

    fn limited(&self) -> u64 {
        self.limited
    }

    fn memory(&self) -> &Memory {
        &self.memory
    }

    /// Takes the turn after all that were before it, and hands each parcel back. It takes its size from the room.
    fn judge(
        &mut self,
        head: &TurnHead,
        items: &mut Vec<Entry<B>>,
        back: &mut Vec<B>,
        out: &mut TurnOut,
    )
        requires fits { has_turn_room self.old.history.room (length items.old.items)
            (bytes_in B.held items.old.items) ≡ true }
        requires items { FitsTurn B.held (length self.old.config.events) items.old.items }
        requires back { vec_len back.old + vec_len items.old + length self.old.config.events ≤ vec_capacity back.old }
        requires out { most_sent 1024 (length items.old.items) (length self.old.config.events) ≤ room_of out.old }
        ensures stands { (config : Parts) (turns : List Turn) → Stands config turns self.old →
            last_tick turns ≤ head.now.tick →
            Stands config (turns ++ turn_by B.held head.now items.old.items ∷ []) self.new }
        ensures sends { (config : Parts) (turns : List Turn) → Stands config turns self.old →
            last_tick turns ≤ head.now.tick →
            Sends config turns (turn_by B.held head.now items.old.items) out.new }
        ensures events { length self.new.config.events ≡ length self.old.config.events }
        ensures room { self.new.history.room ≡
            room_after self.old.history.room 1 (length items.old.items) (bytes_in B.held items.old.items) }

        // Each parcel is handed back, and no room of the caller's is changed.
        ensures parcels { HandsBack (all_parcels items.old.items) [] [] back.old.items back.new.items }
        ensures items { items.new.items ≡ [] }
        ensures items_room { vec_capacity items.new ≡ vec_capacity items.old }
        ensures back_room { vec_capacity back.new ≡ vec_capacity back.old }
        ensures out_room { room_of out.new ≡ room_of out.old }
    {
        let Fresh { chain, desk } = next(&mut self.fresh);
        let chain = retake(chain, desk, &self.history, head, items, out);
        self.limited = chain.limited();
        self.memory = chain.into_memory();
        record_turn(head, items, &mut self.history);
        hand_back(items, back);
    }

    ghost keeps = { λ chain config turns stands.
        record { others = open_contexts config turns; same = IsPermutation-refl (open_contexts config turns) } };

    ghost smaller = { λ chain entries bytes fewer less few small room.
        smaller_turn_room chain.history.room entries bytes fewer less few small room };

    ghost bounded = { λ chain items sent fits short room. room };
}
