//! The chain itself: the filters between two turns.

ghost use Rattle.std.specs.Prelude.{◌≡◌, ◌<◌, [], List, true, false, length, ◌↔◌, map, refl, reverse, IfOk, IsOk};
ghost use Rattle.event_chain.specs.Names.{rows_of, Turn, Parts, mode_at, moments, state_at, is_due, slot_at, list_any, NoneDue};
ghost use Rattle.event_chain.specs.{aggregating_in, chain_events, chain_kept, windows_in, Stands, StandsWatched};

use crate::rest::Rest;
use crate::way::Way;
use crate::witness::{Unwatched, Witness};
use event_memory::Memory;
use filter_aggregate::Windows;
use filter_chain::{Chain, ParcelChain};
use filter_gate::GateState;
use ids_config::Config;
use ids_types::{Entry, EventIndex, Internal, Mode, NoMemory, Parcel, TurnHead, TurnOut};
use internal_events::heads;
use std::alloc::Global;
use std::marker::Model;

/// The filter chain, one turn after another. It never holds the history, and takes no memory but in `make`; a witness
/// may be told what becomes of each item.
#[derive(Debug, Drop)]
pub struct EventChain<B, W = Unwatched> {
    way: Way<B, W>,
    /// The events that are aggregated, in their order.
    aggregating: Vec<EventIndex>,
    internal: Internal,
}

impl<B, W> Model for EventChain<B, W> {
    ghost use Rattle.event_chain.specs.Chained.{Watched};

    ghost Value = { Watched B W };

    ghost use Rattle.event_chain.specs.Chained.{chained, IsSound};

    ghost view = { chained };

    ghost invariant = { IsSound };
}

impl<B: Parcel> EventChain<B> {
    /// The chain of a configuration, before the first turn.
    /// Steps: the events, at most 256, with their block states, at most 16 each, and the records, at most 256, each
    /// with a request. Memory: made once. By: read off; none of its calls of `Chain` takes memory.
    pub fn make(alloc: Global, config: &Config) -> Result<EventChain<B>, NoMemory>
        ensures stands { IfOk result (Stands B.held config.now []) }
        ensures events { IfOk result (λ chain. chain_events chain ≡ length config.now.events) }
        ensures kept { IfOk result (λ chain. chain_kept chain ≡ []) }
    {
        EventChain::watched(alloc, config, Unwatched)
    }
}

impl<B: Parcel, W: Witness> EventChain<B, W> {
    /// The chain of a configuration, before the first turn, with a witness who knows that nothing came yet.
    /// Steps: the events, at most 256, with their block states, at most 16 each, and the records, at most 256, each
    /// with a request. Memory: made once. By: read off; none of its calls of `Chain` takes memory.
    pub fn watched(alloc: Global, config: &Config, witness: W) -> Result<EventChain<B, W>, NoMemory>
        requires { W.knows witness config.now [] }
        ensures stands { IfOk result (StandsWatched B.held W.knows config.now []) }
        ensures events { IfOk result (λ chain. chain_events chain ≡ length config.now.events) }
        ensures kept { IfOk result (λ chain. chain_kept chain ≡ []) }
    {
        // Names the parts, so that the proof knows that they are valid.
        let _parts = config.parts();
        let windows = Windows::make(alloc, config)?;
        Ok(EventChain {
            aggregating: aggregating(alloc, &windows)?,
            way: Way {
                gate: GateState::make(alloc, config)?,
                windows,
                rest: Rest::make(alloc, config)?,
                witness,
            },
            internal: config.internal(),
        })
    }

    /// The witness, who knows of all turns that were taken.
    pub fn witness(&self) -> &W
        ensures { (config : Parts) (turns : List Turn) → StandsWatched B.held W.knows config turns self.now →
            W.knows result.now config (moments config turns) }
    {
        &self.way.witness
    }

    /// The event's reporting mode after the last turn: the one that was set last, or else the configured one.
    pub fn mode(&self, event: EventIndex) -> Mode
        requires { event.0 < chain_events self.now }
        ensures { (config : Parts) (turns : List Turn) → StandsWatched B.held W.knows config turns self.now →
            result ≡ mode_at config event.0 (moments config turns) }
    {
        self.way.gate.mode(event)
    }

    /// The state after the last turn: the one that was changed to last, or else the configured one.
    pub fn state(&self) -> u8
        ensures { (config : Parts) (turns : List Turn) → StandsWatched B.held W.knows config turns self.now →
            result ≡ state_at config (moments config turns) }
    {
        self.way.gate.state()
    }

    /// Whether a turn at this tick closes a window. If not, and if it has no entries and no counts, it is quiet.
    /// Steps: the events that are aggregated, at most 256. By: read off.
    pub fn closes(&self, tick: u64) -> bool
        ensures { (config : Parts) (turns : List Turn) → StandsWatched B.held W.knows config turns self.now →
            (result ≡ false) ↔ NoneDue config turns tick }
    {
        any_due(&self.way.windows, &self.aggregating, tick)
    }

    /// The event memory after the last turn, once the chain has no more to take.
    /// Steps: the events, at most 256, let go. Memory: none; all but the memory is given back. By: read off.
    #[tactic(auto, using(crate::proofs::SoundLemmas::rows_told))]
    pub fn into_memory(self) -> Memory
        ensures { (config : Parts) (turns : List Turn) → StandsWatched B.held W.knows config (reverse turns) self →
            reverse result.rows ≡ rows_of config turns }
    {
        let Way { rest, .. } = self.way;
        rest.memory
    }
}

impl<B: Parcel, W: Witness> Chain<B> for EventChain<B, W> {
    ghost use Rattle.event_chain.specs.Kept.{kept_among};
    ghost use Rattle.event_chain.specs.Room.{HasTurnRoom, bounded_turn};

    ghost stands = { λ chain config turns. StandsWatched B.held W.knows config (reverse turns) chain };

    ghost events = { chain_events };

    ghost kept = { chain_kept };

    ghost has_room = { λ chain entries bytes. true };

    ghost sends_within = { λ chain items sent. HasTurnRoom B.held items (windows_in chain) sent };

    /// Has nothing to do, and always succeeds.
    fn reserve(&mut self, _entries: u64, _bytes: u64) -> Result<(), NoMemory>
        ensures done { IsOk result }
        ensures same { self.new ≡ self.old }
    {
        Ok(())
    }

    fn limited(&self) -> u64 {
        self.way.rest.sender.limited()
    }

    #[tactic(auto, using(crate::proofs::SoundLemmas::rows_told))]
    fn memory(&self) -> &Memory {
        &self.way.rest.memory
    }

    fn judge(
        &mut self,
        head: &TurnHead,
        items: &mut Vec<Entry<B>>,
        back: &mut Vec<B>,
        out: &mut TurnOut,
    ) {
        let tick = head.tick;
        let way = &mut self.way;
        way.begin(out);
        way.close_all(&self.aggregating, tick, back, out);
        way.take_heads(&heads(&self.internal, head), tick, back, out);
        way.take_entries(items, tick, back, out);
    }

    ghost keeps = { λ chain config turns stands.
        kept_among B.held config (moments config (reverse turns)) (windows_in chain) stands.way.at.windows };

    ghost smaller = { λ chain entries bytes fewer less _ _ _. refl };

    ghost bounded = { λ chain items sent fits short room. bounded_turn B.held items (windows_in chain) sent fits short room };
}

impl<B: Parcel, W: Witness> ParcelChain<B> for EventChain<B, W> {
    ghost use Rattle.event_chain.specs.Room.{within_turn};

    ghost roomy = { λ chain entries bytes. refl };

    ghost within = { λ chain items largest sent came kept room.
        within_turn B.held items (windows_in chain) largest sent came kept room };
}

fn aggregating<B: Parcel>(alloc: Global, windows: &Windows<B>) -> Result<Vec<EventIndex>, NoMemory>
    requires { length windows.now < 65536 }
    ensures { IfOk result (λ found. map (λ event. event.0) found.items ≡ aggregating_in windows.now) }
{
    let mut found = Vec::new(alloc);
    for i in 0..windows.events() {
        let event = EventIndex(i as u16);
        if windows.aggregates(event) {
            found.push(event)?;
        }
    }
    Ok(found)
}

/// Whether the window of one of these events is due at the tick.
fn any_due<B: Parcel>(windows: &Windows<B>, events: &[EventIndex], tick: u64) -> bool
    ensures { result ≡ list_any (λ event. is_due tick (slot_at windows.now event.0)) events.now }
{
    events.iter().any(|event| windows.is_due(*event, tick))
}
