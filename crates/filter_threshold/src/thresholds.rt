//! The threshold windows of all events.

ghost use Rattle.std.specs.Prelude.{◌≡◌, ◌<◌, ℕ, List, [], ◌∷◌, length, map, IfOk};
ghost use Rattle.ids_config.specs.Parts.{Parts, event_at};
ghost use Rattle.chain_spec.specs.{Occurrence, verdict, EndBy};
ghost use Rattle.filter_threshold.specs.Counting.{Stands};
ghost use Rattle.filter_threshold.specs.Slots.{fresh_slot, slot_at, passes, after_arrival};

use crate::threshold::{Threshold, arrive, threshold_of};
use ids_config::{Config, EventParts};
use ids_types::{EventIndex, NoMemory};
use std::alloc::Global;
use std::marker::Model;

/// The thresholds of all events, each with its newest window.
#[derive(Debug, Drop)]
pub struct Thresholds {
    slots: Vec<Option<Threshold>>,
}

impl Model for Thresholds {
    ghost use Rattle.std.specs.Prelude.{List, Option};
    ghost use Rattle.filter_threshold.specs.declared.threshold.Threshold.{Threshold};

    ghost Value = { List (Option Threshold) };

    ghost view = { λ t. t.slots.items };
}

impl Thresholds {
    /// The thresholds of a configuration, before any item.
    /// Steps: the events, at most 256. Memory: made once. By: read off; no other call of it answers NoMemory.
    pub fn make(alloc: Global, config: &Config) -> Result<Thresholds, NoMemory>
        ensures stands { IfOk result (Stands config.now []) }
    {
        Ok(Thresholds {
            slots: fresh_slots(alloc, &config.parts().events)?,
        })
    }

    /// Whether an item of the event passes, which counts from now on. Takes no memory.
    /// By: no loop; answer `bool`, no NoMemory.
    pub fn arrive(&mut self, event: EventIndex, tick: u64, count: u16) -> bool
        requires { event.0 < length self.old }
        ensures passes { (config : Parts) (items : List Occurrence) → Stands config items self.old
            → EndBy (λ one. one.tick) tick items
            → result ≡ verdict (event_at config event.0).threshold
            (record { event = event.0; tick = tick; count = count }) items }
        ensures stands { (config : Parts) (items : List Occurrence) → Stands config items self.old
            → EndBy (λ one. one.tick) tick items
            → Stands config (record { event = event.0; tick = tick; count = count } ∷ items) self.new }
        ensures events { length self.new ≡ length self.old }
    {
        self.ask(event, tick, count)
    }

    fn ask(&mut self, event: EventIndex, tick: u64, count: u16) -> bool
        requires { event.0 < length self.old }
        ensures passes { result ≡ passes tick count (slot_at self.old event.0) }
        ensures slots { self.new ≡ after_arrival event.0 tick count self.old }
    {
        arrive(&mut self.slots[event.0 as usize], tick, count)
    }
}

/// A slot for each event.
fn fresh_slots(alloc: Global, events: &[EventParts]) -> Result<Vec<Option<Threshold>>, NoMemory>
    ensures { IfOk result (λ slots. slots.items ≡ map fresh_slot events.now) }
{
    Ok(events.iter().map(threshold_of).collect(alloc)?)
}
