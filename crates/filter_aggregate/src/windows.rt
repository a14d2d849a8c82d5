//! The windows of all events.

ghost use Rattle.std.specs.Prelude.{◌≡◌, ◌≢◌, ◌<◌, ◌≤◌, ℕ, List, [], ◌∷◌, length, map, filter, option_map, option_and_then, option_to_list, is_some, IsSome, IfOk};
ghost use Rattle.std.specs.Bool.{IsFalse};
ghost use Rattle.std.specs.List.{All};
ghost use Rattle.std.specs.Option.{option_copied};
ghost use Rattle.ids_config.specs.Parts.{Parts, event_at};
ghost use Rattle.chain_spec.specs.{Item, is_of, item_at, told_by, Moment, closes, EndBy};
ghost use Rattle.chain_spec.specs.OpenWindows.{closing_item, closing_ticks};
ghost use Rattle.filter_aggregate.specs.{Accounts, all_kept, fresh_slot, slot_at, held_in, is_due, item_due, after_closing, keeps_last, spare_of, after_arrival, slots_by, Stands};

use crate::slot::Slot;
use ids_config::{Config, EventParts};
use ids_types::{EventIndex, NoMemory, Parcel, Qualified};
use std::alloc::{AllocError, Global};
use std::marker::Model;

/// The aggregation windows of all events. No memory is taken but in `make`.
#[derive(Debug, Drop)]
pub struct Windows<B> {
    slots: Vec<Slot<B>>,
}

impl<B> Model for Windows<B> {
    ghost use Rattle.std.specs.Prelude.{List};
    ghost use Rattle.filter_aggregate.specs.declared.slot.Slot.{Slot};

    ghost Value = { List (Slot B) };

    ghost use Rattle.filter_aggregate.specs.Slots.{HaveIntervals};

    ghost view = { λ w. w.slots.items };

    ghost invariant = { λ w. HaveIntervals w.slots.items };
}

impl<B: Parcel> Windows<B> {
    /// The windows of a configuration, none of them open.
    /// Steps: the events, at most 256. Memory: made once. By: read off; no other call of it answers NoMemory.
    pub fn make(alloc: Global, config: &Config) -> Result<Windows<B>, NoMemory>
        ensures slots { IfOk result (λ w. w ≡ map (λ event. fresh_slot event.aggregate) config.now.events) }
        ensures stands_over { IfOk result (λ w. Stands config.now [] [] (slots_by B.held w)) }
    {
        let slots = fresh_slots(alloc, &config.parts().events)?;
        Ok(Windows { slots })
    }

    /// How many events there are.
    pub fn events(&self) -> usize
        ensures { result ≡ length self.now }
    {
        self.slots.len()
    }

    /// Whether the event is aggregated.
    pub fn aggregates(&self, event: EventIndex) -> bool
        requires { event.0 < length self.now }
        ensures slot { result ≡ is_some (slot_at self.now event.0).setting }
        ensures configured { (config : Parts) (moments : List Moment) (items : List Item)
            → Stands config moments items (slots_by B.held self.now) → result ≡ is_some (event_at config event.0).aggregate }
    {
        self.slots[usize::from(event.0)].setting.is_some()
    }

    /// The parcel that the event's open window keeps, if it is open and keeps one.
    pub fn holds(&self, event: EventIndex) -> Option<&B>
        requires { event.0 < length self.now }
        ensures { option_copied result ≡ held_in (slot_at self.now event.0) }
    {
        match &self.slots[usize::from(event.0)].window {
            Some(window) => window.item.context.as_ref(),
            None => None,
        }
    }

    /// Whether the event's window is due at the tick: then `close_due` gives its item.
    pub fn is_due(&self, event: EventIndex, tick: u64) -> bool
        ensures slot { result ≡ is_due tick (slot_at self.now event.0) }
        ensures gives_over { (config : Parts) (moments : List Moment) (items : List Item)
            → Stands config moments items (slots_by B.held self.now)
            → result ≡ is_some (closing_item (event_at config event.0).aggregate tick (closing_ticks event.0 moments)
            (filter (is_of event.0) items)) }
    {
        self.slots
            .get(usize::from(event.0))
            .is_some_and(|slot| slot.is_due(tick))
    }

    /// Closes the event's window where it is due at the tick, and gives its one item.
    /// By: no loop; the parcel is moved (`moved`).
    pub fn close_due(&mut self, event: EventIndex, tick: u64) -> Option<Qualified<B>>
        requires { event.0 < length self.old }
        // What it gives, and the slots and parcels then.
        ensures slots { self.new ≡ after_closing event.0 tick self.old }
        ensures item { result ≡ item_due tick (slot_at self.old event.0) }
        ensures moved { let parcel = option_and_then (λ item. item.context) result in
            Accounts [] (all_kept self.old) (option_to_list parcel) (all_kept self.new) }
        ensures settled { IsFalse (is_due tick (slot_at self.new event.0)) }
        ensures others { (k : ℕ) → k ≢ event.0 → slot_at self.new k ≡ slot_at self.old k }

        // What that is over the parcels' bytes, after any moments and items.
        ensures stands_over { (config : Parts) (moments : List Moment) (items : List Item)
            → Stands config moments items (slots_by B.held self.old)
            → Stands config (closes tick event.0 ∷ moments) items (slots_by B.held self.new) }
        ensures gives_over { (config : Parts) (moments : List Moment) (items : List Item)
            → Stands config moments items (slots_by B.held self.old)
            → option_map (λ given. item_at tick (told_by B.held given)) result
            ≡ closing_item (event_at config event.0).aggregate tick (closing_ticks event.0 moments) (filter (is_of event.0) items) }
    {
        self.close_slot(event, tick)
    }

    /// An item arrives. Gives back the parcel that its window does not keep.
    /// By: no loop; the parcel is moved (`moved`).
    #[tactic(auto, using(crate::proofs::AccountLemmas::account_arriving))]
    pub fn arrive(&mut self, tick: u64, item: Qualified<B>) -> Option<B>
        requires exists { item.event.0 < length self.old }
        requires aggregates { IsSome (slot_at self.old item.event.0).setting }
        requires none_due { IsFalse (is_due tick (slot_at self.old item.event.0)) }
        // What it gives back, and the slots and parcels then.
        ensures slots { self.new ≡ after_arrival tick item self.old }
        ensures back { let slot = slot_at self.old item.event.0 in
            result ≡ spare_of (keeps_last slot.setting) (held_in slot) item.context }
        ensures moved { Accounts (option_to_list item.context) (all_kept self.old) (option_to_list result) (all_kept self.new) }
        ensures settled { IsFalse (is_due tick (slot_at self.new item.event.0)) }
        ensures others { (k : ℕ) → k ≢ item.event.0 → slot_at self.new k ≡ slot_at self.old k }

        // What that is over the parcels' bytes, if the items' ticks do not fall, and no turn closed the event's window at a
        // later one.
        ensures stands_over { (config : Parts) (moments : List Moment) (items : List Item)
            → Stands config moments items (slots_by B.held self.old)
            → EndBy (λ item. item.tick) tick items → All (λ closed. closed ≤ tick) (closing_ticks item.event.0 moments)
            → Stands config moments (item_at tick (told_by B.held item) ∷ items) (slots_by B.held self.new) }
    {
        // Names a field, so that the proof knows the invariant.
        let _slots = &self.slots;
        self.arrive_slot(tick, item)
    }

    #[tactic(auto, using(crate::proofs::SlotLemmas::intervals_set))]
    fn close_slot(&mut self, event: EventIndex, tick: u64) -> Option<Qualified<B>>
        requires { event.0 < length self.old }
        ensures slots { self.new ≡ after_closing event.0 tick self.old }
        ensures item { result ≡ item_due tick (slot_at self.old event.0) }
    {
        self.slots[usize::from(event.0)].close_due(tick)
    }

    #[tactic(auto, using(crate::proofs::SlotLemmas::intervals_set))]
    fn arrive_slot(&mut self, tick: u64, item: Qualified<B>) -> Option<B>
        requires { item.event.0 < length self.old }
        ensures slots { self.new ≡ after_arrival tick item self.old }
        ensures back { let slot = slot_at self.old item.event.0 in
            result ≡ spare_of (keeps_last slot.setting) (held_in slot) item.context }
    {
        self.slots[usize::from(item.event.0)].arrive(tick, item)
    }
}

/// A slot for each event.
fn fresh_slots<B: Parcel>(alloc: Global, events: &[EventParts]) -> Result<Vec<Slot<B>>, AllocError>
    ensures { IfOk result (λ slots. slots.items ≡ map (λ event. fresh_slot event.aggregate) events.now) }
{
    events
        .iter()
        .map(|event| Slot {
            setting: event.aggregate,
            window: None,
        })
        .collect(alloc)
}
