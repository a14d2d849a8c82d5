//! The window of one event: how it opens, takes items, and closes.

ghost use Rattle.std.specs.Prelude.{◌≡◌};
ghost use Rattle.filter_aggregate.specs.Slots.{is_due, item_due, slot_closed, slot_with, spare_of, keeps_last, held_in};

use crate::open::Open;
use ids_config::Aggregate;
use ids_types::{Parcel, Qualified};

/// The place of one event.
#[derive(Debug, Drop)]
pub struct Slot<B> {
    /// How the event is aggregated, if it is.
    pub setting: Option<Aggregate>,
    /// Its open window, if there is one.
    pub window: Option<Open<B>>,
}

impl<B: Parcel> Slot<B> {
    /// Whether a window is open whose interval has passed by the tick.
    pub(crate) fn is_due(&self, tick: u64) -> bool
        ensures { result ≡ is_due tick self.now }
    {
        match (&self.setting, &self.window) {
            (Some(setting), Some(window)) => {
                window.since <= tick && tick - window.since >= setting.interval
            }
            _ => false,
        }
    }

    pub(crate) fn close_due(&mut self, tick: u64) -> Option<Qualified<B>>
        ensures slot { self.new ≡ slot_closed tick self.old }
        ensures item { result ≡ item_due tick self.old }
        ensures setting { self.new.setting ≡ self.old.setting }
    {
        if !self.is_due(tick) {
            return None;
        }
        match self.window.take() {
            Some(window) => Some(window.item),
            None => None,
        }
    }

    pub(crate) fn arrive(&mut self, tick: u64, item: Qualified<B>) -> Option<B>
        ensures slot { self.new ≡ slot_with tick item self.old }
        ensures back { result ≡ spare_of (keeps_last self.old.setting) (held_in self.old) item.context }
        ensures setting { self.new.setting ≡ self.old.setting }
    {
        let last = self.setting.is_some_and(|setting| setting.last);
        let Some(window) = &mut self.window else {
            self.window = Some(Open { since: tick, item });
            return None;
        };
        window.join(last, item)
    }
}
