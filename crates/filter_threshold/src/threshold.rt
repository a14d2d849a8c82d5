//! The threshold of one event.

ghost use Rattle.std.specs.Prelude.{◌≡◌};
ghost use Rattle.filter_threshold.specs.Slots.{is_covered, counted_with, is_reached, counting, fresh_slot, passes, after_item};

use ids_config::{EventParts, Window};

/// The window in which items are counted, from its first item's tick on.
#[derive(Clone, Copy, Debug, PartialEq, Eq)]
pub(crate) struct Counted {
    pub since: u64,
    /// 65,535 stands for every greater sum.
    pub sum: u16,
}

impl Counted {
    fn covers(&self, interval: u64, tick: u64) -> bool
        ensures { result ≡ is_covered interval tick self.now }
    {
        tick < self.since || tick - self.since < interval
    }
}

/// A threshold with its newest window.
#[derive(Clone, Copy, Debug, PartialEq, Eq)]
pub(crate) struct Threshold {
    pub setting: Window,
    pub window: Option<Counted>,
}

impl Threshold {
    /// Counts an item, and answers whether it passes.
    fn arrive(&mut self, tick: u64, count: u16) -> bool
        ensures passes { result ≡ is_reached tick count self.old }
        ensures after { self.new ≡ counting tick count self.old }
    {
        let window = self.with_item(tick, count);
        self.window = Some(window);
        u64::from(window.sum) >= self.setting.number
    }

    /// The newest window with one item more, or else the window that the item opens.
    fn with_item(&self, tick: u64, count: u16) -> Counted
        ensures { result ≡ counted_with self.now.setting.interval tick count self.now.window }
    {
        match self.window {
            Some(window) if window.covers(self.setting.interval, tick) => Counted {
                since: window.since,
                sum: window.sum.saturating_add(count),
            },
            _ => Counted {
                since: tick,
                sum: count,
            },
        }
    }
}

/// The threshold of an event of which no item came yet.
pub(crate) fn threshold_of(event: &EventParts) -> Option<Threshold>
    ensures { result ≡ fresh_slot event.now }
{
    event.threshold.map(|setting| Threshold {
        setting,
        window: None,
    })
}

/// Counts an item where there is a threshold, and answers whether it passes.
pub(crate) fn arrive(slot: &mut Option<Threshold>, tick: u64, count: u16) -> bool
    ensures passes { result ≡ passes tick count slot.old }
    ensures after { slot.new ≡ after_item tick count slot.old }
{
    match slot {
        Some(threshold) => threshold.arrive(tick, count),
        None => true,
    }
}
