//! The configuration as a value that is valid, and what it tells.

ghost use Rattle.std.specs.Prelude.{◌≡◌, ◌≤◌, length, ◌<◌, Ok, IfSome, option_map};
ghost use Rattle.ids_config.specs.{is_sensor, internal_of, index_of as index_name, IsValid, parts_value, checked};

use crate::events::check_events;
use crate::fault::{ConfigFault, ConfigPlace};
use crate::layout::{check_classes, check_internal, check_limit, check_numbers};
use crate::parts::ConfigParts;
use crate::steps::at;
use ids_types::{EventIndex, Internal};
use std::marker::Model;

/// A valid configuration.
#[derive(Debug, Drop)]
pub struct Config {
    parts: ConfigParts,
}

impl Model for Config {
    ghost use Rattle.ids_config.specs.Parts.{Parts};

    ghost Value = { Parts };

    ghost use Rattle.ids_config.specs.ConfigView.{held_parts, IsChecked};

    ghost view = { held_parts };

    ghost invariant = { IsChecked };
}

impl Config {
    /// The configuration of these parts, or the first fault of value, 9 to 26. Takes no memory.
    /// Steps: at most 4 classes, and 256 events with 16 block states each: longer lists are refused before they are
    /// gone over; with a fault also the parts let go. Memory: none; parts with a fault are given back. By: `checked`;
    /// read off; answer `ConfigFault`, no NoMemory.
    pub fn check(parts: ConfigParts) -> Result<Config, ConfigFault>
        ensures { result ≡ checked parts }
    {
        check_parts(&parts)?;
        Ok(Config { parts })
    }

    /// The parts, which have no fault.
    pub fn parts(&self) -> &ConfigParts
        ensures value { result.now ≡ self.now }
        ensures faultless { parts_value self.now ≡ Ok tt }
        ensures valid { IsValid self.now }
    {
        &self.parts
    }

    /// Whether the event of this index is one that sensors report: it is there, and is none of the internal ones.
    pub fn is_sensor(&self, event: u64) -> bool
        ensures is { result ≡ is_sensor self.now event }
        ensures few { length self.now.events ≤ 256 }
    {
        let events = self.parts().events.len() as u64;
        self.internal().is_reported(events, event)
    }

    /// The events that the manager itself reports.
    pub fn internal(&self) -> Internal
        ensures { result ≡ internal_of self.now }
    {
        let parts = self.parts();
        Internal {
            lost_events: index_of(parts.lost_events),
            lost_contexts: index_of(parts.lost_contexts),
            limited: index_of(parts.limited),
        }
    }
}

#[tactic(auto, unfolding(crate::specs::Values::parts_value))]
fn check_parts(parts: &ConfigParts) -> Result<(), ConfigFault>
    ensures { result ≡ parts_value parts.now }
{
    at(ConfigPlace::Top, check_numbers(parts))?;
    check_classes(&parts.classes)?;
    at(ConfigPlace::Top, check_limit(parts.rate))?;
    at(ConfigPlace::Top, check_limit(parts.traffic))?;
    check_events(parts.profile, &parts.events)?;
    at(ConfigPlace::Top, check_internal(parts))
}

fn index_of(index: Option<u64>) -> Option<EventIndex>
    requires { IfSome index (λ k. k < 65536) }
    ensures { result ≡ option_map index_name index }
{
    match index {
        Some(index) => Some(EventIndex(index as u16)),
        None => None,
    }
}
