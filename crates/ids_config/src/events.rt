//! The faults of value in events.

ghost use Rattle.std.specs.Prelude.{◌≡◌, ◌≤◌};
ghost use Rattle.ids_config.specs.Values.{most_version, event_value, events_value, block_value, aggregate_value, rises as rise};

use crate::fault::{ConfigFault, ConfigPlace};
use crate::layout::{check_interval, check_window, in_range};
use crate::limits::{
    MAX_BLOCK_STATES, MAX_EVENTS, MAX_ID, MAX_NTH, MAX_SENSOR, MAX_STATE, MAX_THRESHOLD,
    MAX_VERSION,
};
use crate::parts::{Aggregate, EventParts};
use crate::steps::{asks, at, capped};

pub(crate) fn check_events(profile: u64, events: &[EventParts]) -> Result<(), ConfigFault>
    ensures { result ≡ events_value profile events.now }
{
    at(
        ConfigPlace::Top,
        asks(19, !events.is_empty() && events.len() <= MAX_EVENTS),
    )?;
    for (index, event) in events.iter().enumerate() {
        at(
            ConfigPlace::Event(capped(index)),
            check_event(profile, event),
        )?;
    }
    Ok(())
}

#[tactic(auto, unfolding(crate::specs::Values::event_value))]
fn check_event(profile: u64, event: &EventParts) -> Result<(), u8>
    ensures { result ≡ event_value profile event.now }
{
    in_range(20, 0, MAX_ID, event.id)?;
    in_range(21, 0, MAX_SENSOR, event.sensor)?;
    in_range(26, 0, max_version(profile), event.version)?;
    check_block(&event.block)?;
    in_range(23, 1, MAX_NTH, event.nth)?;
    check_aggregate(event.aggregate)?;
    check_window(23, 1, MAX_THRESHOLD, event.threshold)
}

/// The greatest version of an event under the profile.
fn max_version(profile: u64) -> u64
    ensures { result ≡ most_version profile }
{
    if profile == 1 { 0 } else { MAX_VERSION }
}

/// Blocking states.
fn check_block(block: &[u64]) -> Result<(), u8>
    ensures { result ≡ block_value block.now }
{
    asks(22, block.len() <= MAX_BLOCK_STATES && rises(block))
}

/// The states rise strictly and are in range.
fn rises(block: &[u64]) -> bool
    ensures { result ≡ rise 0 block.now }
{
    let mut least = 0;
    for &state in block {
        if state < least || state > MAX_STATE {
            return false;
        }
        least = state + 1;
    }
    true
}

fn check_aggregate(aggregate: Option<Aggregate>) -> Result<(), u8>
    ensures { result ≡ aggregate_value aggregate }
{
    match aggregate {
        Some(aggregate) => check_interval(23, aggregate.interval),
        None => Ok(()),
    }
}
