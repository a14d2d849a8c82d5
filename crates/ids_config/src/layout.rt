//! The faults of value at the top: the layout of buffers, the limits and the internal events.

ghost use Rattle.std.specs.Prelude.{◌≡◌, ◌≤◌, Some, map, length};
ghost use Rattle.ids_config.specs.{class_of, in_range as range_value, numbers_value, class_value, classes_value, limit_value, window_value, interval_value, is_within as within, differ as differs, internal_value};

use crate::fault::{ConfigFault, ConfigPlace};
use crate::limits::{
    MAX_CALLERS, MAX_CLASS_NUMBER, MAX_CLASS_SIZE, MAX_CLASSES, MAX_INSTANCE, MAX_INTERVAL,
    MAX_LIMIT, MAX_MEMORY, MAX_PROFILE, MAX_RING, MAX_STATE,
};
use crate::parts::{ConfigParts, Window};
use crate::steps::{asks, at, capped};

/// The fault of this number, unless the value is in the range.
pub(crate) fn in_range(number: u8, least: u64, most: u64, value: u64) -> Result<(), u8>
    ensures { result ≡ range_value number least most value }
{
    asks(number, least <= value && value <= most)
}

pub(crate) fn check_interval(number: u8, interval: u64) -> Result<(), u8>
    ensures { result ≡ interval_value number interval }
{
    in_range(number, 1, MAX_INTERVAL, interval)
}

/// A window, where there is one, with its number in the range.
pub(crate) fn check_window(
    number: u8,
    least: u64,
    most: u64,
    window: Option<Window>,
) -> Result<(), u8>
    ensures { result ≡ window_value number least most window }
{
    let Some(window) = window else {
        return Ok(());
    };
    check_interval(number, window.interval)?;
    in_range(number, least, most, window.number)
}

/// A limit of events or of bytes, where there is one.
pub(crate) fn check_limit(limit: Option<Window>) -> Result<(), u8>
    ensures { result ≡ limit_value limit }
{
    check_window(18, 0, MAX_LIMIT, limit)
}

/// The numbers at the top, before the classes.
pub(crate) fn check_numbers(parts: &ConfigParts) -> Result<(), u8>
    ensures { result ≡ numbers_value parts.now }
{
    in_range(25, 1, MAX_PROFILE, parts.profile)?;
    in_range(9, 0, MAX_INSTANCE, parts.instance)?;
    in_range(10, 1, MAX_CALLERS, parts.callers)?;
    in_range(11, 1, MAX_RING, parts.ring)?;
    in_range(12, 0, MAX_MEMORY, parts.memory)?;
    in_range(13, 0, MAX_STATE, parts.state)
}

pub(crate) fn check_classes(classes: &[(u64, u64)]) -> Result<(), ConfigFault>
    ensures { result ≡ classes_value (map class_of classes.now) }
{
    at(ConfigPlace::Top, asks(14, classes.len() <= MAX_CLASSES))?;
    let mut above = 0;
    for (index, class) in classes.iter().enumerate() {
        at(
            ConfigPlace::Class(capped(index)),
            check_class(above, *class),
        )?;
        above = class.0;
    }
    Ok(())
}

/// A class after one of this size.
fn check_class(above: u64, class: (u64, u64)) -> Result<(), u8>
    ensures { result ≡ class_value above (class_of class) }
{
    in_range(15, 1, MAX_CLASS_SIZE, class.0)?;
    in_range(16, 1, MAX_CLASS_NUMBER, class.1)?;
    asks(17, above < class.0)
}

pub(crate) fn check_internal(parts: &ConfigParts) -> Result<(), u8>
    ensures { result ≡ internal_value parts.now }
{
    let events = parts.events.len() as u64;
    asks(
        24,
        is_within(events, parts.lost_events)
            && is_within(events, parts.lost_contexts)
            && is_within(events, parts.limited)
            && differ(parts.lost_events, parts.lost_contexts)
            && differ(parts.lost_events, parts.limited)
            && differ(parts.lost_contexts, parts.limited),
    )
}

/// The index, where it is given, is that of one of so many events.
fn is_within(events: u64, index: Option<u64>) -> bool
    ensures { result ≡ within events index }
{
    index.is_none_or(|index| index < events)
}

/// The indices, where both are given, differ.
fn differ(one: Option<u64>, other: Option<u64>) -> bool
    ensures { result ≡ differs one other }
{
    match (one, other) {
        (Some(one), Some(other)) => one != other,
        _ => true,
    }
}
