//! Reading a configuration from its tables.
ghost use Rattle.std.specs.Prelude.{◌≡◌, IfOk, map};
ghost use Rattle.ids_config.specs.Steps.{each};
ghost use Rattle.config_json.specs.Configured.{Tells};
ghost use Rattle.config_tables.specs.Tables.{aggregate_in, choices_at, config_in, event_choices, event_in, index_in, pair_in, parts_in, state_at, states_in, window_in};

use crate::modes::mode_at;
use crate::rows::{AggregateRow, ClassRow, EventRow, NONE, TopRow, WindowRow};
use config_json::JsonFault;
use ids_config::{
    Aggregate, Config, ConfigFault, ConfigParts, ConfigPlace, EventParts, Window, asks, at, capped,
};
use ids_types::Mode;
use std::alloc::{AllocError, Global};

/// The configuration that the tables have, or their first fault.
/// Steps: the rows. Memory: may answer want of memory (`JsonFault`). By: read off.
pub fn read(
    alloc: Global,
    top: &TopRow,
    classes: &[ClassRow],
    events: &[EventRow],
) -> Result<Config, JsonFault>
    ensures { Tells (config_in top.now classes.now events.now) result }
{
    check_choices(events)?;
    let parts = read_parts(alloc, top, classes, events)?;
    Ok(Config::check(parts)?)
}

/// The choices of all events are known.
fn check_choices(events: &[EventRow]) -> Result<(), ConfigFault>
    ensures { result ≡ each choices_at 0 events.now }
{
    for (index, event) in events.iter().enumerate() {
        at(ConfigPlace::Event(capped(index)), check_event(event))?;
    }
    Ok(())
}

/// The choices of an event are known: its mode, and the context that its aggregation keeps.
fn check_event(event: &EventRow) -> Result<(), u8>
    ensures { result ≡ event_choices event.now }
{
    asks(7, mode_at(event.mode).is_some())?;
    asks(
        8,
        event.aggregate.is_set == 0 || event.aggregate.context <= 1,
    )
}

/// The parts of a whole configuration.
fn read_parts(
    alloc: Global,
    top: &TopRow,
    classes: &[ClassRow],
    events: &[EventRow],
) -> Result<ConfigParts, AllocError>
    ensures { IfOk result (λ parts. parts ≡ parts_in top.now classes.now events.now) }
{
    Ok(ConfigParts {
        profile: u64::from(top.profile),
        instance: u64::from(top.instance),
        callers: u64::from(top.callers),
        ring: u64::from(top.ring),
        memory: u64::from(top.memory),
        state: u64::from(top.state),
        classes: read_classes(alloc, classes)?,
        rate: window_of(top.rate),
        traffic: window_of(top.traffic),
        events: read_events(alloc, events)?,
        lost_events: index_of(top.lost_events),
        lost_contexts: index_of(top.lost_contexts),
        limited: index_of(top.limited),
    })
}

/// The sizes and the numbers of classes.
fn read_classes(alloc: Global, rows: &[ClassRow]) -> Result<Vec<(u64, u64)>, AllocError>
    ensures { IfOk result (λ pairs. pairs.items ≡ map pair_in rows.now) }
{
    rows.iter()
        .map(|row| (u64::from(row.size), u64::from(row.number)))
        .collect(alloc)
}

fn read_events(alloc: Global, rows: &[EventRow]) -> Result<Vec<EventParts>, AllocError>
    ensures { IfOk result (λ events. events.items ≡ map event_in rows.now) }
{
    let mut events = Vec::with_capacity(alloc, rows.len())?;
    for row in rows {
        events.push(read_event(alloc, row)?)?;
    }
    Ok(events)
}

fn read_event(alloc: Global, row: &EventRow) -> Result<EventParts, AllocError>
    ensures { IfOk result (λ event. event ≡ event_in row.now) }
{
    Ok(EventParts {
        id: u64::from(row.id),
        sensor: u64::from(row.sensor),
        version: u64::from(row.version),
        mode: mode_at(row.mode).unwrap_or(Mode::Detailed),
        send: row.send != 0,
        store: row.store != 0,
        block: read_states(alloc, row)?,
        nth: u64::from(row.nth),
        aggregate: aggregate_of(row.aggregate),
        threshold: window_of(row.threshold),
    })
}

/// The blocking states of an event.
fn read_states(alloc: Global, row: &EventRow) -> Result<Vec<u64>, AllocError>
    ensures { IfOk result (λ states. states.items ≡ states_in row.now) }
{
    (0..u64::from(row.states))
        .map(|i| state_of(row, i))
        .collect(alloc)
}

/// Blocking state `i` of a row, 0 behind the last for which there is room.
fn state_of(row: &EventRow, i: u64) -> u64
    ensures { result ≡ state_at row.now i }
{
    match row.block.get(i as usize) {
        Some(&state) => u64::from(state),
        None => 0,
    }
}

fn aggregate_of(row: AggregateRow) -> Option<Aggregate>
    ensures { result ≡ aggregate_in row }
{
    match row.is_set {
        0 => None,
        _ => Some(Aggregate {
            interval: row.interval,
            last: row.context != 0,
        }),
    }
}

fn window_of(row: WindowRow) -> Option<Window>
    ensures { result ≡ window_in row }
{
    match row.is_set {
        0 => None,
        _ => Some(Window {
            interval: row.interval,
            number: u64::from(row.number),
        }),
    }
}

/// The index of an internal event.
fn index_of(number: u32) -> Option<u64>
    ensures { result ≡ index_in number }
{
    match number {
        NONE => None,
        _ => Some(u64::from(number)),
    }
}
