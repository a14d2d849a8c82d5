//! The parts of a configuration, each member's value or its default; and the members of an object by their names.

ghost use Rattle.std.specs.Prelude.{◌≡◌, map, option_map, IfOk};
ghost use Rattle.serde_json.specs.View.{view};
ghost use Rattle.ids_config.specs.Parts.{class_of};
ghost use Rattle.config_json.specs.Members.{whole_or as whole_unless, truth_or as truth_unless, window_in, aggregate_in, class_in, state_in, event_in, internal_at, profile_in, form_of, parts_in, whole_at, text_at, list_at, object_at, form_at, last_named};

use crate::tables::Form;
use ids_config::{Aggregate, ConfigParts, EventParts, Window};
use ids_types::Mode;
use serde_json::Value;
use std::alloc::{AllocError, Global};

/// The parts of a whole configuration.
#[tactic(auto, unfolding(crate::specs::Members::parts_in))]
pub(crate) fn read_parts(alloc: Global, value: &Value) -> Result<ConfigParts, AllocError>
    ensures { IfOk result (λ parts. parts ≡ parts_in (view value.now)) }
{
    Ok(ConfigParts {
        profile: find_profile(value),
        instance: whole_or(0, value, "instance"),
        callers: whole_or(1, value, "callers"),
        ring: whole_or(64, value, "ring"),
        memory: whole_or(0, value, "memory"),
        state: whole_or(0, value, "state"),
        classes: read_classes(alloc, find_list(value, "classes"))?,
        rate: find_object(value, "rate").map(|rate| read_window(rate, "events")),
        traffic: find_object(value, "traffic").map(|traffic| read_window(traffic, "bytes")),
        events: read_events(alloc, find_list(value, "events"))?,
        lost_events: find_internal(value, "lost_events"),
        lost_contexts: find_internal(value, "lost_contexts"),
        limited: find_internal(value, "limited"),
    })
}

/// The profile, 1 in the first form.
fn find_profile(value: &Value) -> u64
    ensures { result ≡ profile_in (form_of (view value.now)) (view value.now) }
{
    match find_form(value) {
        Some(Form::Second) => whole_or(2, value, "profile"),
        _ => 1,
    }
}

fn read_classes(alloc: Global, values: &[Value]) -> Result<Vec<(u64, u64)>, AllocError>
    ensures { IfOk result (λ classes. map class_of classes.items ≡ map class_in (map view values.now)) }
{
    let mut classes = Vec::with_capacity(alloc, values.len())?;
    for value in values {
        classes.push((whole_or(0, value, "size"), whole_or(0, value, "number")))?;
    }
    Ok(classes)
}

fn read_events(alloc: Global, values: &[Value]) -> Result<Vec<EventParts>, AllocError>
    ensures { IfOk result (λ events. events.items ≡ map event_in (map view values.now)) }
{
    let mut events = Vec::with_capacity(alloc, values.len())?;
    for value in values {
        events.push(read_event(alloc, value)?)?;
    }
    Ok(events)
}

#[tactic(auto, using(crate::proofs::PrintedLemmas::states_of), unfolding(crate::specs::Members::event_in))]
fn read_event(alloc: Global, value: &Value) -> Result<EventParts, AllocError>
    ensures { IfOk result (λ event. event ≡ event_in (view value.now)) }
{
    Ok(EventParts {
        id: whole_or(0, value, "id"),
        sensor: whole_or(0, value, "sensor"),
        version: whole_or(0, value, "version"),
        mode: find_text(value, "mode")
            .and_then(|name| Mode::named(name.as_bytes()))
            .unwrap_or(Mode::Detailed),
        send: truth_or(true, value, "send"),
        store: truth_or(false, value, "store"),
        block: read_block(alloc, find_list(value, "block"))?,
        nth: whole_or(1, value, "nth"),
        aggregate: find_object(value, "aggregate").map(read_aggregate),
        threshold: find_object(value, "threshold").map(|threshold| read_window(threshold, "count")),
    })
}

/// Blocking states.
fn read_block(alloc: Global, values: &[Value]) -> Result<Vec<u64>, AllocError>
    ensures { IfOk result (λ states. states.items ≡ map (λ value. state_in (view value)) values.now) }
{
    values
        .iter()
        .map(|value| value.as_u64().unwrap_or(0))
        .collect(alloc)
}

fn read_aggregate(value: &Value) -> Aggregate
    ensures { result ≡ aggregate_in (view value.now) }
{
    Aggregate {
        interval: whole_or(0, value, "interval"),
        last: find_text(value, "context")
            .and_then(last_of)
            .unwrap_or(false),
    }
}

/// A window whose number has this name.
fn read_window(value: &Value, name: &str) -> Window
    ensures { result ≡ window_in name.now (view value.now) }
{
    Window {
        interval: whole_or(0, value, "interval"),
        number: whole_or(0, value, name),
    }
}

/// The index that the object of internal events has by this name.
fn find_internal(value: &Value, name: &str) -> Option<u64>
    ensures { result ≡ internal_at name.now (view value.now) }
{
    let internal = find_object(value, "internal")?;
    find_whole(internal, name)
}

/// The whole number of this name, or the default.
fn whole_or(default: u64, value: &Value, name: &str) -> u64
    ensures { result ≡ whole_unless default name.now (view value.now) }
{
    find_whole(value, name).unwrap_or(default)
}

/// The truth value of this name, or the default.
fn truth_or(default: bool, value: &Value, name: &str) -> bool
    ensures { result ≡ truth_unless default name.now (view value.now) }
{
    value.get(name).and_then(Value::as_bool).unwrap_or(default)
}

pub(crate) fn find_whole(value: &Value, name: &str) -> Option<u64>
    ensures { result ≡ whole_at name.now (view value.now) }
{
    value.get(name).and_then(Value::as_u64)
}

pub(crate) fn find_text<'a>(value: &'a Value, name: &str) -> Option<&'a str>
    ensures { option_map (λ text. text.now) result ≡ text_at name.now (view value.now) }
{
    value.get(name).and_then(Value::as_str)
}

/// The list of this name, empty where it is absent.
#[tactic(auto, using(crate::proofs::PrintedLemmas::elements_back))]
pub(crate) fn find_list<'a>(value: &'a Value, name: &str) -> &'a [Value]
    ensures { map view result.now ≡ list_at name.now (view value.now) }
{
    match value.get(name).and_then(Value::as_array) {
        Some(list) => list,
        None => &[],
    }
}

/// The object of this name, `None` where it is null or absent.
pub(crate) fn find_object<'a>(value: &'a Value, name: &str) -> Option<&'a Value>
    ensures { option_map (λ object. view object.now) result ≡ object_at name.now (view value.now) }
{
    let member = value.get(name)?;
    if member.is_object() {
        Some(member)
    } else {
        None
    }
}

/// The form that the tree says it has, `None` where there is no such form.
pub(crate) fn find_form(value: &Value) -> Option<Form>
    ensures { result ≡ form_at (view value.now) }
{
    find_whole(value, "form").and_then(Form::numbered)
}

/// Whether an aggregation of this choice keeps the last context of a window.
pub(crate) fn last_of(name: &str) -> Option<bool>
    ensures { result ≡ last_named name.now }
{
    match name {
        "FIRST" => Some(false),
        "LAST" => Some(true),
        _ => None,
    }
}
