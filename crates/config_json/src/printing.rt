//! The text of a configuration, by the tree that it is.

ghost use Rattle.std.specs.Prelude.{◌≡◌, map, IfOk, OnOk, string_bytes};
ghost use Rattle.serde_json.specs.View.{view, members_view};
ghost use Rattle.ids_config.specs.Parts.{class_of};
ghost use Rattle.config_json.specs.{configuration, whole, optional, list_tree, with_members, class_tree, window_tree, aggregate_tree, event_members, filter_members, event_tree, internal_tree, number_members, inner_members, config_tree, config_text};

use ids_config::{Aggregate, Config, ConfigParts, EventParts, Window};
use ids_types::NoMemory;
use serde_json::{Map, Value, json, put};
use std::alloc::{AllocError, Global};

/// The text of a configuration in the second form, which `read` reads back as the same.
/// Steps: the bytes of the text, and each member among those of its object: log. Memory: may answer want of memory.
/// By: `text`; read off, but for serde_json's part.
#[tactic(auto, using(crate::proofs::PrintedLemmas::config_printed, crate::proofs::PrintedLemmas::utf8))]
pub fn print(alloc: Global, config: &Config) -> Result<String, NoMemory>
    ensures text { IfOk result (λ text. string_bytes text ≡ config_text config.now) }
    ensures reads_back { IfOk result (λ text. configuration (string_bytes text) ≡ Ok config.now) }
{
    let value = tree_of(alloc, config.parts())?;
    Ok(value.to_string(alloc)?)
}

#[tactic(auto, unfolding(crate::specs::Printed::config_tree))]
fn tree_of(alloc: Global, parts: &ConfigParts) -> Result<Value, AllocError>
    ensures { IfOk result (λ tree. view tree ≡ config_tree parts.now) }
{
    let mut members = Map::new(alloc);
    put_numbers(&mut members, alloc, parts)?;
    put_inner(&mut members, alloc, parts)?;
    Ok(Value::Object(members))
}

/// Puts the numbers at the top.
fn put_numbers(
    members: &mut Map<String, Value>,
    alloc: Global,
    parts: &ConfigParts,
) -> Result<(), AllocError>
    ensures { OnOk result (members_view members.new.entries
        ≡ with_members (number_members parts.now) (members_view members.old.entries)) }
{
    put(members, alloc, "form", Value::from(2_u64))?;
    put(members, alloc, "profile", Value::from(parts.profile))?;
    put(members, alloc, "instance", Value::from(parts.instance))?;
    put(members, alloc, "callers", Value::from(parts.callers))?;
    put(members, alloc, "ring", Value::from(parts.ring))?;
    put(members, alloc, "memory", Value::from(parts.memory))?;
    put(members, alloc, "state", Value::from(parts.state))
}

/// Puts the lists and objects at the top.
fn put_inner(
    members: &mut Map<String, Value>,
    alloc: Global,
    parts: &ConfigParts,
) -> Result<(), AllocError>
    ensures { OnOk result (members_view members.new.entries
        ≡ with_members (inner_members parts.now) (members_view members.old.entries)) }
{
    let classes = tree_of_classes(alloc, &parts.classes)?;
    put(members, alloc, "classes", classes)?;
    let rate = tree_of_window(alloc, "events", parts.rate)?;
    put(members, alloc, "rate", rate)?;
    let traffic = tree_of_window(alloc, "bytes", parts.traffic)?;
    put(members, alloc, "traffic", traffic)?;
    let events = tree_of_events(alloc, &parts.events)?;
    put(members, alloc, "events", events)?;
    put(members, alloc, "internal", tree_of_internal(alloc, parts)?)
}

fn tree_of_internal(alloc: Global, parts: &ConfigParts) -> Result<Value, AllocError>
    ensures { IfOk result (λ tree. view tree ≡ internal_tree parts.now) }
{
    json!(in alloc; {
        "lost_events": tree_of_index(parts.lost_events),
        "lost_contexts": tree_of_index(parts.lost_contexts),
        "limited": tree_of_index(parts.limited)
    })
}

fn tree_of_index(index: Option<u64>) -> Value
    ensures { view result ≡ optional whole index }
{
    match index {
        Some(index) => Value::from(index),
        None => Value::Null,
    }
}

fn tree_of_classes(alloc: Global, classes: &[(u64, u64)]) -> Result<Value, AllocError>
    ensures { IfOk result (λ tree. view tree ≡ list_tree class_tree (map class_of classes.now)) }
{
    let mut trees = Vec::with_capacity(alloc, classes.len())?;
    for class in classes {
        trees.push(json!(in alloc; {"size": class.0, "number": class.1})?)?;
    }
    Ok(Value::Array(trees))
}

/// A window whose number has this name, or null.
fn tree_of_window(alloc: Global, name: &str, window: Option<Window>) -> Result<Value, AllocError>
    ensures { IfOk result (λ tree. view tree ≡ optional (window_tree name.now) window) }
{
    match window {
        Some(window) => json!(in alloc; {"interval": window.interval, name: window.number}),
        None => Ok(Value::Null),
    }
}

fn tree_of_events(alloc: Global, events: &[EventParts]) -> Result<Value, AllocError>
    ensures { IfOk result (λ tree. view tree ≡ list_tree event_tree events.now) }
{
    let mut trees = Vec::with_capacity(alloc, events.len())?;
    for event in events {
        trees.push(tree_of_event(alloc, event)?)?;
    }
    Ok(Value::Array(trees))
}

#[tactic(auto, unfolding(crate::specs::Printed::event_tree))]
fn tree_of_event(alloc: Global, event: &EventParts) -> Result<Value, AllocError>
    ensures { IfOk result (λ tree. view tree ≡ event_tree event.now) }
{
    let mut members = Map::new(alloc);
    put_event(&mut members, alloc, event)?;
    put_filters(&mut members, alloc, event)?;
    Ok(Value::Object(members))
}

/// Puts what the event is and where it goes.
fn put_event(
    members: &mut Map<String, Value>,
    alloc: Global,
    event: &EventParts,
) -> Result<(), AllocError>
    ensures { OnOk result (members_view members.new.entries
        ≡ with_members (event_members event.now) (members_view members.old.entries)) }
{
    put(members, alloc, "id", Value::from(event.id))?;
    put(members, alloc, "sensor", Value::from(event.sensor))?;
    put(members, alloc, "version", Value::from(event.version))?;
    put(members, alloc, "mode", json!(in alloc; event.mode.name())?)?;
    put(members, alloc, "send", Value::from(event.send))?;
    put(members, alloc, "store", Value::from(event.store))
}

/// Puts what filters the event.
fn put_filters(
    members: &mut Map<String, Value>,
    alloc: Global,
    event: &EventParts,
) -> Result<(), AllocError>
    ensures { OnOk result (members_view members.new.entries
        ≡ with_members (filter_members event.now) (members_view members.old.entries)) }
{
    put(members, alloc, "block", tree_of_block(alloc, &event.block)?)?;
    put(members, alloc, "nth", Value::from(event.nth))?;
    let aggregate = tree_of_aggregate(alloc, event.aggregate)?;
    put(members, alloc, "aggregate", aggregate)?;
    let threshold = tree_of_window(alloc, "count", event.threshold)?;
    put(members, alloc, "threshold", threshold)
}

/// Blocking states.
fn tree_of_block(alloc: Global, block: &[u64]) -> Result<Value, AllocError>
    ensures { IfOk result (λ tree. view tree ≡ list_tree whole block.now) }
{
    let mut trees = Vec::with_capacity(alloc, block.len())?;
    for &state in block {
        trees.push(Value::from(state))?;
    }
    Ok(Value::Array(trees))
}

fn tree_of_aggregate(alloc: Global, aggregate: Option<Aggregate>) -> Result<Value, AllocError>
    ensures { IfOk result (λ tree. view tree ≡ optional aggregate_tree aggregate) }
{
    let Some(aggregate) = aggregate else {
        return Ok(Value::Null);
    };
    let context = if aggregate.last { "LAST" } else { "FIRST" };
    json!(in alloc; {"interval": aggregate.interval, "context": context})
}
