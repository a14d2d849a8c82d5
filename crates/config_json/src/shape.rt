//! The search for faults of shape: the members of each object, their kinds and their names.

ghost use Rattle.std.specs.Prelude.{◌≡◌, map, bytes_eq, codes};
ghost use Rattle.std.specs.List.{list_any, list_all};
ghost use Rattle.std.specs.BTreeMap.{keys};
ghost use Rattle.serde_json.specs.View.{view};
ghost use Rattle.ids_config.specs.Steps.{each};
ghost use Rattle.ids_types.specs.ModeNames.{mode_named};
ghost use Rattle.config_json.specs.{last_named, row_of, is_among as among, members_shape, object_shape, part_shape, class_shape, aggregate_shape, event_shape, event_shape_at, config_shape, is_there as there, is_of_kind as of_kind, is_known as known};

use crate::kind::has_kind;
use crate::parts::{find_form, find_list, find_object, find_text, last_of};
use crate::tables::{
    AGGREGATE, CLASS, Form, INTERNAL, MemberRow, RATE, THRESHOLD, TRAFFIC, event_rows, top_rows,
};
use ids_config::{ConfigFault, ConfigPlace, asks, at, capped};
use ids_types::Mode;
use serde_json::{Map, Value};

/// The first fault of shape of a whole configuration.
#[tactic(auto, unfolding(crate::specs::Shape::config_shape))]
pub(crate) fn check_shape(value: &Value) -> Result<(), ConfigFault>
    ensures { result ≡ config_shape (view value.now) }
{
    let named = find_form(value);
    let form = named.unwrap_or(Form::First);
    at(ConfigPlace::Top, check_object(value, top_rows(form)))?;
    at(ConfigPlace::Top, asks(6, named.is_some()))?;
    check_classes(find_list(value, "classes"))?;
    at(ConfigPlace::Top, check_part(value, "rate", &RATE))?;
    at(ConfigPlace::Top, check_part(value, "traffic", &TRAFFIC))?;
    check_events(form, find_list(value, "events"))?;
    at(ConfigPlace::Top, check_part(value, "internal", &INTERNAL))
}

fn check_classes(values: &[Value]) -> Result<(), ConfigFault>
    ensures { result ≡ each class_shape 0 (map view values.now) }
{
    for (index, value) in values.iter().enumerate() {
        at(
            ConfigPlace::Class(capped(index)),
            check_object(value, &CLASS),
        )?;
    }
    Ok(())
}

fn check_events(form: Form, values: &[Value]) -> Result<(), ConfigFault>
    ensures { result ≡ each (event_shape_at form) 0 (map view values.now) }
{
    for (index, value) in values.iter().enumerate() {
        at(ConfigPlace::Event(capped(index)), check_event(form, value))?;
    }
    Ok(())
}

#[tactic(auto, unfolding(crate::specs::Shape::event_shape))]
fn check_event(form: Form, value: &Value) -> Result<(), u8>
    ensures { result ≡ event_shape form (view value.now) }
{
    check_object(value, event_rows(form))?;
    asks(
        7,
        find_text(value, "mode").is_none_or(|name| Mode::named(name.as_bytes()).is_some()),
    )?;
    check_aggregate(value)?;
    check_part(value, "threshold", &THRESHOLD)
}

/// The aggregation of an event, where there is one.
fn check_aggregate(event: &Value) -> Result<(), u8>
    ensures { result ≡ part_shape aggregate_shape (codes "aggregate") (view event.now) }
{
    let Some(value) = find_object(event, "aggregate") else {
        return Ok(());
    };
    check_object(value, &AGGREGATE)?;
    asks(
        8,
        find_text(value, "context").is_none_or(|name| last_of(name).is_some()),
    )
}

/// The object of this name, where there is one, with the members of the table.
fn check_part(value: &Value, name: &str, rows: &[MemberRow]) -> Result<(), u8>
    ensures { result ≡ part_shape (object_shape (map row_of rows.now)) name.now (view value.now) }
{
    match find_object(value, name) {
        Some(part) => check_object(part, rows),
        None => Ok(()),
    }
}

/// An object with the members of the table.
#[tactic(auto, using(crate::proofs::PrintedLemmas::object_members))]
fn check_object(value: &Value, rows: &[MemberRow]) -> Result<(), u8>
    ensures { result ≡ object_shape (map row_of rows.now) (view value.now) }
{
    match value.as_object() {
        Some(members) => check_members(value, members, rows),
        None => Err(2),
    }
}

fn check_members(value: &Value, members: &Map<String, Value>, rows: &[MemberRow]) -> Result<(), u8>
    ensures { result ≡ members_shape rows.now (view value.now) (keys members.now) }
{
    asks(3, are_named(members, rows))?;
    asks(4, are_there(value, rows))?;
    asks(5, are_of_kind(value, rows))
}

fn are_named(members: &Map<String, Value>, rows: &[MemberRow]) -> bool
    ensures { result ≡ list_all (among rows.now) (keys members.now) }
{
    members.keys().all(|key| is_among(key, rows))
}

fn are_there(value: &Value, rows: &[MemberRow]) -> bool
    ensures { result ≡ list_all (λ row. there (view value.now) (row_of row)) rows.now }
{
    rows.iter().all(|row| is_there(value, row))
}

fn are_of_kind(value: &Value, rows: &[MemberRow]) -> bool
    ensures { result ≡ list_all (λ row. of_kind (view value.now) (row_of row)) rows.now }
{
    rows.iter().all(|row| is_of_kind(value, row))
}

/// A row has the key as its name.
fn is_among(key: &str, rows: &[MemberRow]) -> bool
    ensures { result ≡ list_any (λ row. bytes_eq key.now row.name.now) rows.now }
{
    rows.iter().any(|row| key == row.name)
}

/// The object has the row's member, where it has to.
fn is_there(value: &Value, row: &MemberRow) -> bool
    ensures { result ≡ there (view value.now) (row_of row.now) }
{
    !row.required || value.get(row.name).is_some()
}

/// The row's member is of its kind, where it is there.
fn is_of_kind(value: &Value, row: &MemberRow) -> bool
    ensures { result ≡ of_kind (view value.now) (row_of row.now) }
{
    match value.get(row.name) {
        Some(member) => has_kind(row.kind, member),
        None => true,
    }
}
