//! Reports and controls.
ghost use Rattle.std.specs.Prelude.{◌≡◌, [], None, Option, Some};
ghost use Rattle.config_tables.specs.Modes.{mode_at};
ghost use Rattle.idsm_api.specs.{asked_state, RoleSets};
ghost use Rattle.idsm_c.specs.Calls.{HandleReports, Handles, SetsMode, stamp_of};

use crate::handle::Handle;
use config_tables::mode_at;
use ids_types::{EventIndex, Stamp};
use idsm_api::Answer;
use std::alloc::Global;

// A report by what the handle has.
fn report(
    alloc: Global,
    caller: &mut Handle,
    event: u16,
    count: u16,
    stamp: Option<Stamp>,
    context: &[u8],
) -> u8
    ensures { HandleReports event count stamp context.now caller.old.content result caller.new.content }
{
    match caller.take(alloc) {
        None => Answer::Unset.code(),
        Some(mut role) => {
            let answer = role.report(EventIndex(event), count, stamp, context);
            caller.put(role);
            answer.code()
        }
    }
}

/// Reports a security event, seen once.
/// Steps: as `idsm_api::Role::report`. By: `HandleReports`.
#[unsafe(no_mangle)]
pub extern "C" fn idsm_raw_set_event(alloc: Global, caller: &mut Handle, event: u16) -> u8
    ensures { HandleReports event 1 None [] caller.old.content result caller.new.content }
{
    report(alloc, caller, event, 1, None, &[])
}

/// Reports a security event, seen `count` times.
/// Steps: as `idsm_api::Role::report`. By: `HandleReports`.
#[unsafe(no_mangle)]
pub extern "C" fn idsm_raw_set_event_count(
    alloc: Global,
    caller: &mut Handle,
    event: u16,
    count: u16,
) -> u8
    ensures { HandleReports event count None [] caller.old.content result caller.new.content }
{
    report(alloc, caller, event, count, None, &[])
}

/// Reports a security event, seen once, with its context data. No bytes are no context.
/// Steps: as `idsm_api::Role::report`. By: `HandleReports`.
#[unsafe(no_mangle)]
pub extern "C" fn idsm_raw_set_event_context(
    alloc: Global,
    caller: &mut Handle,
    event: u16,
    context: &[u8],
) -> u8
    ensures { HandleReports event 1 None context.now caller.old.content result caller.new.content }
{
    report(alloc, caller, event, 1, None, context)
}

/// Reports a security event, seen `count` times, with its context data. No bytes are no context.
/// Steps: as `idsm_api::Role::report`. By: `HandleReports`.
#[unsafe(no_mangle)]
pub extern "C" fn idsm_raw_set_event_count_context(
    alloc: Global,
    caller: &mut Handle,
    event: u16,
    count: u16,
    context: &[u8],
) -> u8
    ensures { HandleReports event count None context.now caller.old.content result caller.new.content }
{
    report(alloc, caller, event, count, None, context)
}

/// The same at a timestamp.
/// Steps: as `idsm_api::Role::report`. By: `HandleReports`.
#[unsafe(no_mangle)]
pub extern "C" fn idsm_raw_set_event_at(
    alloc: Global,
    caller: &mut Handle,
    event: u16,
    count: u16,
    stamp: u64,
    context: &[u8],
) -> u8
    ensures { HandleReports event count (Some (stamp_of stamp)) context.now caller.old.content result caller.new.content }
{
    report(alloc, caller, event, count, Some(Stamp(stamp)), context)
}

/// Tells the block state filter that the state changed.
/// Steps: as `idsm_api::Role::set_state`. By: `Handles`.
#[unsafe(no_mangle)]
pub extern "C" fn idsm_raw_set_state(alloc: Global, caller: &mut Handle, state: u8) -> u8
    ensures { Handles (RoleSets (asked_state state)) caller.old.content result caller.new.content }
{
    match caller.take(alloc) {
        None => Answer::Unset.code(),
        Some(mut role) => {
            let answer = role.set_state(state);
            caller.put(role);
            answer.code()
        }
    }
}

/// Sets the reporting mode of an event, of an internal one too.
/// Steps: as `idsm_api::Role::set_mode`. By: `SetsMode`.
#[unsafe(no_mangle)]
pub extern "C" fn idsm_raw_set_mode(alloc: Global, caller: &mut Handle, event: u16, mode: u8) -> u8
    ensures { SetsMode event (mode_at mode) caller.old.content result caller.new.content }
{
    let Some(mode) = mode_at(mode) else {
        return Answer::OutOfRange.code();
    };
    match caller.take(alloc) {
        None => Answer::Unset.code(),
        Some(mut role) => {
            let answer = role.set_mode(EventIndex(event), mode);
            caller.put(role);
            answer.code()
        }
    }
}
