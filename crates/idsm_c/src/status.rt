//! What a manager shows while it runs, and the lines of its last turn.
ghost use Rattle.std.specs.Prelude.{◌≡◌, Some};
ghost use Rattle.idsm_api.specs.Handled.{RoleCalls};
ghost use Rattle.config_tables.specs.Modes.{mode_at};
ghost use Rattle.idsm_c.specs.Reading.{HandleTells};
ghost use Rattle.idsm_c.specs.Status.{HandleJournal, HandleMode, HandleStatus, HandleTotals, no_status, totals_of};

use crate::handle::Handle;
use ids_types::{EventIndex, Mode};
use idsm_api::{Answer, Status};
use std::alloc::Global;

/// The totals of all turns.
#[repr(C)]
#[derive(Clone, Copy)]
pub struct Totals {
    pub entries: u64,
    pub lost_events: u64,
    pub lost_contexts: u64,
    pub messages: u64,
}

// The totals in a status.
fn totals_of(status: Status) -> Totals
    ensures { result ≡ totals_of status }
{
    Totals {
        entries: status.entries,
        lost_events: status.lost_events,
        lost_contexts: status.lost_contexts,
        messages: status.messages,
    }
}

// Nothing.
fn no_status() -> Status
    ensures { result ≡ no_status }
{
    Status {
        turns: 0,
        tick: 0,
        entries: 0,
        lost_events: 0,
        lost_contexts: 0,
        messages: 0,
        limited: 0,
        records: 0,
        state: 0,
    }
}

// The number of a mode.
fn number_of(mode: Mode) -> u8
    ensures { mode_at result ≡ Some mode }
{
    match mode {
        Mode::Off => 0,
        Mode::Brief => 1,
        Mode::Detailed => 2,
        Mode::BriefBypassing => 3,
        Mode::DetailedBypassing => 4,
    }
}

/// What all turns of a manager so far did: all 0 if it is refused.
/// By: `HandleStatus`.
#[unsafe(no_mangle)]
pub extern "C" fn idsm_raw_status(alloc: Global, manager: &mut Handle, status: &mut Status) -> u8
    ensures { HandleStatus manager.old.content result status.new manager.new.content }
{
    *status = no_status();
    let Some(role) = manager.take(alloc) else {
        return Answer::Unset.code();
    };
    let told = role.status();
    manager.put(role);
    match told {
        Ok(told) => {
            *status = told;
            Answer::Done.code()
        }
        Err(refusal) => refusal.code(),
    }
}

/// The totals of all turns of a manager so far: all 0 if it is refused.
/// By: `HandleTotals`.
#[unsafe(no_mangle)]
pub extern "C" fn idsm_raw_totals(alloc: Global, manager: &mut Handle, totals: &mut Totals) -> u8
    ensures { HandleTotals manager.old.content result totals.new manager.new.content }
{
    let mut status = no_status();
    let code = idsm_raw_status(alloc, manager, &mut status);
    *totals = totals_of(status);
    code
}

/// The number of an event's reporting mode, as the last turn left it.
/// By: `HandleMode`.
#[unsafe(no_mangle)]
pub extern "C" fn idsm_raw_mode(
    alloc: Global,
    manager: &mut Handle,
    event: u16,
    mode: &mut u8,
) -> u8
    ensures { HandleMode event manager.old.content result mode.new manager.new.content }
{
    *mode = 0;
    let Some(role) = manager.take(alloc) else {
        return Answer::Unset.code();
    };
    let told = role.mode(EventIndex(event));
    manager.put(role);
    match told {
        Ok(told) => {
            *mode = number_of(told);
            Answer::Done.code()
        }
        Err(refusal) => refusal.code(),
    }
}

/// How many calls a caller made.
/// By: `HandleTells`.
#[unsafe(no_mangle)]
pub extern "C" fn idsm_raw_calls(alloc: Global, caller: &mut Handle, calls: &mut u64) -> u8
    ensures { HandleTells RoleCalls caller.old.content result calls.new caller.new.content }
{
    *calls = 0;
    match caller.take(alloc) {
        None => Answer::Unset.code(),
        Some(role) => {
            let told = role.calls();
            caller.put(role);
            *calls = told.number;
            told.answer.code()
        }
    }
}

/// As many bytes of the lines of the last turn as fit, from byte `at` on, go to the front of the buffer.
/// Steps: the bytes that are written. By: `HandleJournal`.
#[unsafe(no_mangle)]
pub extern "C" fn idsm_raw_journal(
    alloc: Global,
    manager: &mut Handle,
    at: u64,
    buffer: &mut [u8],
    bytes: &mut u64,
) -> u8
    ensures { HandleJournal at manager.old.content buffer.old result bytes.new manager.new.content buffer.new }
{
    *bytes = 0;
    match manager.take(alloc) {
        None => Answer::Unset.code(),
        Some(role) => {
            let told = role.journal(at, buffer);
            manager.put(role);
            *bytes = told.number;
            told.answer.code()
        }
    }
}
