//! The event memory, and numbers of the manager.
ghost use Rattle.std.specs.Prelude.{◌≡◌, None};
ghost use Rattle.idsm_api.specs.Handled.{RoleLate, RoleMost, RoleRows};
ghost use Rattle.idsm_c.specs.Reading.{HandleRow, HandleTells, row_of};

use crate::handle::Handle;
use idsm_api::{Answer, RowTold};
use std::alloc::Global;

/// A record of the event memory, without its context data. All is 0 where there is none.
#[repr(C)]
#[derive(Clone, Copy)]
pub struct Row {
    pub first: u64,
    pub last: u64,
    pub stamp: u64,
    pub bytes: u64,
    pub event: u16,
    pub id: u16,
    pub occurrences: u16,
    pub sensor: u8,
    pub has_stamp: u8,
}

// No record.
fn no_row() -> Row
    ensures { result ≡ row_of None }
{
    Row {
        first: 0,
        last: 0,
        stamp: 0,
        bytes: 0,
        event: 0,
        id: 0,
        occurrences: 0,
        sensor: 0,
        has_stamp: 0,
    }
}

// What a record told.
fn row_of(row: Option<RowTold>) -> Row
    ensures { result ≡ row_of row }
{
    let Some(row) = row else {
        return no_row();
    };
    Row {
        first: row.first,
        last: row.last,
        stamp: row.stamp.map_or(0, |stamp| stamp.0),
        bytes: row.bytes,
        event: row.key.event.0,
        id: row.key.id,
        occurrences: row.occurrences,
        sensor: row.key.sensor,
        has_stamp: u8::from(row.stamp.is_some()),
    }
}

/// How many bytes a buffer for the messages of a turn has at least.
/// By: `HandleTells`; no loop.
#[unsafe(no_mangle)]
pub extern "C" fn idsm_raw_buffer_size(alloc: Global, manager: &mut Handle, bytes: &mut u64) -> u8
    ensures { HandleTells RoleMost manager.old.content result bytes.new manager.new.content }
{
    *bytes = 0;
    match manager.take(alloc) {
        None => Answer::Unset.code(),
        Some(role) => {
            let told = role.most_bytes();
            manager.put(role);
            *bytes = told.number;
            told.answer.code()
        }
    }
}

/// How many records the event memory has.
/// By: `HandleTells`.
#[unsafe(no_mangle)]
pub extern "C" fn idsm_raw_rows(alloc: Global, manager: &mut Handle, rows: &mut u64) -> u8
    ensures { HandleTells RoleRows manager.old.content result rows.new manager.new.content }
{
    *rows = 0;
    match manager.take(alloc) {
        None => Answer::Unset.code(),
        Some(role) => {
            let told = role.rows();
            manager.put(role);
            *rows = told.number;
            told.answer.code()
        }
    }
}

/// How many buffers of a class wait for a free position.
/// Steps: as `idsm_api::Role::late`. By: `HandleTells`.
#[unsafe(no_mangle)]
pub extern "C" fn idsm_raw_late(
    alloc: Global,
    manager: &mut Handle,
    class: u8,
    late: &mut u64,
) -> u8
    ensures { HandleTells (λ role. RoleLate role class) manager.old.content result late.new manager.new.content }
{
    *late = 0;
    match manager.take(alloc) {
        None => Answer::Unset.code(),
        Some(role) => {
            let told = role.late(class);
            manager.put(role);
            *late = told.number;
            told.answer.code()
        }
    }
}

/// A record of the event memory, from the one stored longest ago on, and its context data.
/// Steps: as `idsm_api::Role::row`. By: `HandleRow`.
#[unsafe(no_mangle)]
pub extern "C" fn idsm_raw_row_at(
    alloc: Global,
    manager: &mut Handle,
    i: u16,
    context: &mut [u8],
    row: &mut Row,
) -> u8
    ensures { HandleRow i manager.old.content context.old result row.new manager.new.content context.new }
{
    *row = no_row();
    match manager.take(alloc) {
        None => Answer::Unset.code(),
        Some(role) => {
            let told = role.row(i, context);
            manager.put(role);
            *row = row_of(told.row);
            told.answer.code()
        }
    }
}
