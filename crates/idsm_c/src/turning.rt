//! Turns.
ghost use Rattle.std.specs.Prelude.{◌≡◌};
ghost use Rattle.idsm_c.specs.Turning.{HandleTurns, sent_of};

use crate::handle::Handle;
use idsm_api::{Answer, TurnAnswer};
use std::alloc::Global;

/// What a turn tells. All is 0 where none was made.
#[repr(C)]
#[derive(Clone, Copy)]
pub struct Sent {
    pub turn: u64,
    pub bytes: u64,
    pub entries: u64,
    pub lost_events: u64,
    pub lost_contexts: u64,
    pub messages: u64,
    /// 1 if a journal may leave out its lines.
    pub quiet: u8,
}

// What a turn told.
fn sent_of(turned: &TurnAnswer) -> Sent
    ensures { result ≡ sent_of turned.now }
{
    let told = &turned.told;
    Sent {
        turn: told.turn,
        bytes: told.bytes,
        entries: told.entries,
        lost_events: told.lost_events,
        lost_contexts: told.lost_contexts,
        messages: u64::from(told.messages),
        quiet: u8::from(turned.quiet),
    }
}

/// Makes a turn, and writes its messages to the front of the buffer, one after the other.
/// Steps: as `idsm_api::Role::turn`. By: `HandleTurns`.
#[unsafe(no_mangle)]
pub extern "C" fn idsm_raw_main(
    alloc: Global,
    manager: &mut Handle,
    tick: u64,
    buffer: &mut [u8],
    sent: &mut Sent,
) -> u8
    ensures { HandleTurns tick manager.old.content buffer.old result sent.new manager.new.content buffer.new }
{
    match manager.take(alloc) {
        None => {
            *sent = sent_of(&TurnAnswer::refused(Answer::Unset));
            Answer::Unset.code()
        }
        Some(mut role) => {
            let turned = role.turn(tick, buffer);
            manager.put(role);
            *sent = sent_of(&turned);
            turned.answer.code()
        }
    }
}
