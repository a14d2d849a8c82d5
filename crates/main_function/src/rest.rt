//! What a turn refuses, what rests record, and what closing tells.
ghost use Rattle.std.specs.Prelude.{◌≡◌, ◌+◌, ◌-◌, ◌≤◌, ◌^◌, ⊤, min, length, vec_len, vec_capacity, IsOk, OnErr, OnOk};
ghost use Rattle.report_api.specs.{IsDeskOf, IsPassOf, IsNextPass};
ghost use Rattle.main_function.specs.Holding.{IsHeldBy, IsReleasedBy};
ghost use Rattle.report_api.specs.declared.pass.Pass.{Pass as PassValue};
ghost use Rattle.main_function.specs.Rests.{HasRestRoom, KeepsRestRoom, calls_by, rests_told, no_rests, with_rest};

use ids_types::NoMemory;
use report_api::{Desk, Pass, Shared};
use std::alloc::Global;

/// Why a turn is refused.
#[derive(Clone, Copy, Debug, PartialEq, Eq)]
pub enum TurnFault {
    /// The tick is below that of the last turn.
    TickBack = 1,
    /// The tick is above 2^62.
    TickTooLarge = 2,
}

/// What a manager recorded at its rests, times at which no call was under way, in their order.
#[derive(Debug, Drop)]
pub struct RestLog {
    /// How many turns had been made: a number for each rest.
    pub turns: Vec<u64>,
    /// How many calls each caller had made: a number for each caller, rest by rest.
    pub calls: Vec<u64>,
}

impl RestLog {
    /// No rest yet. It takes no memory.
    pub(crate) fn new(alloc: Global) -> RestLog
        ensures { rests_told result ≡ no_rests }
    {
        RestLog {
            turns: Vec::new(alloc),
            calls: Vec::new(alloc),
        }
    }

    /// Makes room for so many rests of so many passes.
    pub(crate) fn reserve(&mut self, rests: u64, passes: u64) -> Result<(), NoMemory>
        ensures same { rests_told self.new ≡ rests_told self.old }
        ensures room { OnOk result (HasRestRoom rests passes self.new) }
    {
        let calls = rests.checked_mul(passes).ok_or(NoMemory)?;
        make_room(&mut self.turns, rests as usize)?;
        make_room(&mut self.calls, calls as usize)
    }

    /// Adds a rest of these passes after so many turns. Where there is room for it, it takes no memory.
    pub(crate) fn add<P: HasPass>(&mut self, turns: u64, passes: &[P]) -> Result<(), NoMemory>
        ensures ok { OnOk result (rests_told self.new ≡ with_rest turns (calls_by P.its passes.now) (rests_told self.old)) }
        ensures err { OnErr result (rests_told self.new ≡ rests_told self.old) }
        ensures room { HasRestRoom 1 (length passes.now) self.old → IsOk result × KeepsRestRoom self.old self.new }
    {
        make_room(&mut self.turns, 1)?;
        make_room(&mut self.calls, passes.len())?;
        self.turns.push_reserved(turns);
        for has in passes {
            self.calls.push_reserved(has.pass().calls());
        }
        Ok(())
    }
}

// Makes room for so many numbers more, where there is none.
fn make_room(list: &mut Vec<u64>, more: usize) -> Result<(), NoMemory>
    ensures items { list.new.items ≡ list.old.items }
    ensures len { vec_len list.new ≡ vec_len list.old }
    ensures ok { OnOk result (vec_len list.new + more ≤ vec_capacity list.new) }
    ensures room { vec_len list.old + more ≤ vec_capacity list.old → IsOk result × (vec_capacity list.new ≡ vec_capacity list.old) }
{
    if list.capacity() - list.len() < more {
        list.reserve(more)?;
    }
    Ok(())
}

/// What all turns together took and lost.
#[derive(Clone, Copy, Debug, PartialEq, Eq)]
pub struct Totals {
    pub entries: u64,
    pub lost_events: u64,
    pub lost_contexts: u64,
}

impl Totals {
    /// With what one turn more took and lost.
    pub(crate) fn with(&self, entries: u64, lost_events: u64, lost_contexts: u64) -> Totals
        requires entries { self.now.entries + entries ≤ 2 ^ 45 }
        requires lost_events { self.now.lost_events + lost_events ≤ 2 ^ 45 }
        requires lost_contexts { self.now.lost_contexts + lost_contexts ≤ 2 ^ 45 }
        ensures entries { result.entries ≡ self.now.entries + entries }
        ensures lost_events { result.lost_events ≡ self.now.lost_events + lost_events }
        ensures lost_contexts { result.lost_contexts ≡ self.now.lost_contexts + lost_contexts }
    {
        Totals {
            entries: self.entries + entries,
            lost_events: self.lost_events + lost_events,
            lost_contexts: self.lost_contexts + lost_contexts,
        }
    }
}

/// What all turns together sent, and what the limits held back in them, each counted up to 2^64 - 1.
#[derive(Clone, Copy, Debug)]
pub(crate) struct Sent {
    pub(crate) messages: u64,
    pub(crate) limited: u64,
}

impl Sent {
    /// With what was sent and held back in one turn more.
    pub(crate) fn with_turn(&self, messages: u32, limited: u64) -> Sent
        ensures messages { result.messages ≡ min (self.now.messages + messages) (2 ^ 64 - 1) }
        ensures limited { result.limited ≡ min (self.now.limited + limited) (2 ^ 64 - 1) }
    {
        Sent {
            messages: self.messages.saturating_add(u64::from(messages)),
            limited: self.limited.saturating_add(limited),
        }
    }
}

/// A pass, or what is kept together with one.
pub trait HasPass {
    /// The pass.
    ghost its: { Self → PassValue };

    /// What is kept together with it stays.
    ghost stays: { Self → Self → Type 0 };

    ghost stays_on: { (x y z : Self) → stays x y → stays y z → stays x z };

    /// The pass.
    /// Steps: `Pass`: constant.
    fn pass(&self) -> &Pass
        ensures { result.now ≡ its self.now };

    /// Has the desk hold the pass.
    /// Steps: as `Desk::hold`.
    fn hold(&mut self, desk: &mut Desk, shared: &Shared)
        requires mine { IsDeskOf shared.now desk.old }
        requires pass { IsPassOf shared.now (its self.old) }
        ensures mine { IsDeskOf shared.now desk.new }
        ensures held { IsHeldBy shared.now (its self.old) (its self.new) desk.old desk.new }
        ensures stays { stays self.old self.new };

    /// Has the desk release the pass.
    /// Steps: as `Desk::release`.
    fn release(&mut self, desk: &mut Desk, shared: &Shared)
        requires mine { IsDeskOf shared.now desk.old }
        requires held { IsNextPass shared.now desk.old (its self.old) }
        ensures mine { IsDeskOf shared.now desk.new }
        ensures released { IsReleasedBy shared.now (its self.new) desk.old desk.new }
        ensures stays { stays self.old self.new };
}

impl HasPass for Pass {
    ghost its = { λ pass. pass };

    ghost stays = { λ _ _. ⊤ };

    ghost stays_on = { λ _ _ _ _ _. tt };

    fn pass(&self) -> &Pass {
        self
    }

    fn hold(&mut self, desk: &mut Desk, shared: &Shared) {
        desk.hold(shared, self);
    }

    fn release(&mut self, desk: &mut Desk, shared: &Shared) {
        desk.release(shared, self);
    }
}
