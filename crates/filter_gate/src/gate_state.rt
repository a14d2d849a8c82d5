//! The gate of all events, and the block state that they share.

ghost use Rattle.std.specs.Prelude.{◌≡◌, ◌<◌, ℕ, List, [], ◌∷◌, length, map, Some, IfOk};
ghost use Rattle.std.specs.List.{All};
ghost use Rattle.ids_config.specs.Parts.{Parts};
ghost use Rattle.chain_spec.specs.{mode_at, state_at, Item, Moment, comes, state_is, mode_is};
ghost use Rattle.chain_spec.specs.Way.{ending_at};
ghost use Rattle.filter_gate.specs.Gate.{fresh_row, row_at, verdict_on, gate_asked, gate_with_mode};
ghost use Rattle.filter_gate.specs.Stands.{Stands, ending_by, IsHeldEarly};

use crate::row::Row;
use crate::verdict::Verdict;
use ids_config::{Config, EventParts};
use ids_types::{EventIndex, Mode, NoMemory};
use std::alloc::Global;
use std::marker::Model;

/// The filters of reporting mode, block state, and forward every nth, for each event.
#[derive(Debug, Drop)]
pub struct GateState {
    state: u8,
    rows: Vec<Row>,
}

impl Model for GateState {
    ghost use Rattle.filter_gate.specs.Gate.{Gate};

    ghost Value = { Gate };

    ghost use Rattle.filter_gate.specs.GateView.{gate_of};

    ghost view = { gate_of };
}

impl GateState {
    /// The gate of a configuration, before anything came.
    /// Steps: the events, at most 256, each with its block states, at most 16. Memory: made once. By: read off; no
    /// other call of it answers NoMemory.
    pub fn make(alloc: Global, config: &Config) -> Result<GateState, NoMemory>
        ensures { IfOk result (Stands config.now []) }
    {
        let parts = config.parts();
        Ok(GateState {
            state: parts.state as u8,
            rows: fresh_rows(alloc, &parts.events)?,
        })
    }

    /// The verdict on an item of the event.
    /// Steps: the event's block states, at most 16. By: read off; answer `Verdict`, no NoMemory.
    #[inline(always)]
    pub fn gate(&mut self, event: EventIndex) -> Verdict
        requires { event.0 < length self.old.rows }
        // If the item is held, its way ends there. Else it goes on to the windows, or to the sending.
        ensures ending { (config : Parts) (before : List Moment) (item : Item)
            → item.event ≡ event.0 → Stands config before self.old
            → ending_at config before (comes item) ≡ Some (ending_by config before result item) }
        ensures held { IsHeldEarly result }
        ensures stands { (config : Parts) (before : List Moment) (item : Item)
            → item.event ≡ event.0 → Stands config before self.old
            → Stands config (comes item ∷ before) self.new }
        ensures events { length self.new.rows ≡ length self.old.rows }
    {
        self.ask(event)
    }

    /// The event's reporting mode: the one that was set last, or else the configured one.
    pub fn mode(&self, event: EventIndex) -> Mode
        requires { event.0 < length self.now.rows }
        ensures { (config : Parts) (before : List Moment)
            → Stands config before self.now → result ≡ mode_at config event.0 before }
    {
        self.rows[event.0 as usize].mode()
    }

    /// The state: the one that was changed to last, or else the configured one.
    pub fn state(&self) -> u8
        ensures { (config : Parts) (before : List Moment)
            → Stands config before self.now → result ≡ state_at config before }
    {
        self.state
    }

    /// The state becomes this one.
    pub fn set_state(&mut self, state: u8)
        ensures stands { (config : Parts) (before : List Moment)
            → Stands config before self.old → Stands config (state_is state ∷ before) self.new }
        ensures events { length self.new.rows ≡ length self.old.rows }
    {
        self.state = state;
    }

    /// The event's reporting mode becomes this one.
    pub fn set_mode(&mut self, event: EventIndex, mode: Mode)
        requires { event.0 < length self.old.rows }
        ensures stands { (config : Parts) (before : List Moment)
            → Stands config before self.old → Stands config (mode_is event.0 mode ∷ before) self.new }
        ensures events { length self.new.rows ≡ length self.old.rows }
    {
        self.put_mode(event, mode);
    }

    #[inline(always)]
    fn ask(&mut self, event: EventIndex) -> Verdict
        requires { event.0 < length self.old.rows }
        ensures verdict { result ≡ verdict_on self.old.state (row_at self.old event.0) }
        ensures gate { self.new ≡ gate_asked event.0 self.old }
    {
        self.rows[event.0 as usize].ask(u64::from(self.state))
    }

    fn put_mode(&mut self, event: EventIndex, mode: Mode)
        requires { event.0 < length self.old.rows }
        ensures { self.new ≡ gate_with_mode event.0 mode self.old }
    {
        self.rows[event.0 as usize].set_mode(mode);
    }
}

fn fresh_rows(alloc: Global, events: &[EventParts]) -> Result<Vec<Row>, NoMemory>
    requires { All (λ event. 0 < event.nth) events.now }
    ensures { IfOk result (λ rows. rows.items ≡ map fresh_row events.now) }
{
    let mut rows = Vec::with_capacity(alloc, events.len())?;
    for event in events {
        rows.push(Row::fresh(alloc, event)?)?;
    }
    Ok(rows)
}
