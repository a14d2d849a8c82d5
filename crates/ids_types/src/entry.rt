use crate::mode::Mode;
use crate::names::{EventIndex, Stamp};
use crate::numbers::Numbers;

/// The context data of a report, over a holder of bytes `B`.
#[derive(Debug, Drop)]
pub enum Carried<B> {
    /// The report came without context.
    Absent,
    /// The context was kept in a buffer of this class, got by the class's claim of this number.
    Kept { class: u8, claim: u64, parcel: B },
    /// No fitting buffer was free. One claimed number for each class that would have fitted, the
    /// smallest class first: how many buffers of the class had been claimed when it was asked.
    Missing(Numbers),
}

/// What a caller asked for.
#[derive(Debug, Drop)]
pub enum Act<B> {
    /// A report of a security event, seen `count` times.
    Report {
        event: EventIndex,
        count: u16,
        stamp: Option<Stamp>,
        context: Carried<B>,
    },
    /// A change of the state that the block state filter asks.
    State(u8),
    /// A setting of an event's reporting mode.
    SetMode {
        event: EventIndex,
        mode: Mode,
    },
}

/// An accepted report or control, with its caller and the number of the caller's call, from 0.
#[derive(Debug, Drop)]
pub struct Entry<B> {
    pub caller: u8,
    pub call: u64,
    pub act: Act<B>,
}

/// What a turn of the main function begins with: its tick, and what was lost since the turn before.
#[derive(Clone, Copy, Debug, PartialEq, Eq)]
pub struct TurnHead {
    pub tick: u64,
    /// Reports that found no event buffer.
    pub lost_events: u64,
    /// Reports that found no context data buffer.
    pub lost_contexts: u64,
    /// Events that the rate and traffic limits held back in the turn before.
    pub limited: u64,
}
