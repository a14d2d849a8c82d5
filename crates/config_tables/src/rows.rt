//! The rows of tables: numbers that nobody has judged yet.

/// The number of an internal event that there is not.
pub const NONE: u32 = 4_294_967_295;

/// A window of ticks and the number that counts within it: the events of a rate, the bytes of a traffic limit, or the
/// count of a threshold.
#[repr(C)]
#[derive(Clone, Copy, Debug)]
pub struct WindowRow {
    /// In ticks.
    pub interval: u64,
    pub number: u32,
    /// 0 if there is none; the other fields are then not looked at.
    pub is_set: u8,
}

/// How the reports of an event are joined.
#[repr(C)]
#[derive(Clone, Copy, Debug)]
pub struct AggregateRow {
    /// In ticks.
    pub interval: u64,
    /// Which context of a window is kept: 0 the first, 1 the last.
    pub context: u8,
    /// 0 if there is none; the other fields are then not looked at.
    pub is_set: u8,
}

/// A class of context data buffers.
#[repr(C)]
#[derive(Clone, Copy, Debug)]
pub struct ClassRow {
    /// In bytes.
    pub size: u32,
    pub number: u32,
}

/// A security event.
#[repr(C)]
#[derive(Clone, Copy, Debug)]
pub struct EventRow {
    pub aggregate: AggregateRow,
    pub threshold: WindowRow,
    pub id: u32,
    pub nth: u32,
    pub sensor: u16,
    pub version: u16,
    /// 0 to 4, in the order of docs/CONFIGURATION.md.
    pub mode: u8,
    /// 0 or 1.
    pub send: u8,
    /// 0 or 1.
    pub store: u8,
    /// How many blocking states there are.
    pub states: u8,
    /// The blocking states, and what stands behind them.
    pub block: [u8; 16],
}

/// All but the classes and the events. An internal event is its index, or `NONE`.
#[repr(C)]
#[derive(Clone, Copy, Debug)]
pub struct TopRow {
    pub rate: WindowRow,
    pub traffic: WindowRow,
    pub profile: u32,
    pub instance: u32,
    pub callers: u32,
    pub ring: u32,
    pub memory: u32,
    pub state: u32,
    pub lost_events: u32,
    pub lost_contexts: u32,
    pub limited: u32,
}
