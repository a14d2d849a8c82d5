//! The parts of a configuration, as its reader finds them: numbers that nobody has judged yet.

use ids_types::Mode;
use std::marker::Model;

/// A window of ticks, and the number that counts within it: the events of a rate, the bytes of a
/// traffic limit, or the count of a threshold.
#[derive(Clone, Copy, Debug, PartialEq, Eq)]
pub struct Window {
    /// In ticks.
    pub interval: u64,
    pub number: u64,
}

/// How the reports of an event are joined (AUTOSAR SWS Intrusion Detection System Manager, event
/// aggregation).
#[derive(Clone, Copy, Debug, PartialEq, Eq)]
pub struct Aggregate {
    /// In ticks.
    pub interval: u64,
    /// The context kept is the last one of a window, else the first.
    pub last: bool,
}

/// The parts of a security event.
#[derive(Debug, Drop)]
pub struct EventParts {
    pub id: u64,
    pub sensor: u64,
    /// The version of its context data, 0 where the profile is 1.
    pub version: u64,
    pub mode: Mode,
    /// Qualified events are sent to the reporter.
    pub send: bool,
    /// Qualified events enter the event memory.
    pub store: bool,
    /// The states under which reports are dropped.
    pub block: Vec<u64>,
    /// Every nth report goes on.
    pub nth: u64,
    pub aggregate: Option<Aggregate>,
    pub threshold: Option<Window>,
}

impl Model for EventParts {
    ghost use Rattle.ids_config.specs.Parts.{Event};

    ghost Value = { Event };

    ghost use Rattle.ids_config.specs.EventView.{event_of};

    ghost view = { event_of };
}

/// The parts of a configuration.
#[derive(Debug, Drop)]
pub struct ConfigParts {
    /// The version of the format of messages.
    pub profile: u64,
    pub instance: u64,
    /// How many callers report.
    pub callers: u64,
    /// How many event buffers there are.
    pub ring: u64,
    /// How many records the event memory has.
    pub memory: u64,
    /// The state at the beginning.
    pub state: u64,
    /// The classes of context data buffers: how many bytes a buffer holds, and how many there are.
    pub classes: Vec<(u64, u64)>,
    /// The number is of events.
    pub rate: Option<Window>,
    /// The number is of bytes.
    pub traffic: Option<Window>,
    pub events: Vec<EventParts>,
    /// The index of the event that reports lost events.
    pub lost_events: Option<u64>,
    /// The index of the event that reports lost contexts.
    pub lost_contexts: Option<u64>,
    /// The index of the event that reports what the limits held back.
    pub limited: Option<u64>,
}

impl Model for ConfigParts {
    ghost use Rattle.ids_config.specs.Parts.{Parts};

    ghost Value = { Parts };

    ghost use Rattle.ids_config.specs.PartsView.{parts_of};

    ghost view = { parts_of };
}
