//! The internal events, which the manager itself reports.

ghost use Rattle.std.specs.Prelude.{◌≡◌};
ghost use Rattle.ids_types.specs.Internals.{is_reported, is_that};

use crate::names::EventIndex;

/// How many internal events there are.
pub const INTERNALS: usize = 3;

/// The internal events: those that the manager itself reports, each if it is configured (AUTOSAR
/// SWS Intrusion Detection System Manager for the first two; the third is this project's own).
#[derive(Clone, Copy, Debug, PartialEq, Eq)]
pub struct Internal {
    /// Reports found no free event buffer.
    pub lost_events: Option<EventIndex>,
    /// Reports found no free context data buffer.
    pub lost_contexts: Option<EventIndex>,
    /// The rate and traffic limits held events back.
    pub limited: Option<EventIndex>,
}

impl Internal {
    /// Whether sensors report the event of this index: it is one of so many, and none of these.
    pub fn is_reported(&self, events: u64, event: u64) -> bool
        ensures { result ≡ is_reported self.now events event }
    {
        event < events
            && !is_that(self.lost_events, event)
            && !is_that(self.lost_contexts, event)
            && !is_that(self.limited, event)
    }
}

fn is_that(event: Option<EventIndex>, index: u64) -> bool
    ensures { result ≡ is_that event index }
{
    event.is_some_and(|event| u64::from(event.0) == index)
}
