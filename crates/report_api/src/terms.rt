//! What is fixed of a configuration for the calls that report.
ghost use Rattle.std.specs.Prelude.{◌≡◌};
ghost use Rattle.report_api.specs.Terms.{has_event, is_sensor};

use ids_types::{EventIndex, Internal};

/// How many events there are, which of them are internal, and the sizes of the classes of context data buffers.
#[derive(Clone, Copy, Debug, PartialEq, Eq)]
pub struct ReportTerms {
    pub events: u16,
    pub internal: Internal,
    /// How many classes there are; their sizes are the first of `sizes`.
    pub classes: u8,
    pub sizes: [u16; 4],
}

impl ReportTerms {
    /// Whether sensors report the event: it is configured, and none of the internal ones.
    pub fn is_sensor(&self, event: EventIndex) -> bool
        ensures { result ≡ is_sensor self.now event.0 }
    {
        self.internal
            .is_reported(u64::from(self.events), u64::from(event.0))
    }

    /// Whether the event is configured.
    pub fn has_event(&self, event: EventIndex) -> bool
        ensures { result ≡ has_event self.now event.0 }
    {
        event.0 < self.events
    }
}
