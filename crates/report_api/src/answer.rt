//! What the calls of a pass answer.

use buffer_classes::{Look, Looks};
use ids_types::Ticket;

/// What became of a report.
#[derive(Debug, Drop)]
pub enum Report {
    /// It stands in the history under this ticket, with all that it was given.
    Accepted(Ticket),
    /// It stands there without its context: each class that would have fitted answered a look with none free.
    WithoutContext(Ticket, Looks),
    /// No event buffer was free. The event is counted as lost.
    LostEvent(Look),
    /// No sensor reports this event: it is not configured, or an internal one.
    UnknownEvent,
    /// A report tells of at least one event.
    ZeroCount,
    /// The pass has made 2^40 calls.
    PassSpent,
}

/// What became of a control.
#[derive(Debug, Drop)]
pub enum Control {
    /// It stands in the history under this ticket.
    Accepted(Ticket),
    /// No event buffer was free. A lost control is not counted.
    LostEvent(Look),
    /// The event is not configured.
    UnknownEvent,
    /// The pass has made 2^40 calls.
    PassSpent,
}
