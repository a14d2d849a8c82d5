use crate::names::{EventIndex, Stamp};

/// A qualified event: what passed all filters, over a holder of context bytes `B`.
#[derive(Debug, Drop)]
pub struct Qualified<B> {
    pub event: EventIndex,
    /// How often the event was seen, saturating at 65,535.
    pub count: u16,
    pub stamp: Option<Stamp>,
    pub context: Option<B>,
}
