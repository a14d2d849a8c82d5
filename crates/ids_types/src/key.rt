use crate::names::EventIndex;

/// What the event memory keeps a record of: an event, with its id and the sensor that reports it.
#[derive(Clone, Copy, Debug, PartialEq, Eq)]
pub struct Key {
    pub event: EventIndex,
    pub id: u16,
    pub sensor: u8,
}
