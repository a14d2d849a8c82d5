/// The place of a security event in the configuration's list, from 0.
#[derive(Clone, Copy, Debug, PartialEq, Eq)]
pub struct EventIndex(pub u16);

/// A timestamp as the IDS protocol sends it, kept as one number of 64 bits: from the top a bit of
/// source, a reserved bit, 30 bits of nanoseconds and 32 bits of seconds. Every pattern is a stamp.
#[derive(Clone, Copy, Debug, PartialEq, Eq)]
pub struct Stamp(pub u64);

/// The place of an accepted report or control in the whole history, from 0.
#[derive(Clone, Copy, Debug, PartialEq, Eq)]
pub struct Ticket(pub u64);
