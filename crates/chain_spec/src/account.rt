//! The account of an event, as plain data.

use crate::fate::STEPS;

/// What became of the items of an event.
#[derive(Clone, Copy)]
pub struct Account {
    /// How many items came.
    pub came: u64,
    /// How many windows gave one when they closed.
    pub closed: u64,
    /// How many of both ended at each step, by its place.
    pub ended: [u64; STEPS],
    /// How many are in the open window.
    pub waiting: u64,
    /// How many are stored.
    pub stored: u64,
}
