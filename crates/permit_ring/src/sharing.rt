//! Which parts of a ring may be shared, and which may go to another thread, whatever it carries.

use crate::freight::Freight;
use crate::keeper::Keeper;
use crate::ring::Ring;
use crate::seat::Seat;

fn is_send_and_sync<T: Send + Sync>() {}

fn is_send<T: Send>() {}

/// A ring may be shared by threads; its keeper and its seats may each go to a thread of its own.
/// Steps: none: a law of types. By: bounds `Send` and `Sync` of its body.
pub fn parts_may_be_shared<F: Freight>() {
    is_send_and_sync::<Ring<F>>();
    is_send::<Keeper<F>>();
    is_send::<Seat<F>>();
}
