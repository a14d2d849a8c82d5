//! Which parts of a queue may be shared, and which may go to another thread, whatever it carries.

use crate::cargo::Cargo;
use crate::seat::{Queue, QueueSeat};
use crate::taker::Taker;

fn is_send_and_sync<T: Send + Sync>() {}

fn is_send<T: Send>() {}

/// A queue may be shared by threads; its taker and its callers may each go to a thread of its own.
/// Steps: none: a law of types. By: bounds `Send` and `Sync` of its body.
pub fn parts_may_be_shared<P: Cargo>() {
    is_send_and_sync::<Queue<P>>();
    is_send::<Taker<P>>();
    is_send::<QueueSeat<P>>();
}
