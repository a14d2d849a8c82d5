//! What may go to another thread.

use crate::caller::Caller;
use crate::manager::Manager;

fn is_send<T: Send>() {}

/// A caller may go to a thread of its own, and so may a manager.
/// Steps: none: a law of types. By: bound `Send` of its body.
pub fn roles_may_be_given() {
    is_send::<Caller>();
    is_send::<Manager>();
}
