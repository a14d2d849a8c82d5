//! Which parts may be shared, and which may go to another thread.

use crate::desk::Desk;
use crate::pass::Pass;
use crate::shared::Shared;

fn is_send_and_sync<T: Send + Sync>() {}

fn is_send<T: Send>() {}

/// What passes and the desk share may be shared by threads; each pass, and the desk, may go to a thread of its own.
/// Steps: none: a law of types. By: bounds `Send` and `Sync` of its body.
pub fn parts_may_be_shared() {
    is_send_and_sync::<Shared>();
    is_send::<Pass>();
    is_send::<Desk>();
}
