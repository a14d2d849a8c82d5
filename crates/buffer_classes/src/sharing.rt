//! Which parts of the classes may be shared, and which may go to another thread.

use crate::buffer::CtxBuf;
use crate::class::Classes;
use crate::givers::Givers;
use crate::seat::ClaimSeat;

fn is_send_and_sync<T: Send + Sync>() {}

fn is_send<T: Send>() {}

/// The classes may be shared by threads; a claimant, the one who gives buffers back, and each buffer may go to a
/// thread of its own.
/// Steps: none: a law of types. By: bounds `Send` and `Sync` of its body.
pub fn parts_may_be_shared() {
    is_send_and_sync::<Classes>();
    is_send::<Givers>();
    is_send::<ClaimSeat>();
    is_send::<CtxBuf>();
}
