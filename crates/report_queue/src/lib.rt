//! Items from many callers to one taker, in the order of their tickets; each names its caller and its call.
//!
//! Layer 2, shared rings. Over `permit_ring`; the crate above says what an item carries (`Cargo`).
//! Contracts see a caller by its calls and what became of them, and the taker by the items that it
//! took, the fronts that it gave back to and the losses that it swept (`specs/Views.antt`).
//! Only tests show that a claim succeeds while a position is free, and that threads run together.
#![tactic(auto)]

mod cargo;
mod laws;
mod making;
mod seat;
mod sharing;
mod taker;

pub use cargo::{Cargo, Item, Items};
pub use laws::giving_back_keeps_what_was_taken;
pub use making::{MadeQueue, make};
pub use permit_ring::{Look, Outcome, Unready};
pub use seat::{Queue, QueueSeat};
pub use sharing::parts_may_be_shared;
pub use taker::Taker;
