//! Context data buffers by size: a report gets a buffer of the smallest fitting class that has one free, or a
//! look for each fitting class that had none.
//!
//! Layer 2, shared rings. Over `permit_ring`: each class is a ring whose slots offer its buffers. Callers claim,
//! the one who takes their reports gives the buffers back. Contracts see a `CtxBuf` by its class, its claim, its
//! size and its bytes, and speak of each class by what its seats and its keeper remember.
//! Only tests show that a claim succeeds while a buffer is free.
#![tactic(auto)]

mod buffer;
mod class;
mod giver;
mod givers;
mod looks;
mod making;
mod seat;
mod sharing;

pub use buffer::CtxBuf;
pub use class::{Buffers, Class, ClassTerms, Classes};
pub use givers::Givers;
pub use looks::Looks;
pub use making::{MadeClasses, make};
pub use permit_ring::Look;
pub use seat::{Claim, ClaimSeat};
pub use sharing::parts_may_be_shared;
