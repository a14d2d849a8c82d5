//! The event memory on a disk of two slots: the records of the last save are there again after power fails at any
//! moment.
//!
//! Layer 9, traces and files. Over `memory_disk`, `memory_image`, `text_spec` and `event_memory`; cmd_disk keeps and
//! recalls with it.
//! `specs/Slots.antt` says which records a disk keeps. `begin` takes all memory that saves need, before its first call
//! of the disk, and `save` says what a crash at any moment of it leaves.
#![tactic(auto)]

mod place;
mod slots;
mod store;
mod writes;

pub use memory_disk::{Disk, DiskFailed};
pub use store::{BeginFault, Records, SaveFault, Store};
