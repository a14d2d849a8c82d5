//! Disks that power may fail: what each call makes of the bytes, and what a crash leaves of them.
//!
//! Layer 9, traces and files. Over `ids_types` and `ids_outside`; `memory_store` keeps an event memory on such a disk.
//! Contracts see a `Disk` as its states before each call (`specs/Disks.antt`), and say what a crash at any of these
//! moments may leave. `MemoryDisk` tells its states, for tests; `HostDisk` is the trusted edge over a file of the host,
//! and tells its faults alone.
#![tactic(auto)]

mod contents;
mod disk;
mod host_disk;
mod memory_disk;
mod recording;

pub use disk::{Disk, DiskFailed, Span};
pub use host_disk::HostDisk;
pub use memory_disk::MemoryDisk;
