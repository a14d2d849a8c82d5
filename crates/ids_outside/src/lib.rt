//! The edge to files and output: a `Shelf` keeps files by name, a `Sink` takes bytes, and both
//! count their faults.
//!
//! Layer 1, values. Stands on `ids_types`; the runs of the program stand on it, and are generic
//! over both traits. Contracts see a shelf's files as bytes by name where it tells them, and its
//! faults as a count and the last one. `MemoryShelf` and `MemorySink` tell what they hold, and fail
//! at the calls that a test lists. `SteadyShelf` tells what it holds and never fails. `HostShelf`
//! and `HostSink` work over the host: no clause says which bytes the host gives or takes, when it
//! fails, nor that memory suffices.
#![tactic(auto)]

mod fault_log;
mod faults;
mod host_shelf;
mod memory_shelf;
mod memory_sink;
mod shelf;
mod steady_shelf;

pub use faults::{FaultKind, ReadFault, WriteFault};
pub use host_shelf::{HostShelf, HostSink, read_part};
pub use memory_shelf::MemoryShelf;
pub use memory_sink::MemorySink;
pub use shelf::{Shelf, Sink};
pub use steady_shelf::SteadyShelf;
