//! The event memory: a record for each of the last few events that were stored.
//!
//! Layer 6, the event memory. Over `ids_types`, `chain_spec` and `text_spec`; the chain stores what it
//! qualifies, and the runs print the memory after the last turn.
//! Contracts see a `Memory` as its records beside how many there may be (`specs/Held.antt`), and say that
//! they are the newest of all items that were stored (`Stands`).
//! All memory is taken by `make`, and by `print` for its text.
#![tactic(auto)]

mod memory;
mod printing;
mod row;
mod slot;

pub use memory::Memory;
pub use row::Row;
