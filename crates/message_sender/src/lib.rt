//! From an item to the bytes that are sent.
//!
//! Layer 7, the chain. Over `ids_types`, `ids_config`, `ids_frame` and `chain_spec`; the chain hands it each item that
//! the limits let pass, in the order in which they come.
//! Contracts see a `Sender` and `Sources` as plain data (`specs/Sender.antt`, `specs/Sources.antt`), and a `Report` as
//! chain_spec's item. Memory is taken when `Sources` are made, and never again.
#![tactic(auto)]

mod report;
mod sender;
mod sources;

pub use report::Report;
pub use sender::Sender;
pub use sources::{Source, Sources};
