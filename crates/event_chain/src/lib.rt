//! The filter chain: all filters, the event memory and the sender, one after the other.
//!
//! Layer 7, the chain. Over `ids_types`, `ids_config`, `chain_spec`, `filter_chain`, the filters, `limits`, `event_memory`,
//! `internal_events` and `message_sender`; the main function and the runs make one turn after another with it.
//! Contracts are those of the trait `Chain`: an `EventChain` stands for a configuration and turns
//! and each of its parts for the endings so far (`specs/Standing.antt`).
//! It never holds a history, and takes memory only when it is made.
#![tactic(auto)]

mod ending;
mod event_chain;
mod laws;
mod rest;
mod way;
mod witness;

pub use ending::Ending;
pub use event_chain::EventChain;
pub use laws::a_chain_keeps_what_its_open_windows_do;
pub use witness::{Unwatched, Witness};
