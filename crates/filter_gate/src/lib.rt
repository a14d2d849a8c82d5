//! The filters that look at one event alone: reporting mode, block state, and forward every nth.
//!
//! Layer 5, filters and limits. Over `ids_types`, `ids_config` and `chain_spec`; the chain asks it about each item
//! and tells it of each control. Contracts see a `GateState` as the state and a row for each event
//! (`specs/Gate.antt`), and say of it for which moments it stands, the newest first (`specs/Stands.antt`). What it
//! answers is then what `chain_spec` says of the item after them. Memory is taken when it is made, and never again.
#![tactic(auto)]

mod gate_state;
mod row;
mod verdict;

pub use gate_state::GateState;
pub use verdict::Verdict;
