//! The threshold filter: an item passes once the counts of its window reach the configured number.
//!
//! Layer 5, filters and limits. Over `ids_types`, `ids_config` and `chain_spec`; the chain asks it of each
//! item after aggregation.
//! Contracts see `Thresholds` as a slot for each event (`specs/Slots.antt`), and say after any list of items
//! that it answers what `chain_spec` says of the next one (`specs/Counting.antt`).
#![tactic(auto)]

mod threshold;
mod thresholds;

pub use thresholds::Thresholds;
