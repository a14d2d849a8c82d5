//! The limits of what is sent: so many messages, and so many bytes, in each window of ticks.
//!
//! Layer 5, filters and limits. Over `ids_types`, `ids_config` and `chain_spec`; the chain asks it of each
//! message that it would send.
//! Contracts see a `LimitState` as a meter for each configured limit (`specs/Meters.antt`), and say after any
//! list of candidates that it answers what `chain_spec` says of the next one (`specs/Limiting.antt`).
#![tactic(auto)]

mod meter;
mod state;

pub use state::LimitState;
