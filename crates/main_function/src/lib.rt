//! The main function: a turn at a time, it takes what callers reported and has the filter chain judge it.
//!
//! Layer 8, reports. Over `report_api`'s desk, `law_closing`'s laws and any `Chain`; the runs above make it, turn it and
//! close it. For which turns a manager stands is told by `specs/Standing.antt`, what a turn does by `specs/Turning.antt`,
//! and what a close leaves by `specs/Closing.antt`. A turn and a close take no memory: only making, a rest and
//! what makes room for rests do.
#![tactic(auto)]

mod closing;
mod laws;
mod making;
mod manager;
mod rest;
mod resting;
mod taking;

pub use laws::{a_turn_is_in_range, there_is_one_turn};
pub use making::{Made, make};
pub use manager::Manager;
pub use rest::{HasPass, RestLog, Totals, TurnFault};
