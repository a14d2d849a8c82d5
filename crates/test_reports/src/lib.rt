//! The tests of the report calls, of their queue and of the main function, over public names.
//!
//! Layer 12, tests and times. Over `report_api`, `main_function`, `event_chain` and the crates below them.
//! They show what no contract says. Reports are accepted while buffers are free, and a turn takes what is
//! there. Examples have the answers and messages that were worked out by hand. Limits stand here as numbers.
#![tactic(auto)]

#[cfg(test)]
mod calls;
#[cfg(test)]
mod queue;
#[cfg(test)]
mod steps;
#[cfg(test)]
mod tables;
