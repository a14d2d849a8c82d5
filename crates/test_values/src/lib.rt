//! The tests of the crates below, over their public names alone.
//!
//! Layer 12, tests and times. Each module tests what no contract says and no command shows: that calls succeed with ample
//! memory, published tags, streams of units, and that the definitions say what the documents do, by worked examples that
//! were found by hand.
//! Statuses, limits and ranges stand here as numbers. What needs threads or private names is tested in its
//! own crate.
#![tactic(auto)]

#[cfg(test)]
mod messages;
#[cfg(test)]
mod packing;
#[cfg(test)]
mod ring_machine;
#[cfg(test)]
mod sealing;
#[cfg(test)]
mod shared_ring;
