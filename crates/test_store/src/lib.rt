//! The test of the host's disk, shelf and standard output, over a host that notes its calls.
//!
//! Layer 12, tests and times. Over `memory_store` and `ids_outside`. It shows what no contract says: which calls of the
//! host are made, each in its place. What a save writes was worked out by hand.
#![tactic(auto)]

#[cfg(test)]
mod host_calls;
#[cfg(test)]
mod host_edge;
