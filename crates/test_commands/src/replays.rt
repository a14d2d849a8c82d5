//! Replays by calls of trace_replay.

mod gates;
pub(crate) mod meeting;
mod rounds;
mod told;
