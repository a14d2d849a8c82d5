//! The tests that compare the two filter chains, over public names, and the second of the two, `PlainChain`, which begins
//! anew at each turn: it keeps the whole history, and takes all of it again.
//!
//! Layer 12, tests and times. Over `event_chain`, `chain_plain`, `gen_recording`, `journal` and the crates below them;
//! of `cmd_spec` they cite what a journal that fits says of its turns. Both chains have one contract, that of the trait
//! `Chain`. A `PlainChain` is seen as the configuration, the history, and what the last turn left, and stands for the
//! turns of its history (`specs/Remembered.antt`). The tests show that both answer with ample memory, and that both give
//! what was worked out by hand, turn by turn.
#![tactic(auto)]

#[cfg(test)]
mod both;
mod fresh;
#[cfg(test)]
mod generated;
mod handing;
mod plain_chain;
#[cfg(test)]
mod rows;

pub use plain_chain::PlainChain;
