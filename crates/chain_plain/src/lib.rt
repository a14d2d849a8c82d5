//! What a recorded history gives: one chain takes it turn by turn.
//!
//! Layer 7, the chain. Over `ids_types`, `ids_config`, `chain_spec`, `event_memory`, `filter_chain` and `event_chain`.
//! Contracts say which histories can be taken (`specs/Recorded.antt`), and of what was told that it is what
//! `chain_spec` gives for the history (`specs/Telling.antt`).
//! Memory is taken for what is told, and once for the largest turn.
#![tactic(auto)]

mod desk;
mod folded;
mod folding;
mod retaking;
mod tally;

pub use desk::{Desk, MOST_BYTES, MOST_ENTRIES};
pub use folded::{Folded, outcome};
pub use folding::fold;
pub use retaking::retake;
pub use tally::Tally;
