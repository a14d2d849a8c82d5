//! What `replay` writes is what `fold` writes of its journal, and what `check` compares a file with.
//!
//! Layer 10, runs. Over `idsm_run`. Laws over the relation that `run_plain` and `run_replay` promise, and no code that
//! runs. So that `check` may read the messages of a replay, they are bounded by the length of its journal.
#![tactic(auto)]

mod causal;
mod laws;
mod live;
mod weights;

pub use causal::fold_takes_what_is_causal;
pub use laws::replay_fold_and_check_agree;
pub use live::what_a_closed_manager_wrote_is_its_journal;
pub use weights::{
    messages_are_at_most_four_times_their_journal, the_chain_adds_no_weight, what_a_message_weighs,
};
