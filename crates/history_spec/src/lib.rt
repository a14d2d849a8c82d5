//! Which histories and losses the calls of several callers may give.
//!
//! Layer 4, messages and texts. Over `ids_types` and `ids_config`; the calls that report, the main function and the
//! replay meet the definitions of `specs/`. Definitions and laws, and no code that runs.
#![tactic(auto)]

mod laws;

pub use laws::{
    a_round_loses_at_most_what_it_has_too_many, a_round_misses_at_most_what_it_has_too_many,
    contexts_ask_in_order, decided_calls_are_merged, entries_stand_in_turns_of_their_own_round,
    settled_logs_give_legal_contexts, settled_logs_have_each_claim, what_a_front_is,
    what_had_become_by_a_rest, what_had_been_asked_by_a_rest,
};
