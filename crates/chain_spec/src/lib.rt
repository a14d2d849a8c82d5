//! The filter chain over whole histories: what it qualifies, sends, holds back and keeps in memory.
//!
//! Layer 5, filters and limits. Over `ids_types`, `ids_config` and `ids_frame`; the filters, the event
//! memory and the chain meet the definitions of `specs/`, each over its own calls.
//! Definitions, laws, and as plain data the fate of an item and the account of an event. A list has its newest
//! element first, so that what came before an element is the rest of the list. `laws` says of the definitions what
//! the AUTOSAR SWS Intrusion Detection System Manager's words say of them.
#![tactic(auto)]

mod account;
mod fate;
mod laws;

pub use account::Account;
pub use fate::{FATES, Fate, STEPS};
pub use laws::{
    a_quiet_turn_changes_nothing, the_fates_add_up, the_numbers_are_the_sizes_of_the_stages,
    what_a_turn_more_keeps, what_is_told_as_sent_and_held_back, what_the_filters_give_of_an_event,
    what_windows_hold_and_what_is_stored, where_an_item_ends, where_qualified_events_stand,
    which_candidates_are_sent, which_events_are_qualified, which_items_open_a_window,
};
