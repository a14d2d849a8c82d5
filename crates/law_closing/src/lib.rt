//! From a desk whose rings are closed to the history of all calls.
//!
//! Layer 8, reports. Over `report_api` and `history_spec`; the main function cites it once all its passes are back.
//! Laws over what contracts show, and no code that runs.
#![tactic(auto)]

mod laws;

pub use laws::{
    as_many_items_as_accepted_calls, closed_desks_have_all_calls, closed_desks_settle_the_classes,
    rings_have_their_givers_numbers, the_first_fitting_class_counts_the_small_ones,
};
