//! The internal events that a turn begins with: the manager's own reports of what was lost and held back.
//!
//! Layer 5, filters and limits. Over `ids_types` and `chain_spec`; the chain takes the heads of each
//! turn before its entries. Contracts see a `HeadList` as a list and a `Head` as `chain_spec` has it
//! (`specs/HeadView.antt`). No call takes memory.
#![tactic(auto)]

mod head_list;

pub use head_list::{Head, HeadList, heads};
