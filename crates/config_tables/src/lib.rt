//! The configuration from tables, as a program in C has them.
//!
//! Layer 3, configuration. Over `ids_config` and `config_json`; `idsm_c` reads by it what C hands over. The rows are
//! structs of C (`c/idsm_c.h`). `specs/Tables.antt` says which configuration they have, or which is their first fault:
//! the faults are those of a text, at the same places, as far as rows can have them.
#![tactic(auto)]

mod modes;
mod reading;
mod rows;

pub use modes::mode_at;
pub use reading::read;
pub use rows::{AggregateRow, ClassRow, EventRow, NONE, TopRow, WindowRow};
