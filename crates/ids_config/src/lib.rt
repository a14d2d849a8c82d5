//! The configuration of the manager as a value that is valid.
//!
//! Layer 3, configuration. Over `ids_types`; `config_json` reads and prints it, and the filters, the
//! buffers and the chain take a `Config` and never test again what `Config::check` has tested.
//! Contracts see the parts as plain data, each list as a list (`specs/Parts.antt`). `specs/Values.antt`
//! has the faults of value in the order in which they are sought, `specs/Valid.antt` the ranges that a
//! valid configuration keeps.
#![tactic(auto)]

mod config;
mod events;
mod fault;
mod layout;
mod limits;
mod parts;
mod steps;

pub use config::Config;
pub use fault::{ConfigFault, ConfigPlace};
pub use limits::{MAX_CLASS_NUMBER, MAX_CLASS_SIZE, MAX_CLASSES, MAX_EVENTS};
pub use parts::{Aggregate, ConfigParts, EventParts, Window};
pub use steps::{asks, at, capped};
