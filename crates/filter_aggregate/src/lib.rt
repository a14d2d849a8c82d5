//! Aggregation: the items of one event that come within an interval become one item.
//!
//! Layer 5, filters and limits. Over `ids_types`, `ids_config` and `chain_spec`; the chain closes what is due
//! at each turn, and lets the items that the gate passes arrive.
//! Contracts see a `Windows` as a list of slots, one for each event (`specs/Slots.antt`), and say over the
//! parcels' bytes for which moments and items the slots stand (`specs/Standing.antt`). A parcel is moved, and
//! named by its value; `specs/Account.antt` counts the parcels that come and go.
#![tactic(auto)]

mod open;
mod slot;
mod windows;

pub use open::Open;
pub use slot::Slot;
pub use windows::Windows;
