//! The filter chain as the main function sees it: a turn at a time, over moved parcels of context data.
//!
//! Layer 7, the chain. Over `ids_types`, `ids_config`, `chain_spec` and `event_memory`; each chain meets the
//! trait, and the main function is written over it.
//! Contracts say for which configuration and which turns, the first of them first, a chain stands
//! (`specs/History.antt`), which turns it can take (`specs/Turning.antt`), and where each parcel is
//! (`specs/Parcels.antt`). Beside the trait stand `Log`, which is shown each turn, and what every chain needs:
//! `record_turn`, the room that messages need (`most_sent`), what turns sent (`Transcript`), and a parcel on its way out
//! of an entry and back to its owner.
#![tactic(auto)]

mod chain;
mod log;
mod logging;
mod parcels;
mod room;
mod transcript;

pub use chain::{Chain, ParcelChain};
pub use log::{Log, Unlogged};
pub use logging::{record_turn, reserve_turn};
pub use parcels::{give_back, lent, take_kept};
pub use room::most_sent;
pub use transcript::Transcript;
