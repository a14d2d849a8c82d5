//! The values that all crates share: security events, their context, entries, and the history of turns.
//!
//! Layer 1, values. Stands on nothing; every other crate of the project stands on it. Contracts see an entry as plain
//! data, with its context as a list of bytes. They see a `History` as the list of its turns beside the room that it
//! has left, and a `TurnOut` as what a turn sent.
#![tactic(auto)]

mod class_spec;
mod entry;
mod event;
mod history;
mod internal;
mod key;
mod loss;
mod memory;
mod mode;
mod names;
mod numbers;
mod parcel;
mod placing;
mod rows;
mod turn_out;
mod walk;

pub use class_spec::ClassSpec;
pub use entry::{Act, Carried, Entry, TurnHead};
pub use event::Qualified;
pub use history::History;
pub use internal::{INTERNALS, Internal};
pub use key::Key;
pub use loss::Loss;
pub use memory::NoMemory;
pub use mode::Mode;
pub use names::{EventIndex, Stamp, Ticket};
pub use numbers::Numbers;
pub use parcel::{Parcel, Plain};
pub use turn_out::TurnOut;
pub use walk::{EntryWalk, Walk};
