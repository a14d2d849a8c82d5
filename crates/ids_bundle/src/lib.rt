//! Messages packed whole into units, for a bus whose frames have one size, and taken out again.
//!
//! Layer 4, messages and texts. Over `ids_types` and `ids_frame`; the commands `bundle` and `unbundle`, and the C
//! interface, stand on it. `pack` makes the units of a file of messages, `unpack` takes the messages out of a file of
//! units, and an `Unpacker` takes them out of a stream that comes in any pieces. `put_unit` puts one unit at a time into a
//! buffer. The layout of a unit is this project's own (`specs/Units.antt`).
//! Contracts speak of runs of messages: the cut that `pack` makes has the fewest runs (`specs/Cuts.antt`), each call
//! has one answer (`specs/Packing.antt`, `specs/FirstUnit.antt`, `specs/Unpacking.antt`), and an `Unpacker` is seen as
//! the place where its stream stands (`specs/Stream.antt`).
//! No clause says what a call costs. Each goes over its bytes a fixed number of times and copies each once, and
//! `put_unit` and `feed` take no memory.
#![tactic(auto)]

mod fault;
mod packing;
mod unit;
mod unpacker;
mod unpacking;

pub use fault::{PackFault, UnitFault, UnpackFault};
pub use packing::{
    fewest_runs, first_of_packed, one_pack_answer, one_packing, one_unit_answer, pack, put_unit,
};
pub use unit::{Count, UnitPut};
pub use unpacker::{Fed, Unpacker, any_pieces, one_reading};
pub use unpacking::{count, one_unpack_answer, unpack, unpacks_again};
