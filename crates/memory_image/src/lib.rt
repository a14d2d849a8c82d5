//! The image of an event memory: its records as bytes, written, and read again.
//!
//! Layer 9, traces and files. Over `ids_types`, `ids_frame`, `chain_spec` and `event_memory`; `memory_store` keeps an
//! image in each slot of its disk. Over `text_spec` and `filter_chain` for one law: the records of a history can be
//! kept. `specs/Images.antt` gives the image of any records, and the contracts of `put_image` and `restore` are that,
//! in both directions.
#![tactic(auto)]

mod fields;
mod image;

pub use image::{
    image_len, one_list_for_an_image, put_image, restore, the_records_of_a_history_can_be_kept,
};
