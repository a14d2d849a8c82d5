//! The words after `gen`: what a recording is generated from, and the files that it goes to.
//!
//! Layer 9, traces and files. Over `clap`, which reads the words; `gen_recording` makes what the options ask
//! for, and `idsm_run` writes it.
//! Contracts say of words what they give (`specs/Words.antt`), by clap's own definition of what a command takes
//! of words and which of them it refuses.
//! What clap would tell of a refusal is not told.
#![tactic(auto)]

mod command;
mod options;
mod reading;

pub use options::{Given, Options};
pub use reading::read;
