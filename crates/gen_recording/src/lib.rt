//! Generated recordings: a large configuration, a trace and a journal, the same for the same options.
//!
//! Layer 9, traces and files. Over `gen_options`, `config_json`, `journal`, `trace_text`, `chain_plain` and `sha2`;
//! `idsm_run` writes what it makes.
//! Contracts say what is made as functions of the options (`specs/Generated.antt`): the trace by draws
//! (`specs/GeneratedTrace.antt`), and the journal as the history that this trace gives where nothing is lost
//! (`specs/Quiet.antt`).
#![tactic(auto)]

mod config;
mod drawing;
mod entries;
mod generated;
mod recorder;

pub use generated::{Generated, generate};
