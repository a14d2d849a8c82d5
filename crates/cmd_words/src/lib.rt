//! The words after the program's name: which command they ask for, with its files.
//!
//! Layer 10, runs. Over `gen_options`, which reads the options of `gen`, `text_spec` for numbers, and `message_export` for the
//! formats of `export`; `cmd_spec` says what each command does, and `idsm_run` does it.
//! `specs/Command.antt` gives the command of any words, which run does it, and which files it reads and writes; the
//! contract of `parse` is that, and that the files a command writes have names of their own. Only the words of `gen` take
//! memory.
#![tactic(auto)]

mod command;
mod differing;
mod files;
mod first_word;
mod message_words;

pub use command::{Request, USAGE, parse};
pub use files::{
    CheckNames, ExportNames, FoldNames, KeepNames, KeyedNames, PairNames, RecordingNames,
    ReplayNames, ReportNames, SizedNames,
};
pub use first_word::{is_keep, is_replay, is_report};
