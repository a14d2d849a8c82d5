//! Steps that several commands share: a recording is read and folded, the one file that was made is written, and a run
//! that answers something is told.
//!
//! Layer 10, runs. Over `cmd_words`, `cmd_files` and `cmd_spec`, and over `journal` and `chain_plain`; `cmd_messages`,
//! `cmd_disk` and `idsm_run` have the commands.
//! Each contract speaks of every command that takes the step: `read_inputs` of those that read a recording, `write_made`
//! of those that write one file (`specs/Made.antt`), `tell_finished` of those that answer something beside their status
//! (`specs/Answered.antt`). `specs/Words.antt` has the names that the contracts of runs cite.
#![tactic(auto)]

mod answering;
mod inputs;
mod journals;
mod making;

pub use answering::{Finished, say_usage, tell_finished};
pub use inputs::{Inputs, read_config, read_inputs};
pub use journals::Judged;
pub use making::{Made, write_made, write_work};
