//! The runs of the program: a command from its words over files and output, to its status.
//!
//! Layer 10, runs. Over `cmd_words`, `cmd_files`, `cmd_spec` and `cmd_steps`, over `cmd_messages` and `cmd_disk`, which
//! have the commands over messages and over a disk, and over `chain_plain`, `trace_replay`, `gen_recording` and the crates of
//! texts; the program `idsm` calls it with the host's files. `fold`, `check`, `gen`, `migrate` and `explain` stand here, and
//! `run_plain`, which runs each command that starts no thread and needs no disk; `run_replay` runs `replay`, `run_report`
//! `report`, and `run_keep` the commands over a disk.
//! Contracts see a shelf by what it tells. What the input files of a command deserve and how a run ends is said by
//! `cmd_spec`, and promised here; `specs/Replayed.antt` has the manager that a replay answers beside it. That memory
//! suffices is not promised: `NO_MEMORY` is the one status without a cause.
#![tactic(auto)]

mod asked;
mod check;
mod explain;
mod fold;
mod generating;
mod migrate;
mod replay_texts;
mod replaying;
mod run;
mod traces;

pub use asked::run_asked;
pub use cmd_disk::run_keep;
pub use cmd_files::{
    BAD_CONFIG, BAD_COUNTER, BAD_DISK, BAD_JOURNAL, BAD_MESSAGE, BAD_TAG, BAD_UNIT, BAD_WORDS,
    CANNOT_READ, CANNOT_WRITE, DIFFERS, DISK_FAILED, DONE, EMPTY_KEY, INSTANCE, NO_MEMORY, SIGNED,
    TOO_LARGE, TOO_LONG, WORN,
};
pub use cmd_messages::{Drain, run_report};
pub use cmd_spec::files_decide_the_answer;
pub use cmd_words::{USAGE, is_keep, is_replay, is_report};
pub use run::{run_plain, run_replay};
pub use trace_replay::{Gate, OpenGate, RunManager};
