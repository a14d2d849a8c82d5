//! What each command of the program does: what its input files deserve, and how its run ends.
//!
//! Layer 10, runs. Over the definitions of the chain, of journals, traces and generated recordings, over `cmd_words` for
//! the commands and over `cmd_files` for files and texts; the contracts of `idsm_run` cite it.
//! `specs/Judge.antt` says what input files deserve, `specs/Run.antt` how a run ends, by cases on its command, and
//! `specs/Headline.antt` what a replay gives. Definitions and laws over them, and no code that runs.
#![tactic(auto)]

mod laws;

pub use laws::{files_decide_the_answer, no_file_fails_where_no_fault_is_counted};
