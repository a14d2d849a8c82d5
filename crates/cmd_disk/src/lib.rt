//! The commands over an event memory on a disk: `keep` saves the memory of a recording after each of its turns, and
//! `recall` writes what a disk keeps.
//!
//! Layer 10, runs. Over `cmd_steps`, which reads the recording, over `chain_plain` and `event_chain`, which fold it, and
//! over `memory_store`, which saves records so that power may fail at any moment; `idsm_run` passes `run_keep` on.
//! What the files of a command deserve, and how its run ends, is `cmd_spec`'s; `specs/Keeping.antt` says what a crash at
//! any moment of a `keep` leaves on its disk and what any crash after it does, `specs/Runs.antt` what a run does as a
//! whole, and `specs/Completeness.antt` how one ends in which no call fails. Where the shelf or the disk tells nothing of
//! what it holds, only the causes of its failures are said.
#![tactic(auto)]

mod ended;
mod keeping;
mod laws;
mod recalling;
mod run;
mod saving;

pub use laws::a_run_is_done_where_no_call_fails;
pub use run::run_keep;
