//! A trace replayed: a thread for each of its callers, beside the turns of one manager.
//!
//! Layer 9, traces and files. Over `trace_text`, `report_api`, `main_function` and `event_chain`; the command
//! `replay` writes what it answers. `specs/Replayed.antt` says what a replay gives, for whatever order the steps of
//! the threads had. It is one history that is a merge of the callers' lines, with each loss where no event buffer was
//! free. The messages are those that the filter chain sends for this history. The threads live through the replay. In
//! each round every caller is put at its place (`place.rt`), where its thread finds it; the main function makes what
//! no thread has begun, so that no host's lack of threads stops a replay. That callers run beside each other and
//! beside turns is shown by tests alone: a replay on one thread would meet each contract too.
#![tactic(auto)]

mod caller;
mod callers;
mod gathered;
mod handing;
mod laws;
mod place;
mod recorder;
mod replaying;
mod rounds;
mod stage;

pub use caller::{Gate, OpenGate};
pub use laws::{
    a_call_lies_in_its_round, an_entry_stands_in_its_round, no_round_loses_what_fits,
    no_round_misses_what_fits,
};
pub use replaying::{Replayed, RunManager, replay};
