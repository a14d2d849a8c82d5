//! The trace: what a replay is asked to do, round by round, read under a configuration and printed.
//!
//! Layer 4, messages and texts. Over `ids_types`, `ids_config`, `history_spec` and `text_spec`; the replay reads
//! traces by it, and the generator prints them. Contracts see a `Trace` as its rounds, which history_spec defines;
//! text_spec's `specs/TraceText.antt` has their text, `TraceForm.antt` and `TraceFaults.antt` the faults of a line,
//! and `TraceReading.antt` which text is read as which rounds. What a merge of a trace's lines gives is a journal under
//! the trace's configuration: a law, which who writes the journal of a replay cites.
//! No clause says that memory suffices: an answer `NoMemory` is always true.
#![tactic(auto)]

mod form;
mod laws;
mod printing;
mod ranges;
mod reader;
mod reading;
mod rows;
mod trace;

pub use laws::{a_merge_fits_its_configuration, which_lines_of_a_trace_have_a_form};
pub use printing::print;
pub use reading::read;
pub use rows::{Line, TraceAct};
pub use text_spec::TextFault as TraceFault;
pub use trace::{Trace, TraceRoom};
