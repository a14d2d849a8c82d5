//! The journal: the record of a run, read under a configuration and printed.
//!
//! Layer 4, messages and texts. Over `ids_types`, `ids_config`, `history_spec` and `text_spec`; the runs of commands read
//! journals by it. text_spec's `specs/JournalText.antt` has the text of a history and its losses, `JournalForm.antt` and
//! `JournalFaults.antt` the faults of a line, and `JournalReading.antt` which text is a journal and which line is the
//! first bad one. `read` answers the one journal that a text is, or its first bad line; `print` writes a journal's
//! text. No clause says that memory suffices: an answer `NoMemory` is always true.
#![tactic(auto)]

mod claims;
mod form;
mod laws;
mod lengths;
mod line;
mod pairs;
mod printing;
mod ranges;
mod reader;
mod reading;
mod room;
mod taking;

pub use laws::{
    a_journal_is_printed_turn_by_turn, how_long_a_line_is, which_journals_fit, which_turns_fit,
};
pub use lengths::{most_of_a_turn, turn_fits};
pub use printing::{print, push_entry, push_fields, push_head, push_items, push_loss};
pub use reading::{Journal, read};
pub use text_spec::TextFault as JournalFault;
