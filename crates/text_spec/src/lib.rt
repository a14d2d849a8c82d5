//! The fields of the project's texts: lines, words, numbers, lower-case hexadecimal and timestamps.
//!
//! Layer 4, messages and texts. Over `ids_types`, `ids_config`, `ids_frame` and the kit's `hex`
//! and `memchr`; the journal, decoded messages, the trace and the text of the memory are read or printed
//! by it.
//! Contracts see a word by its bytes. `specs/` gives each field its text and its reading, and the
//! functions with an empty body say that the two are inverse to one another.
//! No clause says that memory suffices: an answer `NoMemory` is always true.
#![tactic(auto)]

mod decoded;
mod fault;
mod hex_text;
mod hexadecimal;
mod journal;
mod lines;
mod modes;
mod numbers;
mod pieces;
mod stamps;
mod trace;

pub use decoded::push_message;
pub use fault::{LineFault, TextFault};
pub use hex_text::HexText;
pub use hexadecimal::{one_text_for_bytes, push_bytes, push_hex};
pub use journal::{one_journal_for_a_text, what_a_fitting_journal_keeps, which_lines_have_a_form};
pub use lines::{LineReader, read_lines};
pub use modes::{one_name_for_a_mode, push_mode};
pub use numbers::{one_text_for_a_number, push_field, push_number};
pub use pieces::{Pieces, Words, cut};
pub use stamps::{one_text_for_a_stamp, push_stamp, stamp};
pub use trace::a_trace_is_read_as_its_rounds;
