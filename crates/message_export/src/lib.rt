//! Messages in formats that other programs read: lines of JSON, and a capture.
//!
//! Layer 9, traces and files. Over `ids_types`, `ids_frame` and `text_spec`, whose numbers and hexadecimal it
//! prints. `export` goes over a file of messages once, and judges and prints each message before the next.
//! Contracts see the messages of a file as `ids_frame` reads them; `specs/JsonLines.antt` and
//! `specs/Capture.antt` say what the two formats tell of them.
//! No clause says that memory suffices: an answer `NoMemory` is always true.
#![tactic(auto)]

mod capture;
mod exporting;
mod json;
mod laws;
mod pieces;

pub use exporting::{ExportFault, Format, export};
pub use laws::{a_capture_tells_its_messages, a_line_tells_one_message};
