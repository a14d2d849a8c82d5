//! Messages as bytes: what the manager sends, the one spelling that each message has, and how it
//! is read back.
//!
//! Layer 4, messages and texts. Stands on `ids_types`. The chain makes messages and `encode`
//! writes them; `decode` reads the message at the front of bytes, and `Messages` those of a whole
//! file. The layouts are this project's own, "IDS message profile 1" and "2", after the event message
//! of the AUTOSAR PRS Intrusion Detection System; `specs/Spelling.antt` states them, by the value.
//! `specs/Reading.antt` goes by the bytes, and the laws `what_bytes_begin_with` and
//! `what_a_file_holds` tie the two. Contracts see a message as its parts, a context as its form and
//! bytes, and `Messages` as the list of those to be taken.
//!
//! No clause says what a call costs, or where a message's context and signature lie. No call takes
//! memory. `encode` and `spell` copy the context once, `decode` looks at each byte at most once, and
//! `Messages::read` goes over the bytes before each message is read again as it is taken.
#![tactic(auto)]

mod context;
mod decoding;
mod fault;
mod measuring;
mod message;
mod messages;
mod reading;
mod room;
mod writing;

pub use context::{Context, Form};
pub use decoding::{decode, one_message, what_bytes_begin_with};
pub use fault::{BadMessage, FrameFault};
pub use message::Message;
pub use messages::{Messages, what_a_file_holds};
pub use room::Room;
pub use writing::{MAX_BYTES, TooLong, encode, spell};
