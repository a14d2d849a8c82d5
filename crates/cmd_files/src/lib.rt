//! Files that a run reads and writes, and its one text: why it stops, with which status and which words.
//!
//! Layer 10, runs. Over `ids_outside`, whose shelves hold files and whose sinks take the text; `cmd_spec` says what
//! each command makes of them, and `cmd_messages`, `cmd_disk` and `idsm_run` do it. What a file holds that is not too
//! long stands in `specs/Contents.antt`, and what stands after a write that failed in `specs/Writing.antt`. Each text
//! and status stands in `specs/Texts.antt`, and how the put of a text ends in `specs/Saying.antt`. Reading and the
//! lines of refusals take memory, and nothing else does.
#![tactic(auto)]

mod outputs;
mod reading;
mod saying;
mod sizes;
mod status;
mod stop;

pub use outputs::{NewFile, write_files};
pub use reading::read_file;
pub use saying::{say, tell};
pub use sizes::{
    MAX_CONFIG_BYTES, MAX_EXPORT_BYTES, MAX_JOURNAL_BYTES, MAX_KEY_BYTES, MAX_MESSAGES_BYTES,
    MAX_SEALED_BYTES, MAX_SOURCE_BYTES, MAX_TRACE_BYTES, MAX_UNITS_BYTES,
};
pub use status::{
    BAD_CONFIG, BAD_COUNTER, BAD_DISK, BAD_JOURNAL, BAD_MESSAGE, BAD_TAG, BAD_UNIT, BAD_WORDS,
    CANNOT_READ, CANNOT_WRITE, DIFFERS, DISK_FAILED, DONE, EMPTY_KEY, INSTANCE, NO_MEMORY, SIGNED,
    TOO_LARGE, TOO_LONG, WORN,
};
pub use stop::{DiskStop, Refusal, Stop};
