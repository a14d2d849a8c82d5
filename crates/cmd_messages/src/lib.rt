//! The commands over files of messages: `decode`, `export`, `sign`, `verify`, `bundle`, `unbundle` and `report`.
//!
//! Layer 10, runs. Over `cmd_steps` and what it stands on, over `ids_frame`, `frame_auth`, `ids_bundle`,
//! `message_export` and `ids_reporter`; `idsm_run` chooses among the commands.
//! What the files of a command deserve, and how its run ends, is `cmd_spec`'s, and promised here; `specs/Reported.antt` has
//! the drain that a report answers. `report` is a top call of its own, since it waits.
#![tactic(auto)]

mod bundling;
mod decode;
mod export;
mod report;
mod reporting;
mod sealing;

pub use bundling::{bundle, unbundle};
pub use decode::decode_file;
pub use export::export_file;
pub use ids_reporter::Drain;
pub use report::run_report;
pub use sealing::{sign, verify};

/// How a command ends: with the line that it puts, or why it stopped.
type Line<'a> = Result<Vec<u8>, cmd_files::Stop<&'a str>>;
