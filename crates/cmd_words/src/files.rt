//! The files of commands, and what else their words tell. Names of files are not empty, and those of one command differ.

use message_export::Format;

/// The files of a recording.
#[derive(Clone, Copy, Debug)]
pub struct RecordingNames<'a> {
    pub config: &'a str,
    pub journal: &'a str,
}

/// The files of the command `fold`.
#[derive(Clone, Copy, Debug)]
pub struct FoldNames<'a> {
    pub from: RecordingNames<'a>,
    pub messages: &'a str,
    pub memory: &'a str,
}

/// The files of the command `check`.
#[derive(Clone, Copy, Debug)]
pub struct CheckNames<'a> {
    pub from: RecordingNames<'a>,
    pub messages: &'a str,
}

/// A file that is read, and one that is written.
#[derive(Clone, Copy, Debug)]
pub struct PairNames<'a> {
    pub source: &'a str,
    pub target: &'a str,
}

/// The files of `sign` and `verify`, and the counter of the first message, at most 2^62.
#[derive(Clone, Copy, Debug)]
pub struct KeyedNames<'a> {
    pub key: &'a str,
    pub start: u64,
    pub files: PairNames<'a>,
}

/// The files of `bundle`, and how many bytes of messages a unit may have, at least 64.
#[derive(Clone, Copy, Debug)]
pub struct SizedNames<'a> {
    pub size: u16,
    pub files: PairNames<'a>,
}

/// The file that `export` reads, and what it puts its messages as.
#[derive(Clone, Copy, Debug)]
pub struct ExportNames<'a> {
    pub format: Format,
    pub messages: &'a str,
}

/// The files of the command `replay`.
#[derive(Clone, Copy, Debug)]
pub struct ReplayNames<'a> {
    pub config: &'a str,
    pub trace: &'a str,
    pub messages: &'a str,
    pub memory: &'a str,
    pub journal: &'a str,
}

/// The files of the command `report`: one that is written, and 1 to 8 of managers.
#[derive(Clone, Copy, Debug)]
pub struct ReportNames<'a> {
    pub target: &'a str,
    pub sources: &'a [String],
}

/// The disk of the command `keep`, and the recording whose event memory it is to keep.
#[derive(Clone, Copy, Debug)]
pub struct KeepNames<'a> {
    pub disk: &'a str,
    pub from: RecordingNames<'a>,
}
