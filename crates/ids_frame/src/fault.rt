//! Why bytes are not read as a message.
use std::fmt;

/// Why bytes do not begin with a message's spelling.
#[derive(Clone, Copy, Debug, PartialEq, Eq)]
pub enum FrameFault {
    /// The bytes end before the message does.
    Short,
    /// The upper four bits of the first byte are not the version of a layout.
    UnknownVersion,
    /// The version is known, and the header announces a part that the layout does not have.
    UnknownPart,
}

impl fmt::Display for FrameFault {
    fn fmt<W: fmt::Write>(&self, f: &mut fmt::Formatter<W>) -> fmt::Result {
        f.write_str(match self {
            FrameFault::Short => "the message is cut short",
            FrameFault::UnknownVersion => "the message's version is not known",
            FrameFault::UnknownPart => "the message has an unknown part",
        })
    }
}

impl std::error::Error for FrameFault {}

/// Where bytes stop to be messages one after the other, and why.
#[derive(Clone, Copy, Debug, PartialEq, Eq)]
pub struct BadMessage {
    /// How many bytes stand before the first message that cannot be read.
    pub at: usize,
    /// Why it cannot be read.
    pub fault: FrameFault,
}

impl fmt::Display for BadMessage {
    fn fmt<W: fmt::Write>(&self, f: &mut fmt::Formatter<W>) -> fmt::Result {
        write!(f, "at byte {}: {}", self.at, self.fault)
    }
}

impl std::error::Error for BadMessage {}
