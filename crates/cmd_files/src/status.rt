//! The statuses with which a run ends.

/// The command was done.
pub const DONE: u8 = 0;

/// The words are not in form.
pub const BAD_WORDS: u8 = 2;

/// A file was not read.
pub const CANNOT_READ: u8 = 3;

/// A file has more bytes than its kind may have.
pub const TOO_LONG: u8 = 4;

/// The configuration's bytes are no configuration.
pub const BAD_CONFIG: u8 = 5;

/// The bytes of a journal or of a trace are none.
pub const BAD_JOURNAL: u8 = 6;

/// A file was not written, or a text was not put.
pub const CANNOT_WRITE: u8 = 7;

/// Memory was refused.
pub const NO_MEMORY: u8 = 8;

/// The bytes of a file of messages are not those that the journal's turns sent.
pub const DIFFERS: u8 = 9;

/// The bytes of a file of messages are no list of messages.
pub const BAD_MESSAGE: u8 = 10;

/// A file of messages has those of two managers, or of the manager of a file before it.
pub const INSTANCE: u8 = 11;

/// A call of a disk failed.
pub const DISK_FAILED: u8 = 13;

/// A slot of a disk is damaged.
pub const BAD_DISK: u8 = 14;

/// A disk has no sequence left.
pub const WORN: u8 = 15;

/// A key has no bytes.
pub const EMPTY_KEY: u8 = 16;

/// A message has a signature part already.
pub const SIGNED: u8 = 17;

/// A message has no seal, or one of another key or of other bytes.
pub const BAD_TAG: u8 = 18;

/// A message is sealed with another counter than is due.
pub const BAD_COUNTER: u8 = 19;

/// A message has more bytes than a unit may have.
pub const TOO_LARGE: u8 = 20;

/// The bytes of a file of units are no list of units.
pub const BAD_UNIT: u8 = 21;
