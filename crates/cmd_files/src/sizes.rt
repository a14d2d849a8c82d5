/// The most bytes of a configuration file.
pub const MAX_CONFIG_BYTES: u64 = 1_048_576;

/// The most bytes of a journal file.
pub const MAX_JOURNAL_BYTES: u64 = 16_777_216;

/// The most bytes of a trace file.
pub const MAX_TRACE_BYTES: u64 = 16_777_216;

/// The most bytes of a file of messages that is read.
pub const MAX_MESSAGES_BYTES: u64 = 67_108_864;

/// The most bytes of a file of messages that is exported. A text of JSON may be 29 times as long.
pub const MAX_EXPORT_BYTES: u64 = 16_777_216;

/// The most bytes of a file of one manager's messages, of which several are read.
pub const MAX_SOURCE_BYTES: u64 = 8_388_608;

/// The most bytes of a key.
pub const MAX_KEY_BYTES: u64 = 64;

/// The most bytes of a file of sealed messages: those of any file that was sealed.
pub const MAX_SEALED_BYTES: u64 = 536_870_912;

/// The most bytes of a file of units.
pub const MAX_UNITS_BYTES: u64 = 134_217_728;
