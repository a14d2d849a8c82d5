//! The ranges of a configuration's numbers. All others begin at 0.

pub(crate) const MAX_PROFILE: u64 = 2;

pub(crate) const MAX_INSTANCE: u64 = 1023;

pub(crate) const MAX_CALLERS: u64 = 32;

pub(crate) const MAX_RING: u64 = 1024;

pub(crate) const MAX_MEMORY: u64 = 256;

pub(crate) const MAX_STATE: u64 = 255;

/// The most classes of context data buffers.
pub const MAX_CLASSES: usize = 4;

/// The most bytes that a context data buffer holds.
pub const MAX_CLASS_SIZE: u64 = 1024;

/// The most buffers of a class.
pub const MAX_CLASS_NUMBER: u64 = 1024;

/// The most events, internal ones included.
pub const MAX_EVENTS: usize = 256;

pub(crate) const MAX_ID: u64 = 65_535;

pub(crate) const MAX_SENSOR: u64 = 63;

pub(crate) const MAX_VERSION: u64 = 255;

pub(crate) const MAX_BLOCK_STATES: usize = 16;

pub(crate) const MAX_NTH: u64 = 65_535;

pub(crate) const MAX_THRESHOLD: u64 = 65_535;

/// In ticks.
pub(crate) const MAX_INTERVAL: u64 = 1 << 62;

/// The most events, or bytes, that a limit lets through in one window.
pub(crate) const MAX_LIMIT: u64 = 4_294_967_295;
