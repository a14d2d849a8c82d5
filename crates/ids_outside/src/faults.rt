//! Why a file was not read or written.

ghost use Rattle.std.specs.Prelude.{◌≡◌};
ghost use Rattle.ids_outside.specs.declared.faults.ReadFault.TheVariants as read;
ghost use Rattle.ids_outside.specs.declared.faults.WriteFault.TheVariants as write;
ghost use Rattle.ids_outside.specs.Faults.{fault_at};
ghost use Rattle.std.specs.IoError.{error_kind};

use std::alloc::AllocError;
use std::io;

/// The call of a shelf that a fault came at.
#[derive(Clone, Copy, Debug, PartialEq, Eq)]
pub enum FaultKind {
    Read,
    Create,
    Append,
}

/// Why a file was not read.
#[derive(Clone, Copy, Debug, PartialEq, Eq)]
pub enum ReadFault {
    /// The file is not there, or the place where it stands failed.
    Failed,
    /// The file is longer than the limit that the caller gave.
    TooLong,
    NoMemory,
}

/// Why bytes were not written.
#[derive(Clone, Copy, Debug, PartialEq, Eq)]
pub enum WriteFault {
    /// The place that was written to failed, maybe after a first part of the bytes.
    Failed,
    /// Memory was missing before anything was written.
    NoMemory,
}

impl From<AllocError> for ReadFault {
    ghost from_gives = { λ _ fault. fault ≡ read.NoMemory };

    fn from(_: AllocError) -> Self {
        ReadFault::NoMemory
    }
}

impl From<io::Error> for ReadFault {
    ghost from_gives = { λ error fault. fault ≡ fault_at read.NoMemory read.Failed (error_kind error) };

    /// The host's own want of memory is `NoMemory`, and every other error a failure.
    fn from(error: io::Error) -> Self {
        match error.kind() {
            io::ErrorKind::OutOfMemory => ReadFault::NoMemory,
            _ => ReadFault::Failed,
        }
    }
}

impl From<AllocError> for WriteFault {
    ghost from_gives = { λ _ fault. fault ≡ write.NoMemory };

    fn from(_: AllocError) -> Self {
        WriteFault::NoMemory
    }
}

impl From<io::Error> for WriteFault {
    ghost from_gives = { λ error fault. fault ≡ fault_at write.NoMemory write.Failed (error_kind error) };

    /// The host's own want of memory is `NoMemory`, and every other error a failure.
    fn from(error: io::Error) -> Self {
        match error.kind() {
            io::ErrorKind::OutOfMemory => WriteFault::NoMemory,
            _ => WriteFault::Failed,
        }
    }
}
