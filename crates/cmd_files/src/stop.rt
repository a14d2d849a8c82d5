//! Why a command ended before its work was done. `N` is what holds the names of files.

ghost use Rattle.std.specs.Prelude.{◌≡◌};
ghost use Rattle.cmd_files.specs.Reading.{stop_of_config};
ghost use Rattle.cmd_files.specs.Writing.{stop_of_write};
ghost use Rattle.cmd_files.specs.declared.stop.Stop.TheVariants as stops;

use config_json::JsonFault;
use ids_config::ConfigFault;
use ids_frame::BadMessage;
use ids_outside::WriteFault;
use ids_types::NoMemory;
use std::alloc::AllocError;

/// Why what an input file holds does not serve.
#[derive(Clone, Copy, Debug)]
pub enum Refusal<N> {
    /// The file of this name has more bytes than its kind may have.
    TooLong(N),
    /// The configuration has this fault.
    BadConfig(ConfigFault),
    /// The first bad line of the journal, from 1, and its first fault.
    BadJournal { line: u64, number: u8 },
    /// The same of a trace.
    BadTrace { line: u64, number: u8 },
    /// No message begins at this place of the file of messages.
    BadMessages(BadMessage),
    /// The same of the file of this name.
    BadSource(N, BadMessage),
    /// The file of this name has messages of two managers, or of the manager of a file before it.
    Instance(N),
    /// The file of messages has other bytes from this place on than were sent, or ends there, or goes on.
    Differ { at: u64 },
    /// The file of the key has no bytes.
    EmptyKey,
    /// The message at this place has a signature part already.
    Signed { at: u64 },
    /// The message at this place has no seal, or one of another key or of other bytes.
    BadTag { at: u64 },
    /// The message at this place is sealed, with another counter than is due.
    BadCounter { at: u64 },
    /// The message at this place has more bytes than a unit may have.
    TooLarge { at: u64 },
    /// No whole unit begins at this place.
    BadUnit { at: u64 },
}

/// Why work on a disk stopped.
#[derive(Clone, Copy, Debug)]
pub enum DiskStop {
    /// A call of the disk failed.
    Failed,
    /// A call of the disk failed, after so many saves.
    FailedAfter { saves: u64 },
    /// The slot that would be kept is damaged.
    Damaged { slot: u8 },
    /// No sequence was left, after so many saves.
    WornAfter { saves: u64 },
}

/// Why a command stopped.
#[derive(Clone, Copy, Debug)]
pub enum Stop<N> {
    /// The file of this name was not read.
    CannotRead(N),
    Refused(Refusal<N>),
    OnDisk(DiskStop),
    CannotWrite,
    NoMemory,
}

impl<N> From<WriteFault> for Stop<N> {
    ghost from_gives = { λ fault answer. answer ≡ stop_of_write fault };

    fn from(fault: WriteFault) -> Self {
        match fault {
            WriteFault::Failed => Stop::CannotWrite,
            WriteFault::NoMemory => Stop::NoMemory,
        }
    }
}

impl<N> From<JsonFault> for Stop<N> {
    ghost from_gives = { λ fault answer. answer ≡ stop_of_config fault };

    fn from(fault: JsonFault) -> Self {
        match fault {
            JsonFault::Config(fault) => Stop::Refused(Refusal::BadConfig(fault)),
            JsonFault::NoMemory => Stop::NoMemory,
        }
    }
}

impl<N> From<AllocError> for Stop<N> {
    ghost from_gives = { λ _ answer. answer ≡ stops.NoMemory };

    fn from(_: AllocError) -> Self {
        Stop::NoMemory
    }
}

impl<N> From<NoMemory> for Stop<N> {
    ghost from_gives = { λ _ answer. answer ≡ stops.NoMemory };

    fn from(_: NoMemory) -> Self {
        Stop::NoMemory
    }
}
