//! Why a line or a text was not taken.

ghost use Rattle.std.specs.Prelude.{◌≡◌};
ghost use Rattle.text_spec.specs.declared.fault.LineFault.TheVariants as line_faults;
ghost use Rattle.text_spec.specs.declared.fault.TextFault.TheVariants as text_faults;

use ids_types::NoMemory;
use std::alloc::AllocFailed;

/// Why a line of a text was not taken.
#[derive(Clone, Copy, Debug, PartialEq, Eq)]
pub enum LineFault {
    /// The number of the line's first fault.
    Fault(u8),
    NoMemory,
}

impl From<u8> for LineFault {
    ghost from_gives = { λ number answer. answer ≡ line_faults.Fault number };

    fn from(number: u8) -> Self {
        LineFault::Fault(number)
    }
}

impl From<NoMemory> for LineFault {
    ghost from_gives = { λ _ answer. answer ≡ line_faults.NoMemory };

    fn from(_: NoMemory) -> Self {
        LineFault::NoMemory
    }
}

impl<T: Drop> From<AllocFailed<T>> for LineFault {
    ghost from_gives = { λ _ answer. answer ≡ line_faults.NoMemory };

    fn from(_: AllocFailed<T>) -> Self {
        LineFault::NoMemory
    }
}

/// Why no text was read.
#[derive(Clone, Copy, Debug, PartialEq, Eq)]
pub enum TextFault {
    /// The first bad line, from 1, and the number of its first fault.
    Line { line: u64, number: u8 },
    /// The allocator had no room.
    NoMemory,
}

impl From<NoMemory> for TextFault {
    ghost from_gives = { λ _ answer. answer ≡ text_faults.NoMemory };

    fn from(_: NoMemory) -> Self {
        TextFault::NoMemory
    }
}
