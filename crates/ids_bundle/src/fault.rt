//! Why messages are not packed, and units not unpacked.

ghost use Rattle.std.specs.Prelude.{◌≡◌};
ghost use Rattle.ids_bundle.specs.declared.fault.PackFault.TheVariants as packing;
ghost use Rattle.ids_bundle.specs.declared.fault.UnpackFault.TheVariants as unpacking;
ghost use Rattle.ids_bundle.specs.declared.fault.UnitFault.TheVariants as putting;

use ids_frame::BadMessage;
use std::alloc::AllocError;

/// Why messages were not packed. Each message before the place fits into a unit.
#[derive(Clone, Copy, Debug, PartialEq, Eq)]
pub enum PackFault {
    /// A message cannot be read.
    Bad(BadMessage),
    /// The message after so many bytes is longer than a unit may be.
    TooLarge { at: usize },
    /// The allocator had no room.
    NoMemory,
}

impl From<AllocError> for PackFault {
    ghost from_gives = { λ _ fault. fault ≡ packing.NoMemory };

    fn from(_: AllocError) -> Self {
        PackFault::NoMemory
    }
}

/// Why no unit was put into a buffer.
#[derive(Clone, Copy, Debug, PartialEq, Eq)]
pub enum UnitFault {
    /// The size is below 64.
    SmallSize,
    /// There are no messages.
    NoMessages,
    /// The first message cannot be read, or is longer than the size. This is never `NoMemory`.
    First(PackFault),
    /// The buffer has fewer bytes than the unit, which needs so many.
    Short { wanted: usize },
}

impl From<PackFault> for UnitFault {
    ghost from_gives = { λ first fault. fault ≡ putting.First first };

    fn from(first: PackFault) -> Self {
        UnitFault::First(first)
    }
}

/// Why units were not unpacked. Before the place there are units.
#[derive(Clone, Copy, Debug, PartialEq, Eq)]
pub enum UnpackFault {
    /// What begins after so many bytes is whole and no unit.
    Bad { at: usize },
    /// What begins after so many bytes ends before a unit does.
    Cut { at: usize },
    /// The allocator had no room.
    NoMemory,
}

impl From<AllocError> for UnpackFault {
    ghost from_gives = { λ _ fault. fault ≡ unpacking.NoMemory };

    fn from(_: AllocError) -> Self {
        UnpackFault::NoMemory
    }
}
