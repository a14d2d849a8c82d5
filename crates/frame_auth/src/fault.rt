//! Why messages are not sealed, or not unsealed.
ghost use Rattle.std.specs.Prelude.{◌≡◌};
ghost use Rattle.frame_auth.specs.declared.fault.SealFault.TheVariants as seals;
ghost use Rattle.frame_auth.specs.declared.fault.SealIntoFault.TheVariants as into;
ghost use Rattle.frame_auth.specs.declared.fault.UnsealFault.TheVariants as unseals;

use ids_frame::BadMessage;
use std::alloc::AllocError;

/// Why messages are not sealed: the first fault, by how many bytes stand before its message.
#[derive(Clone, Copy, Debug, PartialEq, Eq)]
pub enum SealFault {
    /// A message cannot be read.
    Bad(BadMessage),
    /// A message has a signature part already.
    Signed { at: usize },
    /// The allocator had no room.
    NoMemory,
}

impl From<BadMessage> for SealFault {
    ghost from_gives = { λ bad fault. fault ≡ seals.Bad bad };

    fn from(bad: BadMessage) -> Self {
        SealFault::Bad(bad)
    }
}

impl From<AllocError> for SealFault {
    ghost from_gives = { λ _ fault. fault ≡ seals.NoMemory };

    fn from(_: AllocError) -> Self {
        SealFault::NoMemory
    }
}

/// Why messages are not sealed into a buffer.
#[derive(Clone, Copy, Debug, PartialEq, Eq)]
pub enum SealIntoFault {
    /// The first counter is above 2^62.
    Start,
    /// The messages are not sealed, and why. This is never `NoMemory`.
    Messages(SealFault),
    /// The buffer has fewer bytes than are needed, which are so many; 2^64 - 1 stands for more, too.
    Short { wanted: usize },
}

impl From<SealFault> for SealIntoFault {
    ghost from_gives = { λ told fault. fault ≡ into.Messages told };

    fn from(fault: SealFault) -> Self {
        SealIntoFault::Messages(fault)
    }
}

/// Why messages are not unsealed: the first fault, by how many bytes stand before its message.
#[derive(Clone, Copy, Debug, PartialEq, Eq)]
pub enum UnsealFault {
    /// A message cannot be read.
    Bad(BadMessage),
    /// A message has no signature part, or one that is not its seal under the key.
    Tag { at: usize },
    /// A message is sealed, with another counter than the one that is due.
    Counter { at: usize },
    /// The allocator had no room.
    NoMemory,
}

impl From<BadMessage> for UnsealFault {
    ghost from_gives = { λ bad fault. fault ≡ unseals.Bad bad };

    fn from(bad: BadMessage) -> Self {
        UnsealFault::Bad(bad)
    }
}

impl From<AllocError> for UnsealFault {
    ghost from_gives = { λ _ fault. fault ≡ unseals.NoMemory };

    fn from(_: AllocError) -> Self {
        UnsealFault::NoMemory
    }
}
