//! Why steps were not made.

ghost use Rattle.std.specs.Prelude.{◌≡◌};
ghost use Rattle.ring_core.specs.declared.fault.RunFault.TheVariants.{NoMemory as OutOfMemory};

use crate::memory::NoMemory;

/// Why a list of steps was not run to its end.
#[derive(Clone, Copy, Debug, PartialEq, Eq)]
pub enum RunFault {
    /// This step, counted from 0, is the first that is not possible.
    NotPossible { at: usize },
    NoMemory,
}

impl From<NoMemory> for RunFault {
    ghost from_gives = { λ _ fault. fault ≡ OutOfMemory };

    fn from(_: NoMemory) -> Self {
        RunFault::NoMemory
    }
}
