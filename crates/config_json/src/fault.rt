//! Why bytes are no configuration.

ghost use Rattle.std.specs.Prelude.{◌≡◌};
ghost use Rattle.config_json.specs.declared.fault.JsonFault.TheVariants as faults;

use ids_config::ConfigFault;
use std::alloc::AllocError;

/// Why no configuration was read.
#[derive(Clone, Copy, Debug, PartialEq, Eq)]
pub enum JsonFault {
    /// The bytes have no configuration; this is the first fault, 1 to 26.
    Config(ConfigFault),
    /// The allocator had no room.
    NoMemory,
}

impl From<ConfigFault> for JsonFault {
    ghost from_gives = { λ fault answer. answer ≡ faults.Config fault };

    fn from(fault: ConfigFault) -> Self {
        JsonFault::Config(fault)
    }
}

impl From<AllocError> for JsonFault {
    ghost from_gives = { λ _ answer. answer ≡ faults.NoMemory };

    fn from(_: AllocError) -> Self {
        JsonFault::NoMemory
    }
}
