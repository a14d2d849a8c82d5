//! The steps of a search for the first fault.

ghost use Rattle.std.specs.Prelude.{◌≡◌};
ghost use Rattle.ids_config.specs.Steps.{at as at_place, asks as fault_unless, capped as capped_index};

use crate::fault::{ConfigFault, ConfigPlace};

/// The fault of this number, unless the condition holds.
pub fn asks(number: u8, holds: bool) -> Result<(), u8>
    ensures { result ≡ fault_unless number holds }
{
    if holds { Ok(()) } else { Err(number) }
}

/// What was found within one place.
pub fn at(place: ConfigPlace, found: Result<(), u8>) -> Result<(), ConfigFault>
    ensures { result ≡ at_place place found }
{
    match found {
        Ok(()) => Ok(()),
        Err(number) => Err(ConfigFault { number, place }),
    }
}

/// The index as places name it: 2^32 - 1 stands for every greater one.
pub fn capped(index: usize) -> u32
    ensures { result ≡ capped_index index }
{
    if index < 4_294_967_295 {
        index as u32
    } else {
        4_294_967_295
    }
}
