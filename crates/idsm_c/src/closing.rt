//! How what a handle has is freed.
ghost use Rattle.std.specs.Prelude.{◌≡◌};
ghost use Rattle.idsm_c.specs.Closing.{Closes};

use crate::handle::Handle;
use idsm_api::Answer;
use std::alloc::Global;

/// Frees what the handle has. What callers and a manager share is freed with the last of them.
/// Steps: as the drop of what the handle has. Memory: gives back. By: `Closes`; read off.
#[unsafe(no_mangle)]
pub extern "C" fn idsm_raw_close(alloc: Global, handle: &mut Handle) -> u8
    ensures { Closes handle.old.content result handle.new.content }
{
    match handle.take(alloc) {
        None => Answer::Unset.code(),
        Some(_) => Answer::Done.code(),
    }
}

/// The number of this interface.
#[unsafe(no_mangle)]
pub extern "C" fn idsm_raw_abi() -> u32
    ensures { result ≡ 4 }
{
    4
}
