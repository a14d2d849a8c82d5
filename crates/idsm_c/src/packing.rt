//! Units of messages, put into a buffer.
ghost use Rattle.std.specs.Prelude.{◌≡◌, Err};
ghost use Rattle.idsm_c.specs.Packing.{PutsUnit, unit_told};

use ids_bundle::{UnitFault, put_unit};
use idsm_api::Answer;

// What is told where no unit was put.
fn refused(fault: UnitFault) -> (Answer, u64)
    ensures { result ≡ unit_told (Err fault) }
{
    match fault {
        UnitFault::SmallSize | UnitFault::NoMessages => (Answer::OutOfRange, 0),
        UnitFault::First(_) => (Answer::BadMessage, 0),
        UnitFault::Short { wanted } => (Answer::SmallBuffer, wanted as u64),
    }
}

/// Puts the first unit of messages to the front of the buffer, and tells how many bytes it has, and how many bytes of
/// messages it took. If it answers anything but done, the buffer is not changed and no message was taken. It tells how many
/// bytes are needed where the buffer is too small.
/// Steps: as `ids_bundle::put_unit`. By: `PutsUnit`.
#[unsafe(no_mangle)]
pub extern "C" fn idsm_raw_unit(
    size: u16,
    messages: &[u8],
    buffer: &mut [u8],
    bytes: &mut u64,
    taken: &mut u64,
) -> u8
    ensures { PutsUnit size messages.now buffer.old result bytes.new taken.new buffer.new }
{
    *taken = 0;
    match put_unit(size, messages, buffer) {
        Ok(put) => {
            *bytes = put.unit as u64;
            *taken = put.taken as u64;
            Answer::Done.code()
        }
        Err(fault) => {
            let (answer, told) = refused(fault);
            *bytes = told;
            answer.code()
        }
    }
}
