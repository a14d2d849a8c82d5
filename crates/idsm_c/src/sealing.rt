//! Messages sealed under a key, each with a counter.
ghost use Rattle.std.specs.Prelude.{◌≡◌, ◌≤◌, ◌↔◌, length, Err, IsTrue};
ghost use Rattle.frame_auth.specs.Tags.{filled};
ghost use Rattle.idsm_c.specs.Sealing.{CanSeal, Fills, Seals, seal_told};

use frame_auth::{Key, SealFault, SealIntoFault, seal_into};
use idsm_api::Answer;

/// The greatest counter that sealing begins with.
const MOST_START: u64 = 1 << 62;

/// The counter of the next message, and the key, filled with zeros. C keeps it; it is zeros before it is filled.
#[repr(C)]
#[derive(Clone, Copy)]
pub struct Sealer {
    pub next: u64,
    pub key: [u8; 64],
    pub is_set: u8,
}

// Whether so many bytes make a key, and sealing may begin with this counter.
fn can_seal(bytes: usize, start: u64) -> bool
    ensures { IsTrue result ↔ CanSeal bytes start }
{
    bytes > 0 && bytes <= 64 && start <= MOST_START
}

// A key, filled with zeros.
fn filled(key: &[u8]) -> [u8; 64]
    requires { length key.now ≤ 64 }
    ensures { result ≡ filled key.now }
{
    let mut block = [0; 64];
    block[..key.len()].copy_from_slice(key);
    block
}

/// Fills a sealer with a key of 1 to 64 bytes and a counter of at most 2^62.
/// Steps: at most 64 bytes. By: `Fills`; read off.
#[unsafe(no_mangle)]
pub extern "C" fn idsm_raw_sealer(key: &[u8], start: u64, sealer: &mut Sealer) -> u8
    ensures { Fills key.now start sealer.old result sealer.new }
{
    if !can_seal(key.len(), start) {
        return Answer::OutOfRange.code();
    }
    *sealer = Sealer {
        next: start,
        key: filled(key),
        is_set: 1,
    };
    Answer::Done.code()
}

// What is told where nothing was sealed.
fn refused(fault: SealIntoFault) -> (Answer, u64)
    ensures { result ≡ seal_told (Err fault) }
{
    match fault {
        SealIntoFault::Start => (Answer::OutOfRange, 0),
        SealIntoFault::Messages(SealFault::Bad(bad)) => (Answer::BadMessage, bad.at as u64),
        SealIntoFault::Messages(SealFault::Signed { at }) => (Answer::BadMessage, at as u64),
        SealIntoFault::Messages(SealFault::NoMemory) => (Answer::NoMemory, 0),
        SealIntoFault::Short { wanted } => (Answer::SmallBuffer, wanted as u64),
    }
}

/// Seals messages to the front of the buffer, with the counters that are due, and tells how many bytes they have. If it
/// answers anything but done, neither the sealer nor the buffer is changed. It tells how many bytes are needed where the
/// buffer is too small, and how many stand before a message that is not sealed.
/// Steps: as `frame_auth::Key::make` and `seal_into`. By: `Seals`.
#[unsafe(no_mangle)]
pub extern "C" fn idsm_raw_seal(
    sealer: &mut Sealer,
    messages: &[u8],
    buffer: &mut [u8],
    bytes: &mut u64,
) -> u8
    ensures { Seals sealer.old messages.now buffer.old result bytes.new sealer.new buffer.new }
{
    *bytes = 0;
    if sealer.is_set == 0 {
        return Answer::Unset.code();
    }
    let Some(key) = Key::make(&sealer.key) else {
        unreachable!()
    };
    match seal_into(&key, sealer.next, messages, buffer) {
        Ok(put) => {
            sealer.next = put.next;
            *bytes = put.bytes as u64;
            Answer::Done.code()
        }
        Err(fault) => {
            let (answer, told) = refused(fault);
            *bytes = told;
            answer.code()
        }
    }
}
