//! Sealing messages.
ghost use Rattle.std.specs.Prelude.{◌≡◌, ◌⊎◌, ◌++◌, ◌+◌, ◌^◌, ◌≤◌, ℕ, List, length, IfOk, IfErr};
ghost use Rattle.ids_frame.specs.{MessageParts, joined, spelling, BeginsWith};
ghost use Rattle.frame_auth.specs.{CannotRead, GivesSealed, StopsBehind, StopsSeal, CanMark, IsPlain, IsWritten, IsSealedInto, HasSealedLength, LacksSealed, sealed_bytes};

use crate::fault::{SealFault, SealIntoFault};
use crate::key::{Key, tag};
use ids_frame::{BadMessage, Message, decode};
use std::alloc::Global;

/// The bit of a message's first byte that announces a signature part.
pub(crate) const SIGNATURE_BIT: u8 = 4;

/// How many bytes a seal has: a counter of 8 and a tag of 32.
pub(crate) const SEAL_LEN: u16 = 40;

/// How many bytes a message has more when it is sealed: two for the length of the seal, and the seal.
pub(crate) const SEALED_PART: usize = 42;

/// The greatest counter that sealing begins with.
const MOST_START: u64 = 1 << 62;

/// What was put into a buffer: how many bytes, at the front, and the counter that is due next.
#[derive(Clone, Copy, Debug, PartialEq, Eq)]
pub struct SealedPut {
    pub bytes: usize,
    pub next: u64,
}

/// The messages, sealed one by one with the counters `start`, `start + 1` and so on, or the first
/// fault. Of one message, that it cannot be read is told before that it is signed.
/// Steps: each message read twice and copied once, its bytes digested once, and two or three blocks of 64 bytes a
/// message. Memory: may answer want of memory. By: `found`; read off.
pub fn seal(alloc: Global, key: &Key, start: u64, messages: &[u8]) -> Result<Vec<u8>, SealFault>
    requires { start ≤ 2 ^ 62 }
    ensures found { IfOk result (λ out. GivesSealed key.now start messages.now (Ok out.items)) }
    ensures place { IfErr result (λ fault. (fault ≡ SealFault.NoMemory) ⊎ GivesSealed key.now start messages.now (Err fault)) }
{
    let len = sealed_len(messages)?;
    let mut out = Vec::new(alloc);
    out.resize(len, 0)?;
    seal_all(key, start, messages, &mut out);
    Ok(out)
}

/// As `seal`, to the front of a buffer: all messages, sealed, and the counter that is due next. The bytes behind them
/// stay, and where it answers a fault all do. The faults are sought in the order of the variants. It takes no memory.
/// Steps: as `seal`. By: read off.
pub fn seal_into(
    key: &Key,
    start: u64,
    messages: &[u8],
    buffer: &mut [u8],
) -> Result<SealedPut, SealIntoFault>
    ensures put { IfOk result (IsSealedInto key.now start messages.now buffer.old buffer.new) }
    ensures lacks { IfErr result (LacksSealed key.now start (length buffer.old) messages.now) }
    ensures nothing { IfErr result (λ _. buffer.new ≡ buffer.old) }
{
    if start > MOST_START {
        return Err(SealIntoFault::Start);
    }
    let wanted = sealed_len(messages)?;
    if buffer.len() < wanted {
        return Err(SealIntoFault::Short { wanted });
    }
    Ok(seal_all(key, start, messages, buffer))
}

/// How many bytes the messages have when they are sealed, or the first fault.
fn sealed_len(messages: &[u8]) -> Result<usize, SealFault>
    ensures len { IfOk result (λ len. (key : List ℕ) (start : ℕ) → HasSealedLength key start messages.now len) }
    ensures stops { IfErr result (λ fault. StopsBehind joined (λ at count. StopsSeal fault at) messages.now) }
{
    let mut len = messages.len();
    let mut rest = messages;
    while !rest.is_empty() {
        rest = behind_plain(rest, messages.len() - rest.len())?;
        len = len.saturating_add(SEALED_PART);
    }
    Ok(len)
}

/// The bytes after the message at the front, which has no signature part. `at` is where the bytes stand.
#[tactic(auto, using(crate::proofs::LayoutLemmas::unsigned))]
fn behind_plain(bytes: &[u8], at: usize) -> Result<&[u8], SealFault>
    ensures plain { IfOk result (λ behind. (m : MessageParts) × IsPlain m × (bytes.now ≡ spelling m ++ behind.now)) }
    ensures stops { IfErr result (λ fault. StopsSeal fault at bytes.now) }
{
    let (message, _, behind) = first_message(bytes, at)?;
    if message.signature().is_some() {
        return Err(SealFault::Signed { at });
    }
    Ok(behind)
}

/// Puts plain messages, sealed, to the front of a buffer that has room for them.
fn seal_all(key: &Key, start: u64, messages: &[u8], buffer: &mut [u8]) -> SealedPut
    requires start { start ≤ 2 ^ 62 }
    requires room { (len : ℕ) × HasSealedLength key.now start messages.now len × (len ≤ length buffer.old) }
    ensures { IsSealedInto key.now start messages.now buffer.old buffer.new result }
{
    let mut rest = messages;
    let mut due = start;
    let mut end = 0;
    while !rest.is_empty() {
        let Ok((_, spelled, behind)) = first_message(rest, 0) else {
            unreachable!()
        };
        end = write_sealed(buffer, end, key, due, spelled);
        rest = behind;
        due += 1;
    }
    SealedPut {
        bytes: end,
        next: due,
    }
}

/// Writes the message of this spelling, sealed, at a place, and returns where it ends.
fn write_sealed(buffer: &mut [u8], at: usize, key: &Key, counter: u64, plain: &[u8]) -> usize
    requires mark { CanMark plain.now }
    requires room { at + length plain.now + 42 ≤ length buffer.old }
    ensures { (front old : List ℕ) → IsWritten at front old buffer.old
        → IsWritten result (front ++ sealed_bytes key.now counter plain.now) old buffer.new }
{
    let [first, rest @ ..] = plain else {
        unreachable!()
    };
    let counter = counter.to_be_bytes();
    let end = write(buffer, at, &[*first + SIGNATURE_BIT]);
    let end = write(buffer, end, rest);
    let end = write(buffer, end, &SEAL_LEN.to_be_bytes());
    let end = write(buffer, end, &counter);
    write(buffer, end, &tag(key, plain, &counter))
}

/// Writes bytes at a place, and returns where they end.
fn write(buffer: &mut [u8], at: usize, bytes: &[u8]) -> usize
    requires { at + length bytes.now ≤ length buffer.old }
    ensures end { result ≡ at + length bytes.now }
    ensures written { (front old : List ℕ) → IsWritten at front old buffer.old
        → IsWritten result (front ++ bytes.now) old buffer.new }
{
    let end = at + bytes.len();
    buffer[at..end].copy_from_slice(bytes);
    end
}

/// The message at the front, its spelling, and the bytes after it. `at` is where the bytes stand.
pub(crate) fn first_message(
    bytes: &[u8],
    at: usize,
) -> Result<(Message<'_>, &[u8], &[u8]), BadMessage>
    ensures begins { IfOk result (λ x. BeginsWith bytes.now x.0 x.2.now) }
    ensures spelled { IfOk result (λ x. x.1.now ≡ spelling x.0) }
    ensures bad { IfErr result (λ bad. CannotRead bad at bytes.now) }
{
    match decode(bytes) {
        Ok((message, size)) => {
            let (spelled, behind) = bytes.split_at(size);
            Ok((message, spelled, behind))
        }
        Err(fault) => Err(BadMessage { at, fault }),
    }
}
