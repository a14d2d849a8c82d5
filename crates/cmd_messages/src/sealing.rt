//! The commands `sign` and `verify`: messages with a counter and a tag, and without them again.

ghost use Rattle.std.specs.Prelude.{◌^◌, ◌≡◌, ◌≤◌};
ghost use Rattle.cmd_steps.specs.Words.{EndsAs, Judges, List, Makes, Reads, key_judged, keyed_in, keyed_of, length, plain_end, seals, seen_as, sign as sign_command, task_stop, unseal_refusal, unseals, verify as verify_command, ℕ};

use crate::Line;
use cmd_files::{MAX_KEY_BYTES, MAX_MESSAGES_BYTES, MAX_SEALED_BYTES, Refusal, Stop, read_file};
use cmd_steps::{Made, write_made};
use cmd_words::KeyedNames;
use frame_auth::{Key, SealFault, UnsealFault, seal, unseal};
use ids_outside::Shelf;
use std::alloc::Global;

/// How many bytes a seal adds to a message: two of its length, a counter of 8 and a tag of 32.
const SEAL_BYTES: usize = 42;

/// Adds a counter and a tag to each message of a file, and returns the line that counts them.
/// Steps: KEY and MESSAGES read, as `frame_auth::seal` and `count` of the sealed, and one file written. Memory: may
/// answer want of memory. Waits: as its shelf. By: `EndsAs`; read off.
pub fn sign<'a, H: Shelf>(alloc: Global, names: KeyedNames<'a>, shelf: &mut H) -> Line<'a>
    requires { names.start ≤ 2 ^ 62 }
    ensures { EndsAs (sign_command (keyed_of names.entry)) (plain_end result) (H.shows shelf.old) (H.shows shelf.new) }
{
    let (key, bytes) = read_keyed(alloc, names, MAX_MESSAGES_BYTES, shelf)?;
    let made = make_sealed(alloc, &key, names.start, &bytes);
    write_made(names.files.target, made, shelf)
}

/// Checks the counter and the tag of each message of a file, takes them off, and returns the line that counts the
/// messages.
/// Steps: KEY and SIGNED read, as `frame_auth::unseal`, and one file written. Memory: may answer want of memory.
/// Waits: as its shelf. By: `EndsAs`; read off.
pub fn verify<'a, H: Shelf>(alloc: Global, names: KeyedNames<'a>, shelf: &mut H) -> Line<'a>
    requires { names.start ≤ 2 ^ 62 }
    ensures { EndsAs (verify_command (keyed_of names.entry)) (plain_end result) (H.shows shelf.old) (H.shows shelf.new) }
{
    let (key, bytes) = read_keyed(alloc, names, MAX_SEALED_BYTES, shelf)?;
    let made = make_unsealed(alloc, &key, names.start, &bytes);
    write_made(names.files.target, made, shelf)
}

/// Reads a key and then the other file; the key is judged before that is read.
fn read_keyed<'a, H: Shelf>(
    alloc: Global,
    names: KeyedNames<'a>,
    limit: u64,
    shelf: &mut H,
) -> Result<(Key, Vec<u8>), Stop<&'a str>>
    ensures { Reads (keyed_in limit (keyed_of names.entry)) (seen_as (λ read. record { key = read.0; bytes = read.1.items }) result)
        (H.shows shelf.old) (H.shows shelf.new) }
{
    let text = read_file(alloc, names.key, MAX_KEY_BYTES, shelf)?;
    let key = judge_key(&text)?;
    let bytes = read_file(alloc, names.files.source, limit, shelf)?;
    Ok((key, bytes))
}

/// The key that the bytes of a file are.
fn judge_key<'a>(text: &[u8]) -> Result<Key, Stop<&'a str>>
    requires { length text.now ≤ 64 }
    ensures { Judges (key_judged text.now) (seen_as (λ key. key) result) }
{
    match Key::make(text) {
        Some(key) => Ok(key),
        None => Err(Stop::Refused(Refusal::EmptyKey)),
    }
}

/// The messages, sealed, and their line.
#[tactic(auto, using(crate::proofs::CopyLemmas::sealed_length))]
fn make_sealed<'a>(
    alloc: Global,
    key: &Key,
    start: u64,
    messages: &[u8],
) -> Result<Made, Stop<&'a str>>
    requires { start ≤ 2 ^ 62 }
    ensures { (target : List ℕ) → Makes (seals target key.now start messages.now) target result }
{
    match seal(alloc, key, start, messages) {
        Ok(bytes) => {
            let count = (bytes.len() - messages.len()) / SEAL_BYTES;
            let line = format!(in alloc; "signed {count}\n")?;
            let line = line.into_bytes();
            Ok(Made { bytes, line })
        }
        Err(SealFault::Bad(bad)) => Err(Stop::Refused(Refusal::BadMessages(bad))),
        Err(SealFault::Signed { at }) => Err(Stop::Refused(Refusal::Signed { at: at as u64 })),
        Err(SealFault::NoMemory) => Err(Stop::NoMemory),
    }
}

/// The messages without their seals, and their line.
#[tactic(auto, using(crate::proofs::CopyLemmas::sealed_length))]
fn make_unsealed<'a>(
    alloc: Global,
    key: &Key,
    start: u64,
    sealed: &[u8],
) -> Result<Made, Stop<&'a str>>
    requires { start ≤ 2 ^ 62 }
    ensures { (target : List ℕ) → Makes (unseals target key.now start sealed.now) target result }
{
    match unseal(alloc, key, start, sealed) {
        Ok(bytes) => {
            let count = (sealed.len() - bytes.len()) / SEAL_BYTES;
            let line = format!(in alloc; "verified {count}\n")?;
            let line = line.into_bytes();
            Ok(Made { bytes, line })
        }
        Err(fault) => Err(unseal_stop(fault)),
    }
}

fn unseal_stop<'a>(fault: UnsealFault) -> Stop<&'a str>
    ensures { result ≡ task_stop (unseal_refusal fault) }
{
    match fault {
        UnsealFault::Bad(bad) => Stop::Refused(Refusal::BadMessages(bad)),
        UnsealFault::Tag { at } => Stop::Refused(Refusal::BadTag { at: at as u64 }),
        UnsealFault::Counter { at } => Stop::Refused(Refusal::BadCounter { at: at as u64 }),
        UnsealFault::NoMemory => Stop::NoMemory,
    }
}
