//! Keys, and the tags that they make.
ghost use Rattle.std.specs.Prelude.{◌≡◌, ◌++◌, ◌≤◌, ◌↔◌, length, drop, IsSome, IfSome};
ghost use Rattle.sha2.specs.Hashers.{Holds256};
ghost use Rattle.frame_auth.specs.Tags.{IsKeyLength, filled, masked, hmac};

use sha2::{Digest, Sha256};
use std::marker::Model;

/// How many bytes SHA-256 takes at once.
const BLOCK: usize = 64;

/// What each byte of the key is combined with, for the digest of the bytes and for that of the digest.
const INNER: u8 = 0x36;

const OUTER: u8 = 0x5c;

/// A key of 1 to 64 bytes, filled with zeros to 64. So keys that differ in zeros at the end alone
/// are one key, as RFC 2104 has it. It keeps the two digests that have taken it in, which every tag
/// goes on from.
#[derive(Drop)]
pub struct Key {
    block: [u8; BLOCK],
    inner: Sha256,
    outer: Sha256,
}

impl Model for Key {
    ghost use Rattle.std.specs.Prelude.{ℕ, List};
    ghost use Rattle.frame_auth.specs.Tags.{IsTakenIn};

    ghost Value = { List ℕ };

    ghost view = { λ key. key.block };

    ghost invariant = { IsTakenIn };
}

impl Key {
    /// The key of these bytes, `None` where there are none or more than 64.
    /// Steps: at most 64 bytes, and two blocks. By: `some`; read off.
    pub fn make(bytes: &[u8]) -> Option<Key>
        ensures some { IsSome result ↔ IsKeyLength (length bytes.now) }
        ensures made { IfSome result (λ key. key ≡ filled bytes.now) }
    {
        if bytes.is_empty() || bytes.len() > BLOCK {
            return None;
        }
        let mut block = [0; BLOCK];
        put_front(&mut block, bytes);
        Some(Key {
            block,
            inner: taken_in(block, INNER),
            outer: taken_in(block, OUTER),
        })
    }
}

fn put_front(block: &mut [u8], bytes: &[u8])
    requires { length bytes.now ≤ length block.old }
    ensures { block.new ≡ bytes.now ++ drop (length bytes.now) block.old }
{
    block[..bytes.len()].copy_from_slice(bytes);
}

/// A digest that has taken in the block, masked.
#[tactic(auto, using(crate::proofs::LayoutLemmas::mask_more))]
fn taken_in(block: [u8; BLOCK], mask: u8) -> Sha256
    ensures { Holds256 result (masked mask block) }
{
    let mut bytes = block;
    for byte in &mut bytes {
        *byte ^= mask;
    }
    Sha256::new_with_prefix(&bytes)
}

/// The tag of `front` and then `back` under the key: HMAC with SHA-256.
/// Steps: the bytes of both pieces, and two or three blocks of 64 bytes. By: read off.
pub fn tag(key: &Key, front: &[u8], back: &[u8]) -> [u8; 32]
    ensures { result ≡ hmac key.now (front.now ++ back.now) }
{
    let mut inner = key.inner.clone().unwrap();
    inner.update(front);
    inner.update(back);
    let mut outer = key.outer.clone().unwrap();
    outer.update(&inner.finalize());
    outer.finalize()
}
