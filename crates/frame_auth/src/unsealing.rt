//! Unsealing messages.
ghost use Rattle.std.specs.Prelude.{◌≡◌, ◌⊎◌, ◌↔◌, ◌++◌, ◌^◌, ◌≤◌, ℕ, IfOk, IfErr, OnOk, ◌≢◌, IfSome, IfNone, Some, option_copied, IsTrue, length};
ghost use Rattle.frame_auth.specs.{GivesUnsealed, StopsUnseal, Moves, CanUnmark, unmarked, sealed, seal_of};

use crate::fault::UnsealFault;
use crate::key::{Key, tag};
use crate::sealing::{SEALED_PART, SIGNATURE_BIT, first_message};
use std::alloc::{AllocError, Global};

/// The messages that were sealed with the counters `start`, `start + 1` and so on, without their
/// seals, or the first fault. Of one message the faults are sought in the order of the variants.
/// Steps: as `seal`. Memory: may answer want of memory. By: `found`; read off.
pub fn unseal(alloc: Global, key: &Key, start: u64, sealed: &[u8]) -> Result<Vec<u8>, UnsealFault>
    requires { start ≤ 2 ^ 62 }
    ensures found { IfOk result (λ out. GivesUnsealed key.now start sealed.now (Ok out.items)) }
    ensures place { IfErr result (λ fault. (fault ≡ UnsealFault.NoMemory) ⊎ GivesUnsealed key.now start sealed.now (Err fault)) }
{
    let mut out = Vec::new(alloc);
    let mut rest = sealed;
    let mut due = start;
    while !rest.is_empty() {
        let at = sealed.len() - rest.len();
        rest = unseal_first(&mut out, key, due, rest, at)?;
        due += 1;
    }
    Ok(out)
}

// Appends the first message without its seal, and answers the bytes after it.
#[tactic(auto, using(crate::proofs::LayoutLemmas::unsealing))]
fn unseal_first<'a>(
    out: &mut Vec<u8>,
    key: &Key,
    due: u64,
    rest: &'a [u8],
    at: usize,
) -> Result<&'a [u8], UnsealFault>
    ensures found { IfOk result (λ behind. Moves (sealed key.now due) (λ m. m) rest.now behind.now out.old.items out.new.items) }
    ensures place { IfErr result (λ fault. (fault ≡ UnsealFault.NoMemory) ⊎ StopsUnseal key.now due fault at rest.now) }
{
    let (message, spelled, behind) = first_message(rest, at)?;
    let Some((counter, told)) = seal_in(message.signature()) else {
        return Err(UnsealFault::Tag { at });
    };
    let from = out.len();
    push_bare(out, spelled)?;
    let (_, plain) = out.split_at(from);
    let Some(counter) = counter_of(key, plain, counter, told) else {
        return Err(UnsealFault::Tag { at });
    };
    if counter != due {
        return Err(UnsealFault::Counter { at });
    }
    Ok(behind)
}

// The counter and the tag of a signature part that has as many bytes as a seal.
fn seal_in(signature: Option<&[u8]>) -> Option<(&[u8; 8], &[u8; 32])>
    ensures some { IfSome result (λ seal. let part = seal.0.now ++ seal.1.now in
        (option_copied signature.entry ≡ Some part) × (length part ≡ 40)) }
    ensures none { IfNone result (IfSome (option_copied signature.entry) (λ bytes. length bytes ≢ 40)) }
{
    let (counter, rest) = signature?.split_first_chunk()?;
    Some((counter, rest.as_array()?))
}

// Appends the message of this spelling without its signature part.
fn push_bare(out: &mut Vec<u8>, signed: &[u8]) -> Result<(), AllocError>
    requires { CanUnmark signed.now }
    ensures { OnOk result (out.new.items ≡ out.old.items ++ unmarked signed.now) }
{
    let [first, rest @ ..] = signed else {
        unreachable!()
    };
    out.push(*first - SIGNATURE_BIT)?;
    out.extend_from_slice(&rest[..rest.len() - SEALED_PART])
}

// The counter, where these eight bytes and this tag are the seal of a spelling.
#[tactic(auto, using(crate::proofs::LayoutLemmas::telling))]
fn counter_of(key: &Key, plain: &[u8], counter: &[u8; 8], told: &[u8; 32]) -> Option<u64>
    ensures some { IfSome result (λ count. counter.now ++ told.now ≡ seal_of key.now count plain.now) }
    ensures none { IfNone result ((count : ℕ) → counter.now ++ told.now ≡ seal_of key.now count plain.now → ⊥) }
{
    if are_same(told, &tag(key, plain, counter)) {
        Some(u64::from_be_bytes(*counter))
    } else {
        None
    }
}

// Whether two tags are the same. It looks at all bytes of both, also after one that differs.
#[tactic(auto, using(crate::proofs::LayoutLemmas::comparing))]
fn are_same(a: &[u8; 32], b: &[u8; 32]) -> bool
    ensures { IsTrue result ↔ (a.now ≡ b.now) }
{
    let mut found = 0;
    for i in 0..32 {
        found |= a[i] ^ b[i];
    }
    found == 0
}
