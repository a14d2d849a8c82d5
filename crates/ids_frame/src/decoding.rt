//! The message that bytes begin with.
ghost use Rattle.std.specs.Prelude.{◌≡◌, ℕ, ◌/◌, ◌↔◌, ◌++◌, List};
ghost use Rattle.std.specs.Result.{result_map_both};
ghost use Rattle.ids_frame.specs.{AreBytes, MessageParts, IsKnown, FitsMessage, spelling, Gives, parts_at, Begun, message_at, Begins, decoded};

use crate::fault::FrameFault;
use crate::message::{Message, is_known};
use crate::reading::{context_of, signature_of, stamp_of, u8_of, u16_of};

/// The message whose spelling the bytes begin with, and how many bytes that spelling has. What
/// stands after them is not looked at. The message's context and signature are slices of `bytes`.
/// By: no loop; context and signature are lent.
#[inline(always)]
pub fn decode(bytes: &[u8]) -> Result<(Message<'_>, usize), FrameFault>
    ensures { result ≡ decoded bytes.now }
{
    let (message, _) = message_of(bytes)?;
    let size = message.spelling_len() as usize;
    Ok((message, size))
}

/// A message is read exactly where its spelling stands at the front, whatever follows it, and each
/// fault exactly where it has its cause.
#[tactic(auto, using(crate::proofs::MessageLemmas::read_is_begun))]
pub fn what_bytes_begin_with()
    ensures { (bytes : List ℕ) (read : Begun) → AreBytes bytes →
        (message_at bytes ≡ read) ↔ Begins bytes read }
{}

/// No spelling begins another: what begins with two messages' spellings has one message at its
/// front, and the same bytes after it.
#[tactic(auto, using(crate::proofs::MessageLemmas::one_message_lem))]
pub fn one_message()
    ensures { (m n : MessageParts) (a b : List ℕ) → FitsMessage m → FitsMessage n
        → spelling m ++ a ≡ spelling n ++ b → (m ≡ n) × (a ≡ b) }
{}

/// The message at the front, and the bytes after it. Inlined, so that whoever wants only the bytes
/// makes no message.
#[inline(always)]
#[tactic(auto, unfolding(crate::specs::Reading::message_at))]
pub(crate) fn message_of(bytes: &[u8]) -> Result<(Message<'_>, &[u8]), FrameFault>
    ensures { message_at bytes.now
        ≡ result_map_both (λ x. (x.0, x.1.now)) (λ fault. fault) result }
{
    let [first, rest @ ..] = bytes else {
        return Err(FrameFault::Short);
    };
    if !is_known(*first / 16) {
        return Err(FrameFault::UnknownVersion);
    }
    if *first / 8 % 2 == 1 {
        return Err(FrameFault::UnknownPart);
    }
    parts_of(*first, rest).ok_or(FrameFault::Short)
}

#[inline(always)]
#[tactic(auto, unfolding(crate::specs::Reading::parts_at))]
fn parts_of(first: u8, bytes: &[u8]) -> Option<(Message<'_>, &[u8])>
    requires { IsKnown (first / 16) }
    ensures { Gives (λ x. (x.0, x.1.now)) result (parts_at first bytes.now) }
{
    let (place, rest) = u16_of(bytes)?;
    let (event, rest) = u16_of(rest)?;
    let (count, rest) = u16_of(rest)?;
    let (reserved, rest) = u8_of(rest)?;
    let (stamp, rest) = stamp_of(first, rest)?;
    let (context, rest) = context_of(first, rest)?;
    let (signature, rest) = signature_of(first, rest)?;
    let (instance, sensor) = (place / 64, (place % 64) as u8);
    let message = Message::make(
        first / 16,
        instance,
        sensor,
        event,
        count,
        reserved,
        stamp,
        context,
        signature,
    );
    Some((message.unwrap(), rest))
}
