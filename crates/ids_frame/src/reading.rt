//! The parts of a message, each read from the front of bytes, with the bytes that are left. None is
//! where the bytes end before the part does.
ghost use Rattle.std.specs.Prelude.{◌≤◌, ◌<◌, length, IfSome, option_copied};
ghost use Rattle.std.specs.Int.{w16};
ghost use Rattle.ids_frame.specs.{most_bytes, Gives, byte_at, number_at, has, optional, stamp_at, length_at, context_at, signature_at};

use crate::context::{Context, Form};
use ids_types::Stamp;

pub(crate) fn u8_of(bytes: &[u8]) -> Option<(u8, &[u8])>
    ensures { Gives (λ x. (x.0, x.1.now)) result (byte_at bytes.now) }
{
    match bytes {
        [] => None,
        [byte, rest @ ..] => Some((*byte, rest)),
    }
}

pub(crate) fn u16_of(bytes: &[u8]) -> Option<(u16, &[u8])>
    ensures { Gives (λ x. (x.0, x.1.now)) result (number_at w16 bytes.now) }
{
    let (front, rest) = bytes.split_first_chunk()?;
    Some((u16::from_be_bytes(*front), rest))
}

#[inline(always)]
#[tactic(auto, unfolding(crate::specs::Reading::stamp_at))]
pub(crate) fn stamp_of(first: u8, bytes: &[u8]) -> Option<(Option<Stamp>, &[u8])>
    ensures { Gives (λ x. (x.0, x.1.now)) result (optional (has 2 first) stamp_at bytes.now) }
{
    if first / 2 % 2 == 1 {
        let (number, rest) = bytes.split_first_chunk()?;
        Some((Some(Stamp(u64::from_be_bytes(*number))), rest))
    } else {
        Some((None, bytes))
    }
}

#[inline(always)]
#[tactic(auto, unfolding(crate::specs::Reading::context_at))]
pub(crate) fn context_of(first: u8, bytes: &[u8]) -> Option<(Option<Context<'_>>, &[u8])>
    ensures { Gives (λ x. (x.0, x.1.now)) result (optional (has 1 first) context_at bytes.now) }
{
    if first % 2 == 1 {
        let ((form, size), rest) = length_of(bytes)?;
        let (held, rest) = rest.split_at_checked(size)?;
        // A length that was read is one that its form can say.
        Some((Context::make(form, held), rest))
    } else {
        Some((None, bytes))
    }
}

#[tactic(auto, unfolding(crate::specs::Reading::length_at))]
fn length_of(bytes: &[u8]) -> Option<((Form, usize), &[u8])>
    ensures gives { Gives (λ x. (x.0, x.1.now)) result (length_at bytes.now) }
    ensures most { IfSome result (λ x. x.0.1 ≤ most_bytes x.0.0) }
{
    match bytes {
        [] => None,
        [first, rest @ ..] if *first < 128 => Some(((Form::Short, *first as usize), rest)),
        [_, ..] => {
            let (size, rest) = bytes.split_first_chunk()?;
            let size = u32::from_be_bytes(*size);
            Some(((Form::Long, (size - 0x8000_0000) as usize), rest))
        }
    }
}

#[inline(always)]
#[tactic(auto, unfolding(crate::specs::Reading::signature_at))]
pub(crate) fn signature_of(first: u8, bytes: &[u8]) -> Option<(Option<&[u8]>, &[u8])>
    ensures gives { Gives (λ x. (option_copied x.0, x.1.now)) result
        (optional (has 4 first) signature_at bytes.now) }
    ensures short { IfSome result (λ x. IfSome x.0 (λ s. length s.now ≤ 65535)) }
{
    if first / 4 % 2 == 1 {
        let (size, rest) = u16_of(bytes)?;
        let (signature, rest) = rest.split_at_checked(size as usize)?;
        Some((Some(signature), rest))
    } else {
        Some((None, bytes))
    }
}
