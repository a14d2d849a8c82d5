//! Decoded messages as lines.

ghost use Rattle.std.specs.Prelude.{◌≡◌, ◌+◌, ◌<◌, ◌≤◌, ◌++◌, ◌∷◌, ◌^◌};
ghost use Rattle.text_spec.specs.{Written, [], OnOk, OnErr, option_copied, codes, decimal, length, IfSome, vec_len, vec_capacity, line_feed, space, message_line, form_letter, layout_word, shown_context, shown_signature};
ghost use Rattle.ids_frame.specs.Message.{FitsMessage};

use crate::hexadecimal::put_hex;
use crate::numbers::{digits_len, put_field};
use crate::stamps::{put_stamp, stamp_len};
use ids_frame::{Context, Form, Message};
use ids_types::NoMemory;

/// Appends the line of a message: `M INSTANCE SENSOR EVENT COUNT RESERVED STAMP CONTEXT SIGNATURE`, with
/// `M2` in place of `M` for a message of version 2.
/// Steps: the bytes of the line. Memory: may answer want of memory, only where the room is short. By: `full`; read off.
#[tactic(auto, using(crate::proofs::DecodedLemmas::length_line, crate::proofs::DecodedLemmas::texts_put))]
pub fn push_message(out: &mut Vec<u8>, message: &Message<'_>) -> Result<(), NoMemory>
    ensures ok { OnOk result (out.new.items ≡ out.old.items ++ (message_line message.now ++ line_feed ∷ [])) }
    ensures err { OnErr result (out.new.items ≡ out.old.items) }
    ensures full { let line = message_line message.now ++ line_feed ∷ [] in
        OnErr result (vec_capacity out.old < vec_len out.old + length line) }
{
    let version = message.version();
    reserve_line(out, message)?;
    put_layout(out, version);
    put_field(out, u64::from(message.instance()));
    put_field(out, u64::from(message.sensor()));
    put_field(out, u64::from(message.event()));
    put_field(out, u64::from(message.count()));
    put_field(out, u64::from(message.reserved()));
    out.push_reserved(b' ');
    put_stamp(out, message.stamp());
    out.push_reserved(b' ');
    put_context(out, &message.context());
    out.push_reserved(b' ');
    put_signature(out, message.signature());
    out.push_reserved(b'\n');
    Ok(())
}

/// How many bytes of a line are of none of its last two words, at most.
const MOST_FRONT: usize = 127;

/// Makes room for the line of a message, whose length is told only where there may be too little.
#[tactic(auto, using(crate::proofs::DecodedLemmas::length_line, crate::proofs::DecodedLemmas::few_in_front))]
fn reserve_line(out: &mut Vec<u8>, message: &Message<'_>) -> Result<(), NoMemory>
    requires { FitsMessage message.now }
    ensures items { out.new.items ≡ out.old.items }
    ensures len { vec_len out.new ≡ vec_len out.old }
    ensures room { OnOk result (vec_len out.new + length (message_line message.now) < vec_capacity out.new) }
    ensures full { OnErr result (vec_capacity out.old < vec_len out.old + length (message_line message.now) + 1) }
{
    let back = context_len(&message.context()) + signature_len(message.signature());
    if out.capacity() - out.len() >= MOST_FRONT + back {
        return Ok(());
    }
    Ok(out.reserve(line_len(message) + 1)?)
}

#[tactic(auto, using(crate::proofs::DecodedLemmas::length_line, crate::proofs::NumbersLemmas::few_digits))]
fn line_len(message: &Message<'_>) -> usize
    ensures value { result ≡ length (message_line message.now) }
    ensures small { result < 2 ^ 34 }
{
    let source = digits_len(u64::from(message.instance()))
        + digits_len(u64::from(message.sensor()));
    let event = digits_len(u64::from(message.event())) + digits_len(u64::from(message.count()));
    let parts = stamp_len(message.stamp()) + context_len(&message.context());
    let layout = if message.version() == 2 { 2 } else { 1 };
    8 + layout
        + source
        + event
        + digits_len(u64::from(message.reserved()))
        + parts
        + signature_len(message.signature())
}

#[tactic(auto, using(crate::proofs::HexadecimalLemmas::length_hex))]
fn context_len(context: &Option<Context<'_>>) -> usize
    ensures value { result ≡ length (shown_context context.now) }
    ensures small { result ≤ 2 ^ 32 }
{
    match context {
        Some(context) => 2 + 2 * context.bytes().len(),
        None => 1,
    }
}

/// Writes the first word of a message's line.
fn put_layout(out: &mut Vec<u8>, version: u8)
    requires { vec_len out.old + length (layout_word version) ≤ vec_capacity out.old }
    ensures { Written out.old out.new (layout_word version) }
{
    out.push_reserved(b'M');
    if version == 2 {
        out.push_reserved(b'2');
    }
}

/// Writes the word of a context.
#[tactic(auto, using(crate::proofs::HexadecimalLemmas::length_hex))]
fn put_context(out: &mut Vec<u8>, context: &Option<Context<'_>>)
    requires { vec_len out.old + length (shown_context context.now) ≤ vec_capacity out.old }
    ensures { Written out.old out.new (shown_context context.now) }
{
    match context {
        Some(context) => {
            out.push_reserved(match context.form() {
                Form::Short => b's',
                Form::Long => b'l',
            });
            out.push_reserved(b':');
            put_hex(out, context.bytes());
        }
        None => out.push_reserved(b'-'),
    }
}

#[tactic(auto, using(crate::proofs::HexadecimalLemmas::length_hex))]
fn signature_len(signature: Option<&[u8]>) -> usize
    requires { IfSome signature (λ bytes. length bytes.now ≤ 65535) }
    ensures value { result ≡ length (shown_signature (option_copied signature.entry)) }
    ensures small { result ≤ 2 ^ 20 }
{
    match signature {
        Some(bytes) => 1 + 2 * bytes.len(),
        None => 1,
    }
}

/// Writes the word of a signature.
#[tactic(auto, using(crate::proofs::HexadecimalLemmas::length_hex))]
fn put_signature(out: &mut Vec<u8>, signature: Option<&[u8]>)
    requires { vec_len out.old + length (shown_signature (option_copied signature))
        ≤ vec_capacity out.old }
    ensures { Written out.old out.new (shown_signature (option_copied signature.entry)) }
{
    match signature {
        Some(bytes) => {
            out.push_reserved(b'=');
            put_hex(out, bytes);
        }
        None => out.push_reserved(b'-'),
    }
}
