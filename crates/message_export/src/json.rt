//! A message as a line of JSON.

ghost use Rattle.std.specs.Prelude.{◌≡◌, ◌++◌, ◌∷◌, [], OnOk, codes, decimal, option_copied};
ghost use Rattle.text_spec.specs.Words.{line_feed};
ghost use Rattle.message_export.specs.JsonLines.{byte_members, context_members, continued, event_members, form_word, hexadecimal, json_line, member, quoted, signature_members, stamp_members};

use crate::pieces::{append, nanoseconds, seconds};
use ids_frame::{Context, Form, Message};
use ids_types::{NoMemory, Stamp};
use text_spec::{push_hex, push_number};

/// Appends the line of a message that stands after so many bytes.
pub(crate) fn push_line(
    out: &mut Vec<u8>,
    offset: u64,
    message: &Message<'_>,
) -> Result<(), NoMemory>
    ensures { OnOk result (out.new.items ≡ out.old.items ++ (json_line offset message.now ++ line_feed ∷ [])) }
{
    push_numbered(out, b"{\"offset\":", offset)?;
    push_event(out, message)?;
    push_byte(out, message.version(), message.reserved())?;
    push_stamp(out, message.stamp())?;
    push_context(out, &message.context())?;
    push_signature(out, message.signature())?;
    append(out, b"}\n")
}

/// Appends who saw what, and how often.
fn push_event(out: &mut Vec<u8>, message: &Message<'_>) -> Result<(), NoMemory>
    ensures { OnOk result (out.new.items ≡ out.old.items ++ continued (event_members message.now)) }
{
    push_numbered(out, b",\"version\":", u64::from(message.version()))?;
    push_numbered(out, b",\"instance\":", u64::from(message.instance()))?;
    push_numbered(out, b",\"sensor\":", u64::from(message.sensor()))?;
    push_numbered(out, b",\"event\":", u64::from(message.event()))?;
    push_numbered(out, b",\"count\":", u64::from(message.count()))
}

/// Appends the last byte of the event part, by the name that the version gives it.
fn push_byte(out: &mut Vec<u8>, version: u8, byte: u8) -> Result<(), NoMemory>
    ensures { OnOk result (out.new.items ≡ out.old.items ++ continued (byte_members version byte)) }
{
    if version == 2 {
        push_numbered(
            out,
            b",\"reserved\":null,\"context_version\":",
            u64::from(byte),
        )
    } else {
        push_numbered(out, b",\"reserved\":", u64::from(byte))?;
        append(out, b",\"context_version\":null")
    }
}

/// Appends a timestamp, and two of its parts.
fn push_stamp(out: &mut Vec<u8>, stamp: Option<Stamp>) -> Result<(), NoMemory>
    ensures { OnOk result (out.new.items ≡ out.old.items ++ continued (stamp_members stamp)) }
{
    match stamp {
        Some(stamp) => {
            push_digits(out, b",\"timestamp\":", &stamp.0.to_be_bytes())?;
            push_numbered(out, b",\"seconds\":", u64::from(seconds(stamp)))?;
            push_numbered(out, b",\"nanoseconds\":", u64::from(nanoseconds(stamp)))
        }
        None => append(
            out,
            b",\"timestamp\":null,\"seconds\":null,\"nanoseconds\":null",
        ),
    }
}

/// Appends a context, and the form of its length.
fn push_context(out: &mut Vec<u8>, context: &Option<Context<'_>>) -> Result<(), NoMemory>
    ensures { OnOk result (out.new.items ≡ out.old.items ++ continued (context_members context.now)) }
{
    match context {
        Some(context) => {
            push_form(out, context.form())?;
            push_digits(out, b",\"context\":", context.bytes())
        }
        None => append(out, b",\"context_form\":null,\"context\":null"),
    }
}

fn push_form(out: &mut Vec<u8>, form: Form) -> Result<(), NoMemory>
    ensures { OnOk result (out.new.items ≡ out.old.items ++ continued (member (codes "context_form") (quoted (form_word form)) ∷ [])) }
{
    match form {
        Form::Short => append(out, b",\"context_form\":\"short\""),
        Form::Long => append(out, b",\"context_form\":\"long\""),
    }
}

/// Appends a signature.
fn push_signature(out: &mut Vec<u8>, signature: Option<&[u8]>) -> Result<(), NoMemory>
    ensures { OnOk result (out.new.items ≡ out.old.items ++ continued (signature_members (option_copied signature.entry))) }
{
    match signature {
        Some(bytes) => push_digits(out, b",\"signature\":", bytes),
        None => append(out, b",\"signature\":null"),
    }
}

/// Appends a name and a number.
fn push_numbered(out: &mut Vec<u8>, name: &[u8], number: u64) -> Result<(), NoMemory>
    ensures { OnOk result (out.new.items ≡ out.old.items ++ (name.now ++ decimal number)) }
{
    append(out, name)?;
    push_number(out, number)
}

/// Appends a name and the hexadecimal digits of bytes, in quotes.
fn push_digits(out: &mut Vec<u8>, name: &[u8], bytes: &[u8]) -> Result<(), NoMemory>
    ensures { OnOk result (out.new.items ≡ out.old.items ++ (name.now ++ hexadecimal bytes.now)) }
{
    append(out, name)?;
    out.push(b'"')?;
    push_hex(out, bytes)?;
    Ok(out.push(b'"')?)
}
