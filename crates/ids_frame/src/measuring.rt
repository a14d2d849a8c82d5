//! How many bytes a message's spelling has.
ghost use Rattle.std.specs.Prelude.{◌≡◌, ◌≤◌, ◌<◌, ◌^◌, length, IfSome, option_copied};
ghost use Rattle.ids_frame.specs.Spelling.{context_part, signature_part, spelling};

use crate::context::{Context, Form};
use crate::message::Message;

impl<'a> Message<'a> {
    /// How many bytes the message's spelling has.
    pub fn spelling_len(&self) -> u64
        ensures { result ≡ length (spelling self.now) }
    {
        let event_len = if self.stamp().is_some() { 16 } else { 8 };
        event_len + context_len(&self.context()) + signature_len(self.signature())
    }
}

fn context_len(context: &Option<Context<'_>>) -> u64
    ensures value { result ≡ length (context_part context.now) }
    ensures small { result < 2 ^ 32 }
{
    match context {
        Some(context) => match context.form() {
            Form::Short => 1 + context.bytes().len() as u64,
            Form::Long => 4 + context.bytes().len() as u64,
        },
        None => 0,
    }
}

fn signature_len(signature: Option<&[u8]>) -> u64
    requires { IfSome signature (λ bytes. length bytes.now ≤ 65535) }
    ensures value { result ≡ length (signature_part (option_copied signature.entry)) }
    ensures small { result < 2 ^ 32 }
{
    match signature {
        Some(bytes) => 2 + bytes.len() as u64,
        None => 0,
    }
}
