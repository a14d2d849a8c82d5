//! A message's context: its bytes, and the form in which their number is spelled.
ghost use Rattle.std.specs.Prelude.{◌≡◌, ◌<◌, ◌≤◌, ◌^◌, ◌↔◌, length, IsSome, IfSome};
ghost use Rattle.ids_frame.specs.Context.{FitsContext, most_bytes, context_of};

use std::marker::Model;

/// How a context spells its length.
#[derive(Clone, Copy, Debug, PartialEq, Eq)]
pub enum Form {
    /// In one byte.
    Short,
    /// In four bytes, of which the first bit is set.
    Long,
}

impl Form {
    /// How many bytes a context of this form has at most: 127, or 2^31 - 1.
    pub fn most_bytes(self) -> usize
        ensures { result ≡ most_bytes self }
    {
        match self {
            Form::Short => 0x7f,
            Form::Long => 0x7fff_ffff,
        }
    }
}

/// The context data of a message. The form belongs to the value: a long form of few bytes is
/// another context than the short form of the same bytes.
#[derive(Debug, Drop)]
pub struct Context<'a> {
    form: Form,
    bytes: &'a [u8],
}

impl<'a> Model for Context<'a> {
    ghost use Rattle.ids_frame.specs.Context.{ContextPart, FitsContext};

    ghost Value = { ContextPart };

    ghost view = { λ c. record { form = c.form; bytes = c.bytes.now } };

    ghost invariant = { λ c. FitsContext (record { form = c.form; bytes = c.bytes.now }) };
}

impl<'a> Context<'a> {
    /// These bytes in this form, `None` where they are too many for it.
    /// By: no loop; the bytes are lent.
    pub fn make(form: Form, bytes: &'a [u8]) -> Option<Context<'a>>
        ensures fits { IsSome result ↔ (length bytes.now ≤ most_bytes form) }
        ensures made { IfSome result (λ c. c ≡ record { form = form; bytes = bytes.now }) }
    {
        if bytes.len() <= form.most_bytes() {
            Some(Context { form, bytes })
        } else {
            None
        }
    }

    /// These bytes in the form that the manager sends.
    /// By: no loop; the bytes are lent.
    pub fn of(bytes: &'a [u8]) -> Context<'a>
        requires { length bytes.now ≤ most_bytes Form.Long }
        ensures { result ≡ context_of bytes.now }
    {
        if bytes.len() <= Form::Short.most_bytes() {
            Context {
                form: Form::Short,
                bytes,
            }
        } else {
            Context {
                form: Form::Long,
                bytes,
            }
        }
    }

    /// The form in which the number of bytes is spelled.
    pub fn form(&self) -> Form
        ensures value { result ≡ self.now.form }
        ensures fits { FitsContext self.now }
    {
        self.form
    }

    /// The context's bytes, where they lie.
    pub fn bytes(&self) -> &'a [u8]
        ensures value { result.now ≡ self.now.bytes }
        ensures few { length result.now < 2 ^ 31 }
    {
        self.bytes
    }

    // The same context over the same bytes, since a struct with an `impl Model` and a lifetime is
    // not `Copy`.
    pub(crate) fn again(&self) -> Context<'a>
        ensures { result ≡ self.now }
    {
        Context {
            form: self.form,
            bytes: self.bytes,
        }
    }
}
