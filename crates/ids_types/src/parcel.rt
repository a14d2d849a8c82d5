//! The trait of whatever holds context data.

ghost use Rattle.std.specs.Prelude.{◌≡◌, ℕ, List};

/// A holder of context bytes: a buffer of the manager's, or bytes that somebody lends. It may be let go.
pub trait Parcel: Drop {
    /// The bytes that it holds.
    ghost held: { Self → List ℕ };

    /// Steps: `Plain`, `CtxBuf`: constant.
    fn bytes(&self) -> &[u8]
        ensures { result.now ≡ held self.now };
}

/// Context bytes that are lent for the time of a call.
#[derive(Clone, Copy, Debug)]
pub struct Plain<'a>(pub &'a [u8]);

impl Parcel for Plain<'_> {
    ghost held = { λ p. p.0.now };

    fn bytes(&self) -> &[u8] {
        self.0
    }
}
