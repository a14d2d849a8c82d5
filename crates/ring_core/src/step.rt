/// One atomic step of a ring. The first number of a seat's step is the seat; `Offer` has the number
/// of positions that it tries to offer, once; `Mark` has the kind of loss after the seat, and
/// `Sweep` the kind alone.
#[derive(Clone, Copy, Debug, PartialEq, Eq)]
pub enum Step {
    Look(u8),
    Claim(u8),
    Finish(u8),
    See,
    Read,
    Offer(u16),
    Mark(u8, u8),
    Sweep(u8),
    Split,
    Join(u8),
    /// A seat that came back goes on.
    Resume(u8),
}

/// The machine has no such step from its state.
#[derive(Clone, Copy, Debug, PartialEq, Eq)]
pub struct NotPossible;
