//! One caller of a ring, as the machine sees it.

ghost use Rattle.std.specs.Prelude.{◌≡◌, ◌<◌, ◌^◌};
ghost use Rattle.ring_core.specs.{nobody, new_seat, is_idle, marks_of, marked};

/// A ticket: the number of a claim, from 0. Ticket t stands at position `t mod n`.
#[derive(Clone, Copy, Debug, PartialEq, Eq)]
pub struct Ticket0(pub u64);

/// A seat as the machine sees it. It has its calls so far, and whether its look found a free position that it has not
/// claimed yet. It has the ticket that it holds, and its marks of both kinds of loss.
#[derive(Clone, Copy, Debug, PartialEq, Eq)]
pub struct SeatView {
    pub calls: u64,
    pub armed: bool,
    pub held: Option<Ticket0>,
    pub marks0: u64,
    pub marks1: u64,
    pub live: bool,
}

impl SeatView {
    /// A seat that was never made.
    pub(crate) fn nobody() -> SeatView
        ensures { result ≡ nobody }
    {
        SeatView {
            calls: 0,
            armed: false,
            held: None,
            marks0: 0,
            marks1: 0,
            live: false,
        }
    }

    /// A seat that has just been made.
    pub(crate) fn new() -> SeatView
        ensures { result ≡ new_seat }
    {
        SeatView {
            live: true,
            ..SeatView::nobody()
        }
    }

    /// Whether the seat is live, holds no ticket and is not armed.
    pub fn is_idle(&self) -> bool
        ensures { result ≡ is_idle self.now }
    {
        self.live && self.held.is_none() && !self.armed
    }

    /// The marks that the seat made of a kind, 0 or 1.
    pub(crate) fn marks_of(&self, kind: u8) -> u64
        ensures { result ≡ marks_of self.now kind }
    {
        if kind == 0 { self.marks0 } else { self.marks1 }
    }

    /// The seat with one mark more of a kind.
    pub(crate) fn marked(self, kind: u8) -> SeatView
        requires { marks_of self kind < 2 ^ 40 }
        ensures { result ≡ marked kind self }
    {
        if kind == 0 {
            return SeatView {
                marks0: self.marks0 + 1,
                ..self
            };
        }
        SeatView {
            marks1: self.marks1 + 1,
            ..self
        }
    }
}
