//! The steps of those that put.

ghost use Rattle.ring_core.specs.{StepAnswers, Look, Claim, Finish, Mark, Split, Join, Resume};

use crate::seat::{SeatView, Ticket0};
use crate::state::RingState;
use crate::step::NotPossible;

/// A seat makes fewer calls than this, and of each kind fewer marks: 2^40.
const MOST: u64 = 1_099_511_627_776;

/// The steps of the seats. Each answers the next state, or that there is none and that nothing changed.
impl RingState {
    pub(crate) fn look(&mut self, seat: u8) -> Result<(), NotPossible>
        ensures { StepAnswers self.old (Look seat) result self.new }
    {
        let view = self.seat(seat);
        if !view.is_idle() || view.calls >= MOST {
            return Err(NotPossible);
        }
        self.seats[seat as usize] = SeatView {
            calls: view.calls + 1,
            armed: self.word.free > 0,
            ..view
        };
        Ok(())
    }

    pub(crate) fn claim(&mut self, seat: u8) -> Result<(), NotPossible>
        ensures { StepAnswers self.old (Claim seat) result self.new }
    {
        let view = self.seat(seat);
        if !view.armed {
            return Err(NotPossible);
        }
        if self.word.free == 0 {
            self.word.over += 1;
            self.seats[seat as usize] = SeatView {
                armed: false,
                ..view
            };
            return Ok(());
        }
        let ticket = Ticket0(self.word.claimed);
        self.word.claimed += 1;
        self.word.free -= 1;
        self.seats[seat as usize] = SeatView {
            armed: false,
            held: Some(ticket),
            ..view
        };
        Ok(())
    }

    pub(crate) fn finish(&mut self, seat: u8) -> Result<(), NotPossible>
        ensures { StepAnswers self.old (Finish seat) result self.new }
    {
        let view = self.seat(seat);
        let Some(ticket) = view.held else {
            return Err(NotPossible);
        };
        let position = ticket.0 % self.positions as u64;
        self.marks[position as usize] = ticket.0 + 1;
        self.seats[seat as usize] = SeatView { held: None, ..view };
        Ok(())
    }

    #[tactic(auto, using(crate::proofs::Bounds::state_small))]
    pub(crate) fn add_mark(&mut self, seat: u8, kind: u8) -> Result<(), NotPossible>
        ensures { StepAnswers self.old (Mark seat kind) result self.new }
    {
        let view = self.seat(seat);
        if kind >= 2 || !view.live || view.marks_of(kind) >= MOST {
            return Err(NotPossible);
        }
        self.seats[seat as usize] = view.marked(kind);
        if kind == 0 {
            self.loss0.value += 1;
        } else {
            self.loss1.value += 1;
        }
        Ok(())
    }

    pub(crate) fn split(&mut self) -> Result<(), NotPossible>
        ensures { StepAnswers self.old Split result self.new }
    {
        if self.seats.len() >= self.limit as usize {
            return Err(NotPossible);
        }
        self.seats.push_reserved(SeatView::new());
        Ok(())
    }

    pub(crate) fn join(&mut self, seat: u8) -> Result<(), NotPossible>
        ensures { StepAnswers self.old (Join seat) result self.new }
    {
        let view = self.seat(seat);
        if !view.is_idle() {
            return Err(NotPossible);
        }
        self.seats[seat as usize] = SeatView {
            live: false,
            ..view
        };
        Ok(())
    }

    pub(crate) fn resume(&mut self, seat: u8) -> Result<(), NotPossible>
        ensures { StepAnswers self.old (Resume seat) result self.new }
    {
        let view = self.seat(seat);
        if self.seats.len() <= seat as usize || view.live {
            return Err(NotPossible);
        }
        self.seats[seat as usize] = SeatView { live: true, ..view };
        Ok(())
    }
}
