//! The steps of the one that takes.

ghost use Rattle.ring_core.specs.{StepAnswers, See, Read, Offer, Sweep};

use crate::state::RingState;
use crate::step::NotPossible;

/// The steps of the keeper. Each answers the next state, or that there is none and that nothing changed.
impl RingState {
    #[tactic(auto, using(crate::proofs::Bounds::state_small))]
    pub(crate) fn see(&mut self) -> Result<(), NotPossible>
        ensures { StepAnswers self.old See result self.new }
    {
        let position = self.reaped % self.positions as u64;
        if self.marks[position as usize] == self.reaped + 1 {
            self.reaped += 1;
        }
        Ok(())
    }

    pub(crate) fn read(&mut self) -> Result<(), NotPossible>
        ensures { StepAnswers self.old Read result self.new }
    {
        self.seen = self.word;
        Ok(())
    }

    #[tactic(auto, using(crate::proofs::Bounds::state_small))]
    pub(crate) fn offer(&mut self, count: u16) -> Result<(), NotPossible>
        ensures { StepAnswers self.old (Offer count) result self.new }
    {
        let offered = self.offered + count as u64;
        if count == 0 || offered > self.reaped + self.positions as u64 {
            return Err(NotPossible);
        }
        if self.word == self.seen {
            self.offered = offered;
            self.word.free += count;
            self.word.over = 0;
        }
        self.seen = self.word;
        Ok(())
    }

    #[tactic(auto, using(crate::proofs::Bounds::state_small))]
    pub(crate) fn sweep(&mut self, kind: u8) -> Result<(), NotPossible>
        ensures { StepAnswers self.old (Sweep kind) result self.new }
    {
        if kind >= 2 {
            return Err(NotPossible);
        }
        if kind == 0 {
            self.loss0.swept += self.loss0.value;
            self.loss0.value = 0;
        } else {
            self.loss1.swept += self.loss1.value;
            self.loss1.value = 0;
        }
        Ok(())
    }
}
