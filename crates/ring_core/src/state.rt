//! The ring as a machine: its state, and one step of it.

ghost use Rattle.std.specs.Prelude.{◌≡◌, ◌+◌, ◌<◌, ◌≤◌};
ghost use Rattle.ring_core.specs.{length, IfOk, OnErr, MatchResult, Some, None, opening, next, HasSizes, StepAnswers, seat_at, mark_at, loss_at, IsRing, machine_of, IsKept};
ghost use Rattle.ring_core.specs.Machine.{Machine};

use crate::loss::LossWord;
use crate::memory::NoMemory;
use crate::seat::SeatView;
use crate::step::{NotPossible, Step};
use crate::word::PermitWord;
use std::alloc::Global;
use std::marker::Model;

mod keeper;
mod seats;

/// A ring between two steps: its words, its seats, and what its keeper knows.
#[derive(Debug, Drop)]
pub struct RingState {
    positions: u16,
    limit: u8,
    word: PermitWord,
    offered: u64,
    reaped: u64,
    marks: Vec<u64>,
    loss0: LossWord,
    loss1: LossWord,
    seats: Vec<SeatView>,
    seen: PermitWord,
}

impl Model for RingState {
    ghost Value = { Machine };

    ghost view = { machine_of };

    ghost invariant = { IsKept };
}

impl RingState {
    /// A ring whose `n` positions are all free, with seat 0 of at most `seats` made.
    /// Steps: the positions. Memory: made once. By: read off; conditions: 1 to 1,024 positions, 1 to 32 seats.
    pub fn make(alloc: Global, n: u16, seats: u8) -> Result<RingState, NoMemory>
        requires positions { (1 ≤ n) × (n ≤ 1024) }
        requires seats { (1 ≤ seats) × (seats ≤ 32) }
        ensures opens { IfOk result (λ ring. ring ≡ opening n seats) }
        ensures sound { IfOk result IsRing }
    {
        let word = PermitWord {
            claimed: 0,
            free: n,
            over: 0,
        };
        let loss = LossWord { value: 0, swept: 0 };
        let marks = vec![in alloc; 0; n as usize]?;
        let mut made = Vec::with_capacity(alloc, seats as usize)?;
        made.push_reserved(SeatView::new());
        Ok(RingState {
            positions: n,
            limit: seats,
            word,
            offered: n as u64,
            reaped: 0,
            marks,
            loss0: loss,
            loss1: loss,
            seats: made,
            seen: word,
        })
    }

    /// Makes one step. Takes no memory.
    /// By: no loop; answer `NotPossible`, no NoMemory.
    #[tactic(auto, using(crate::proofs::Sizes::after_sizes))]
    pub fn step(&mut self, step: &Step) -> Result<(), NotPossible>
        ensures next { MatchResult
            result
            (λ _. next self.old step.now ≡ Some self.new)
            (λ _. next self.old step.now ≡ None) }
        ensures unchanged { OnErr result (self.new ≡ self.old) }
        ensures sizes { HasSizes self.old.positions self.old.limit self.new }
        ensures sound { IsRing self.new }
    {
        let answer = self.make_step(*step);
        // Where a field is used, the checker knows what holds of the ring that is left.
        let _word = &self.word;
        answer
    }

    fn make_step(&mut self, step: Step) -> Result<(), NotPossible>
        ensures { StepAnswers self.old step result self.new }
    {
        match step {
            Step::Look(seat) => self.look(seat),
            Step::Claim(seat) => self.claim(seat),
            Step::Finish(seat) => self.finish(seat),
            Step::See => self.see(),
            Step::Read => self.read(),
            Step::Offer(count) => self.offer(count),
            Step::Mark(seat, kind) => self.add_mark(seat, kind),
            Step::Sweep(kind) => self.sweep(kind),
            Step::Split => self.split(),
            Step::Join(seat) => self.join(seat),
            Step::Resume(seat) => self.resume(seat),
        }
    }

    /// The permit word.
    pub fn word(&self) -> PermitWord
        ensures { result ≡ self.now.word }
    {
        self.word
    }

    /// How many positions the keeper offered so far, the first `n` among them.
    pub fn offered(&self) -> u64
        ensures { result ≡ self.now.offered }
    {
        self.offered
    }

    /// How many tickets the keeper saw finished.
    pub fn reaped(&self) -> u64
        ensures { result ≡ self.now.reaped }
    {
        self.reaped
    }

    /// The mark of a position: 1 plus the last ticket finished there, or 0.
    pub fn mark(&self, position: u16) -> u64
        requires { position < self.now.positions }
        ensures { result ≡ mark_at self.now.marks position }
    {
        self.marks[position as usize]
    }

    /// The loss word of a kind, 0 or 1.
    pub fn loss(&self, kind: u8) -> u64
        requires { kind < 2 }
        ensures { result ≡ (loss_at self.now kind).value }
    {
        self.loss_word(kind).value
    }

    /// How much was swept from the loss word of a kind, 0 or 1.
    pub fn swept(&self, kind: u8) -> u64
        requires { kind < 2 }
        ensures { result ≡ (loss_at self.now kind).swept }
    {
        self.loss_word(kind).swept
    }

    /// A seat that was made.
    pub fn view(&self, seat: u8) -> SeatView
        requires { seat < length self.now.seats }
        ensures { result ≡ seat_at self.now.seats seat }
    {
        self.seat(seat)
    }

    /// The word that the keeper last read or left.
    pub fn seen(&self) -> PermitWord
        ensures { result ≡ self.now.seen }
    {
        self.seen
    }

    /// How many seats were made, ended ones included.
    pub fn made(&self) -> u8
        ensures { result ≡ length self.now.seats }
    {
        self.seats.len() as u8
    }

    // A number that was never given out is read as a seat that is not live.
    fn seat(&self, number: u8) -> SeatView
        ensures { result ≡ seat_at self.now.seats number }
    {
        match self.seats.get(number as usize) {
            Some(seat) => *seat,
            None => SeatView::nobody(),
        }
    }

    fn loss_word(&self, kind: u8) -> LossWord
        ensures { result ≡ loss_at self.now kind }
    {
        if kind == 0 { self.loss0 } else { self.loss1 }
    }
}
