//! Callers that are handed over for a round, and come back, and how long the main function waits for them.
ghost use Rattle.std.specs.Prelude.{◌≡◌, ◌+◌, ◌<◌, ◌≤◌, [], length, IfOk, OnOk};
ghost use Rattle.trace_replay.specs.{IsSet, AreAtRest, IsAtRest, lines_before};

use crate::caller::{Caller, Gate};
use crate::place::{DUE, Hand, PLAYED, pause};
use crate::stage::Stage;
use ids_types::NoMemory;

/// For how many looks it is waited at most.
const MOST_LOOKS: u64 = 4;

/// For how many looks it is waited whether a thread begins with a caller, before its calls are made here. Where one
/// came in time it is waited longer the next time, and else shorter, down to no wait at all. So threads are given
/// their time where there are processors for them, and elsewhere next to none is lost. No proof rests on it.
#[derive(Clone, Copy, Debug)]
pub(crate) struct Patience {
    looks: u64,
}

impl Patience {
    pub(crate) fn new() -> Patience {
        Patience { looks: MOST_LOOKS }
    }

    /// Whether it is at an end after so many looks.
    pub(crate) fn is_over(&self, looks: u64) -> bool {
        looks >= self.looks
    }

    /// A thread came in time, or none did.
    pub(crate) fn learn(&mut self, came: bool) {
        self.looks = if came {
            self.looks.saturating_add(1).min(MOST_LOOKS)
        } else {
            self.looks / 2
        };
    }
}

/// Hands all callers over for a round, each with room for what it may lose.
pub(crate) fn hand_over<G: Gate>(
    stage: &Stage<'_, G>,
    round: u64,
    callers: &mut Vec<Caller>,
) -> Result<(), NoMemory>
    requires set { IsSet stage.now }
    requires round { round < length stage.now.trace.now.rounds }
    requires rest { AreAtRest stage.now.shared.now stage.now.trace.now.rounds round callers.old.items }
    requires callers { length callers.old.items ≡ stage.now.trace.now.callers }
    ensures { OnOk result (callers.new.items ≡ []) }
{
    while let Some(mut caller) = callers.pop() {
        let number = callers.len();
        caller.reserve(stage.trace.lines(round, number as u8))?;
        let hand = Hand {
            caller,
            rounds: round,
            due: true,
        };
        stage.places[number].put(hand, DUE)?;
    }
    Ok(())
}

/// Takes all callers back, after the calls of a round.
pub(crate) fn take_back<G: Gate>(
    stage: &Stage<'_, G>,
    round: u64,
    patience: &mut Patience,
    callers: &mut Vec<Caller>,
) -> Result<(), NoMemory>
    requires set { IsSet stage.now }
    requires round { round < length stage.now.trace.now.rounds }
    requires none { callers.old.items ≡ [] }
    ensures rest { OnOk result (AreAtRest stage.now.shared.now stage.now.trace.now.rounds (round + 1) callers.new.items) }
    ensures callers { OnOk result (length callers.new.items ≡ stage.now.trace.now.callers) }
{
    for i in 0..stage.places.len() {
        let caller = take_one(stage, round, i as u8, patience)?;
        callers.push(caller)?;
    }
    Ok(())
}

/// Takes a caller back from its place, after the calls that it makes in a round. Where no thread begins with them in
/// time, they are made here; where one has, it is looked again until it is done.
fn take_one<G: Gate>(
    stage: &Stage<'_, G>,
    round: u64,
    number: u8,
    patience: &mut Patience,
) -> Result<Caller, NoMemory>
    requires set { IsSet stage.now }
    requires round { round < length stage.now.trace.now.rounds }
    requires number { number < stage.now.trace.now.callers }
    ensures { IfOk result (IsAtRest stage.now.shared.now number (lines_before stage.now.trace.now.rounds (round + 1) number)) }
{
    let place = &stage.places[number as usize];
    for looks in 0..u64::MAX {
        let seen = place.seen();
        if seen == PLAYED || (seen == DUE && patience.is_over(looks)) {
            if let Some(hand) = place.take(seen) {
                patience.learn(seen == PLAYED);
                return at_rest(stage.played(number, hand), round);
            }
        }
        pause(looks);
    }
    Err(NoMemory)
}

/// The caller, if it played the rounds up to this one. No other ever comes back.
fn at_rest(hand: Hand, round: u64) -> Result<Caller, NoMemory>
    ensures { IfOk result (λ caller. (hand.rounds ≡ round + 1) × (hand.caller ≡ caller)) }
{
    let Hand { caller, rounds, .. } = hand;
    if round < rounds && rounds - round == 1 {
        Ok(caller)
    } else {
        Err(NoMemory)
    }
}
