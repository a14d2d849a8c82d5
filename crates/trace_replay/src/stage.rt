//! What all threads of a replay share, and the threads of the callers, which last through it.
ghost use Rattle.std.specs.Prelude.{◌≡◌, ◌<◌, ◌≤◌, length, IfOk};
ghost use Rattle.trace_replay.specs.{ArePlaces, IsSet, MayAllBeAsked, StandsAt, queue_positions};

use crate::caller::Gate;
use crate::place::{DUE, Hand, PLAYED, Place, pause};
use ids_types::NoMemory;
use report_api::Shared;
use std::alloc::Global;
use std::sync::atomic::{AtomicBool, Ordering};
use std::thread::{Threads, for_each_mut};
use trace_text::Trace;

/// What callers report to and play, the places at which they are handed over, and whether the replay is over.
#[derive(Drop)]
pub(crate) struct Stage<'a, G> {
    pub(crate) shared: &'a Shared,
    // How many event buffers there are.
    pub(crate) positions: u64,
    pub(crate) trace: &'a Trace,
    pub(crate) gate: &'a G,
    pub(crate) places: Vec<Place>,
    pub(crate) over: &'a AtomicBool,
}

impl<'a, G: Gate> Stage<'a, G> {
    /// A stage with a place for each caller of the trace.
    pub(crate) fn make(
        alloc: Global,
        shared: &'a Shared,
        positions: u64,
        trace: &'a Trace,
        gate: &'a G,
        over: &'a AtomicBool,
    ) -> Result<Stage<'a, G>, NoMemory>
        requires positions { positions ≡ queue_positions shared.now.queue }
        requires asked { MayAllBeAsked shared.now.terms trace.now.rounds }
        ensures set { IfOk result (λ stage. IsSet stage) }
        ensures shared { IfOk result (λ stage. stage.shared.now ≡ shared.now) }
        ensures trace { IfOk result (λ stage. stage.trace.now ≡ trace.now) }
    {
        let _rounds = trace.rounds();
        Ok(Stage {
            shared,
            positions,
            trace,
            gate,
            places: places_for(alloc, shared, trace)?,
            over,
        })
    }

    /// The caller after the calls that it was due to make.
    pub(crate) fn played(&self, number: u8, hand: Hand) -> Hand
        requires set { IsSet self.now }
        requires number { number < self.now.trace.now.callers }
        requires hand { StandsAt self.now.shared.now self.now.trace.now number hand }
        ensures { StandsAt self.now.shared.now self.now.trace.now number result }
    {
        let Hand {
            mut caller,
            rounds,
            due,
        } = hand;
        let plays = due && rounds < self.trace.rounds();
        if plays {
            caller.play(
                number,
                self.shared,
                self.positions,
                self.trace,
                rounds,
                self.gate,
            );
        }
        Hand {
            caller,
            rounds: if plays { rounds + 1 } else { rounds },
            due: false,
        }
    }

    /// Whether the replay is over.
    pub(crate) fn is_over(&self) -> bool {
        self.over.load(Ordering::SeqCst)
    }

    /// Tells all threads that it is.
    pub(crate) fn end(&self) {
        self.over.store(true, Ordering::SeqCst);
    }
}

/// A place for each caller.
fn places_for(alloc: Global, shared: &Shared, trace: &Trace) -> Result<Vec<Place>, NoMemory>
    ensures places { IfOk result (λ places. ArePlaces shared.now trace.now places.items) }
    ensures all { IfOk result (λ places. length places.items ≡ trace.now.callers) }
    ensures few { trace.now.callers ≤ 32 }
{
    let callers = trace.callers();
    let mut places = Vec::with_capacity(alloc, callers as usize)?;
    for number in 0..callers {
        places.push_reserved(Place::new(shared, trace, number));
    }
    Ok(places)
}

/// Serves all places, by a thread for each, until the replay is over.
pub(crate) fn serve_all<R: Threads + Sync, G: Gate + Sync>(rt: &R, stage: &Stage<'_, G>)
    requires { IsSet stage.now }
{
    let threads = stage.places.len();
    if threads == 0 {
        return;
    }
    let mut numbers = [0u8; 32];
    for_each_mut(
        rt,
        &mut numbers[..threads],
        threads,
        &|i, _: &mut u8|
            requires { (i < length stage.now.places.items) × IsSet stage.now }
        { serve(stage, i as u8) },
    );
}

/// Makes the calls of a caller whenever it is due at its place, until the replay is over.
fn serve<G: Gate>(stage: &Stage<'_, G>, number: u8)
    requires set { IsSet stage.now }
    requires number { number < stage.now.trace.now.callers }
{
    let mut looks = 0u64;
    for _ in 0..u64::MAX {
        if stage.is_over() {
            return;
        }
        if play_due(stage, number) {
            looks = 0;
        } else {
            pause(looks);
            looks = looks.saturating_add(1);
        }
    }
}

/// Makes the calls of a caller, if it is due at its place.
fn play_due<G: Gate>(stage: &Stage<'_, G>, number: u8) -> bool
    requires set { IsSet stage.now }
    requires number { number < stage.now.trace.now.callers }
{
    let place = &stage.places[number as usize];
    if place.seen() != DUE {
        return false;
    }
    let Some(hand) = place.take(DUE) else {
        return false;
    };
    place.put(stage.played(number, hand), PLAYED).is_ok()
}
