//! Who is at work in a round, and who waits for whom. No clause says any of it.

use std::sync::atomic::{AtomicBool, Ordering};
use std::thread::Threads;
use std::{hint, thread};

/// How often a put or a take is tried in a round: as good as without end.
pub(crate) const TRIES: u32 = u32::MAX;

/// How often the drain tries a take while no feeder is at work.
const PATIENCE: u32 = 1 << 14;

/// How many tries keep the processor between them; later ones give it away.
const QUICK_TRIES: u32 = 8;

/// For how many spins they keep it: long enough that a feeder fills the queue of a run, or the drain empties it, with
/// nobody in the way.
const SPINS: u32 = 256;

/// Who is at work in a round. Where the host begins no thread, the drain has its part before the feeders.
#[derive(Drop)]
pub(crate) struct Presence {
    feeders: AtomicBool,
    drain: AtomicBool,
    patience: u32,
}

impl Presence {
    /// Before the round. Where the host begins a thread that does nothing, it may begin those of the feeders: so the
    /// drain is patient.
    pub(crate) fn new<R: Threads>(rt: &R) -> Presence {
        let patience = thread::spawn(rt, || ()).map_or(0, |idle| {
            idle.join(rt);
            PATIENCE
        });
        Presence {
            feeders: AtomicBool::new(false),
            drain: AtomicBool::new(true),
            patience,
        }
    }

    /// The feeders begin their part, or have ended it.
    pub(crate) fn set_feeders(&self, at_work: bool) {
        self.feeders.store(at_work, Ordering::SeqCst);
    }

    /// The drain has ended its part.
    pub(crate) fn end_drain(&self) {
        self.drain.store(false, Ordering::SeqCst);
    }

    /// Whether a feeder that finds no room is to wait.
    pub(crate) fn has_drain(&self) -> bool {
        self.drain.load(Ordering::SeqCst)
    }

    /// Whether the drain, which finds no pair and tried so often before, is to wait.
    pub(crate) fn has_feeders(&self, tries: u32) -> bool {
        tries < self.patience || self.feeders.load(Ordering::SeqCst)
    }
}

/// Waits for a moment. Who tried often before gives the processor away.
pub(crate) fn pause(tries: u32) {
    if tries < QUICK_TRIES {
        for _ in 0..SPINS {
            hint::spin_loop();
        }
    } else {
        thread::yield_now();
    }
}
