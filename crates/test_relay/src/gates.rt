//! Gates that feeders wait at, or that count what they are told.

use ids_reporter::FeedGate;
use std::sync::atomic::{AtomicU64, Ordering};
use std::{array, thread};

/// How often one who waits looks whether the others came.
const LOOKS: u64 = 100_000_000;

/// A gate at which the first puts of so many feeders wait for each other.
#[derive(Drop)]
pub struct Meeting {
    wanted: u64,
    here: AtomicU64,
    missed: AtomicU64,
}

impl Meeting {
    pub fn of(feeders: u64) -> Meeting {
        Meeting {
            wanted: feeders,
            here: AtomicU64::new(0),
            missed: AtomicU64::new(0),
        }
    }

    /// Whether all came, and nobody looked in vain.
    pub fn have_met(&self) -> bool {
        self.here.load(Ordering::SeqCst) == self.wanted && self.missed.load(Ordering::SeqCst) == 0
    }

    // Where one looked in vain, nobody waits any more.
    fn wait(&self) {
        self.here.fetch_add(1, Ordering::SeqCst);
        for _ in 0..LOOKS {
            if self.here.load(Ordering::SeqCst) >= self.wanted
                || self.missed.load(Ordering::SeqCst) > 0
            {
                return;
            }
            thread::yield_now();
        }
        self.missed.fetch_add(1, Ordering::SeqCst);
    }
}

impl FeedGate for Meeting {
    fn before(&self, _feeder: u8, index: u64) {
        if index == 0 {
            self.wait();
        }
    }
}

/// A gate that counts the puts of eight feeders, and what it was told out of turn.
#[derive(Drop)]
pub struct Roll {
    puts: [AtomicU64; 8],
    strange: AtomicU64,
}

impl Roll {
    pub fn new() -> Roll {
        Roll {
            puts: array::from_fn(|_| AtomicU64::new(0)),
            strange: AtomicU64::new(0),
        }
    }

    /// Whether each feeder told of so many puts, one after the other, and nothing else was told.
    pub fn is_whole(&self, each: u64) -> bool {
        self.puts
            .iter()
            .all(|put| put.load(Ordering::SeqCst) == each)
            && self.strange.load(Ordering::SeqCst) == 0
    }
}

impl FeedGate for Roll {
    fn before(&self, feeder: u8, index: u64) {
        let next = match self.puts.get(usize::from(feeder)) {
            Some(puts) => puts.fetch_add(1, Ordering::SeqCst),
            None => u64::MAX,
        };
        if next != index {
            self.strange.fetch_add(1, Ordering::SeqCst);
        }
    }
}
