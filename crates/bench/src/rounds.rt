//! Rounds of batches of a ring's calls: on one thread, and by callers in threads of their own beside a taker.
ghost use Rattle.std.specs.Prelude.{All};
ghost use Rattle.std.specs.Thread.{IsSync};

use crate::times::{Bench, Pair, Times, Told};
use std::alloc::AllocError;
use std::hint::spin_loop;
use std::rt::Clock;
use std::sync::atomic::{AtomicU64, Ordering};
use std::thread::{Threads, join, map_vec, yield_now};
use std::time::Instant;

/// What callers and a taker share.
pub trait Ring: Sync {
    type Caller: Send + Drop;

    type Taker: Send + Drop;

    /// The caller is one of this ring, between two calls.
    ghost calls: { Self → Self.Caller → Type 0 };

    /// The taker is this ring's, between two calls.
    ghost takes: { Self → Self.Taker → Type 0 };

    /// Puts a batch of so many items, and answers how many found room.
    fn put(&self, caller: &mut Self::Caller, batch: u64) -> u64
        requires ready { calls self.now caller.old }
        ensures ready { calls self.now caller.new };

    /// Takes what is ready, at most a batch, makes its room free, and answers how many items there were.
    fn take(&self, taker: &mut Self::Taker, batch: u64) -> u64
        requires ready { takes self.now taker.old }
        ensures ready { takes self.now taker.new };
}

/// How many items a batch of puts has, how many one of takes, and how many rounds there are.
pub type Size = (u64, u64, u64);

impl<R: Clock + AllocGlobal + Threads + Sync> Bench<'_, R> {
    // A batch of puts.
    fn put<G: Ring>(&self, ring: &G, caller: &mut G::Caller, puts: &mut Times) -> Option<u64>
        requires { G.calls ring.now caller.old }
        ensures { G.calls ring.now caller.new }
    {
        let start = Instant::now(self.rt).ok()?;
        let count = ring.put(caller, puts.batch);
        self.add(puts, start, count)
    }

    // A batch of takes.
    fn take<G: Ring>(&self, ring: &G, taker: &mut G::Taker, takes: &mut Times) -> Option<u64>
        requires { G.takes ring.now taker.old }
        ensures { G.takes ring.now taker.new }
    {
        let start = Instant::now(self.rt).ok()?;
        let count = ring.take(taker, takes.batch);
        self.add(takes, start, count)
    }

    // Adds a batch that began then. Answers how many items it had.
    fn add(&self, times: &mut Times, start: Instant, count: u64) -> Option<u64> {
        let nanos = start.elapsed(self.rt).ok()?.as_nanos();
        times.add(nanos, count).ok()?;
        Some(count)
    }

    /// One caller in turn with the taker: in each round a batch of puts, and then takes until nothing is left. After no
    /// puts there is one batch of takes.
    pub fn alone<G: Ring>(
        &self,
        ring: &G,
        size: Size,
        callers: &mut [G::Caller],
        taker: &mut G::Taker,
    ) -> Option<Pair>
        requires callers { All (G.calls ring.now) callers.old }
        requires taker { G.takes ring.now taker.old }
    {
        let [caller] = callers else {
            return None;
        };
        let mut puts = Times::new(self.rt.alloc(), size.0);
        let mut takes = Times::new(self.rt.alloc(), size.1);
        for _ in 0..size.2 {
            self.put(ring, caller, &mut puts)?;
            for _ in 0..size.0.max(1) {
                if self.take(ring, taker, &mut takes)? == 0 {
                    break;
                }
            }
        }
        Some((puts.told(), takes.told()))
    }

    /// One caller in turn with the taker, or each of several in a thread of its own beside it.
    pub fn measure<G: Ring>(
        &self,
        ring: &G,
        size: Size,
        mut callers: Vec<G::Caller>,
        taker: &mut G::Taker,
    ) -> Option<Pair>
        requires callers { All (G.calls ring.now) callers.items }
        requires taker { G.takes ring.now taker.old }
    {
        if callers.len() == 1 {
            return self.alone(ring, size, callers.as_mut_slice(), taker);
        }
        let round = (callers.len() as u64).wrapping_mul(size.0);
        let open = &AtomicU64::new(1);
        let (all, takes) = join(
            self.rt,
            move || -> Result<Vec<Times>, AllocError>
                requires { IsSync R.row × IsSync G.row × All (G.calls ring.now) callers.items }
            {
                let call = |caller: G::Caller| -> Times
                    requires { G.calls ring.now caller }
                { self.call(ring, size, open, caller) };
                map_vec(self.rt, callers, &call)
            },
            move || -> Told
                requires { IsSync G.row × G.takes ring.now taker.now }
            { self.serve(ring, (round, size.1, size.2), open, taker) },
        );
        Some((self.joined(&all.ok()?)?, takes))
    }

    // What the batches of all callers tell.
    fn joined(&self, all: &[Times]) -> Option<Told> {
        let mut puts = Times::new(self.rt.alloc(), all.first()?.batch);
        for times in all {
            puts.join(times).ok()?;
        }
        Some(puts.told())
    }

    // A caller's batches, one in each round that is opened.
    fn call<G: Ring>(&self, ring: &G, size: Size, open: &AtomicU64, mut caller: G::Caller) -> Times
        requires { G.calls ring.now caller }
    {
        let mut puts = Times::new(self.rt.alloc(), size.0);
        for round in 0..size.2 {
            wait_for(open, round);
            if self.put(ring, &mut caller, &mut puts).is_none() {
                break;
            }
        }
        puts
    }

    // The taker's batches, at most a million, which takes some four seconds. It opens a round once it has taken as many
    // items as all callers put in those before.
    fn serve<G: Ring>(&self, ring: &G, size: Size, open: &AtomicU64, taker: &mut G::Taker) -> Told
        requires { G.takes ring.now taker.old }
    {
        let mut takes = Times::new(self.rt.alloc(), size.1);
        let mut taken: u64 = 0;
        for _ in 0..1_000_000u64 {
            let Some(count) = self.take(ring, taker, &mut takes) else {
                break;
            };
            taken = taken.wrapping_add(count);
            if taken == size.0.wrapping_mul(size.2) {
                break;
            }
            if count > 0 && taken.checked_rem(size.0) == Some(0) {
                open.fetch_add(1, Ordering::SeqCst);
            }
            if count < takes.batch {
                pause();
            }
        }
        open.store(u64::MAX, Ordering::SeqCst);
        takes.told()
    }
}

// Waits until a round is open, and lets other threads run where that takes long.
fn wait_for(open: &AtomicU64, round: u64) {
    for look in 0..20_000_000u64 {
        if open.load(Ordering::SeqCst) > round {
            break;
        }
        if look < 10_000 {
            spin_loop();
        } else {
            yield_now();
        }
    }
}

// Leaves callers undisturbed for a while, where few items are ready.
fn pause() {
    for _ in 0..64u8 {
        spin_loop();
    }
}
