//! That callers run beside each other, and beside turns, in each round of a replay.

use crate::replays::told::{Told, told_of};
use std::alloc::Global;
use std::sync::atomic::{AtomicU64, Ordering};
use std::test::Fail;
use std::thread;
use std::thread::Threads;
use trace_replay::Gate;

/// How often one who waits looks whether the others came.
const LOOKS: u64 = 100_000_000;

/// Waits until so many came. Where one looked in vain, it is counted as missed, and nobody waits any more.
fn wait(here: &AtomicU64, wanted: u64, missed: &AtomicU64) {
    for _ in 0..LOOKS {
        if here.load(Ordering::SeqCst) >= wanted || missed.load(Ordering::SeqCst) > 0 {
            return;
        }
        thread::yield_now();
    }
    missed.fetch_add(1, Ordering::SeqCst);
}

/// A gate at which, in each round, the first calls of so many callers and the turn beside them wait for each other. A
/// caller makes two calls a round, and the turns beside have the ticks 5, 6 and so on.
#[derive(Drop)]
pub(crate) struct Meeting {
    wanted: u64,
    here: AtomicU64,
    missed: AtomicU64,
}

impl Meeting {
    pub(crate) fn of(callers: u64) -> Meeting {
        Meeting {
            wanted: callers.saturating_add(1),
            here: AtomicU64::new(0),
            missed: AtomicU64::new(0),
        }
    }

    /// Whether all came in each of so many rounds, and each saw that the others did.
    pub(crate) fn have_met(&self, rounds: u64) -> bool {
        self.here.load(Ordering::SeqCst) == self.wanted.saturating_mul(rounds)
            && self.missed.load(Ordering::SeqCst) == 0
    }

    /// Waits for all of this round, who come after all of the rounds before it.
    fn wait(&self, round: u64) {
        self.here.fetch_add(1, Ordering::SeqCst);
        let wanted = self.wanted.saturating_mul(round.saturating_add(1));
        wait(&self.here, wanted, &self.missed);
    }
}

impl Gate for Meeting {
    fn before(&self, _caller: u8, call: u64) {
        if call % 2 == 0 {
            self.wait(call / 2);
        }
    }

    fn after(&self, _caller: u8, _call: u64) {}

    fn beside(&self, tick: u64) {
        self.wait(tick.saturating_sub(5));
    }
}

/// A configuration of so many callers.
fn config_of(alloc: Global, callers: u64) -> Result<String, Fail> {
    Ok(format!(in alloc;
        r#"{{"form":1,"instance":18,"callers":{callers},"ring":64,"events":[{{"id":42,"sensor":3}}]}}"#
    )?)
}

/// A trace of three rounds, with these first and last lines, in each of which so many callers report twice.
fn trace_of(alloc: Global, callers: u64, rounds: [(&str, &str); 3]) -> Result<String, Fail> {
    let mut trace = String::new(alloc);
    for (first, last) in rounds {
        trace.push_str(first)?;
        for caller in 0..callers {
            let line = format!(in alloc; "R {caller} 0 1 - -\n")?;
            trace.push_str(line.as_str())?;
            trace.push_str(line.as_str())?;
        }
        trace.push_str(last)?;
    }
    Ok(trace)
}

/// What the replay of such a trace tells.
fn replayed<R: Threads + Sync, G: Gate + Sync>(
    rt: &R,
    alloc: Global,
    callers: u64,
    rounds: [(&str, &str); 3],
    gate: &G,
) -> Result<Told, Fail> {
    let config = config_of(alloc, callers)?;
    let trace = trace_of(alloc, callers, rounds)?;
    told_of(rt, alloc, config.as_str(), trace.as_bytes(), gate)
}

/// Whether so many callers meet a turn beside them in each of three rounds, and all reports are accepted.
fn meet<R: Threads + Sync>(rt: &R, alloc: Global, callers: u64) -> Result<bool, Fail> {
    let gate = Meeting::of(callers);
    let rounds = [("N 5\n", "E 5\n"), ("N 6\n", "E 6\n"), ("N 7\n", "E 7\n")];
    let told = replayed(rt, alloc, callers, rounds, &gate)?;
    Ok(
        gate.have_met(3)
            && (told.turns, told.losses) == (7, 0)
            && told.entries == callers.saturating_mul(6),
    )
}

#[test]
fn callers_and_a_turn_meet_in_each_round(rt: HostRuntime) -> Result<(), Fail> {
    assert!(rt; meet(&rt, rt.alloc(), 2)?);
    assert!(rt; meet(&rt, rt.alloc(), 32)?);
    Ok(())
}

/// A gate at which, in each round, the first of two turns beside waits for the first call of each of three callers, and
/// each second call waits for that turn to be made, which the turn after it tells. The turns beside have the ticks 0 and
/// 1, 10 and 11, and so on.
#[derive(Drop)]
struct Between {
    called: AtomicU64,
    turned: AtomicU64,
    missed: AtomicU64,
}

impl Gate for Between {
    fn before(&self, _caller: u8, call: u64) {
        if call % 2 == 1 {
            wait(&self.turned, call / 2 + 1, &self.missed);
        }
    }

    fn after(&self, _caller: u8, call: u64) {
        if call % 2 == 0 {
            self.called.fetch_add(1, Ordering::SeqCst);
        }
    }

    fn beside(&self, tick: u64) {
        if tick % 10 == 0 {
            wait(&self.called, 3 * (tick / 10 + 1), &self.missed);
        } else {
            self.turned.fetch_add(1, Ordering::SeqCst);
        }
    }
}

#[test]
fn in_each_round_a_turn_takes_what_was_called_before_it(rt: HostRuntime) -> Result<(), Fail> {
    let gate = Between {
        called: AtomicU64::new(0),
        turned: AtomicU64::new(0),
        missed: AtomicU64::new(0),
    };
    let rounds = [
        ("N 0 1\n", "E 2\n"),
        ("N 10 11\n", "E 12\n"),
        ("N 20 21\n", "E 22\n"),
    ];
    let told = replayed(&rt, rt.alloc(), 3, rounds, &gate)?;
    assert_eq!(rt; gate.missed.load(Ordering::SeqCst), 0);
    for first in ["0: 0.0 1.0 2.0\n", "10: 0.2 1.2 2.2\n", "20: 0.4 1.4 2.4\n"] {
        assert!(rt; told.calls.as_str().contains(first), "{}", told.calls);
    }
    assert_eq!(rt; (told.turns, told.entries, told.losses), (10, 18, 0));
    Ok(())
}
