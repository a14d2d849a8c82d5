//! What a gate is told.

use crate::replays::told::told_of;
use std::sync::atomic::{AtomicU64, Ordering};
use std::test::Fail;
use trace_replay::Gate;

/// A gate that notes each call, and counts what it is told twice, out of order, or of no call of the trace.
#[derive(Drop)]
struct Tally {
    before: AtomicU64,
    after: AtomicU64,
    beside: AtomicU64,
    wrong: AtomicU64,
}

/// The bit of one of a caller's first eight calls.
fn bit(caller: u8, call: u64) -> u64 {
    1u64 << u64::from(caller)
        .saturating_mul(8)
        .saturating_add(call)
        .min(63)
}

impl Tally {
    fn note(&self, is_right: bool) {
        if !is_right {
            self.wrong.fetch_add(1, Ordering::SeqCst);
        }
    }
}

impl Gate for Tally {
    fn before(&self, caller: u8, call: u64) {
        let was = self.before.fetch_or(bit(caller, call), Ordering::SeqCst);
        self.note(caller < 4 && call < 6 && was & bit(caller, call) == 0);
    }

    fn after(&self, caller: u8, call: u64) {
        let was = self.after.fetch_or(bit(caller, call), Ordering::SeqCst);
        let before = self.before.load(Ordering::SeqCst);
        self.note(was & bit(caller, call) == 0 && before & bit(caller, call) != 0);
    }

    fn beside(&self, _tick: u64) {
        self.beside.fetch_add(1, Ordering::SeqCst);
    }
}

#[test]
fn a_gate_is_told_of_each_call_once(rt: HostRuntime) -> Result<(), Fail> {
    let alloc = rt.alloc();
    let config =
        r#"{"form":1,"instance":18,"callers":4,"ring":32,"events":[{"id":42,"sensor":3}]}"#;
    let mut text = String::new(alloc);
    for round in 0..2 {
        text.push_str("N 5\n")?;
        for caller in 0..4 {
            let line = format!(in alloc; "R {caller} 0 1 - -\n")?;
            text.push_str(line.as_str())?;
            text.push_str(line.as_str())?;
            text.push_str(line.as_str())?;
        }
        text.push_str(format!(in alloc; "E {}\n", 5 + round)?.as_str())?;
    }
    let gate = Tally {
        before: AtomicU64::new(0),
        after: AtomicU64::new(0),
        beside: AtomicU64::new(0),
        wrong: AtomicU64::new(0),
    };
    told_of(&rt, alloc, config, text.as_bytes(), &gate)?;
    assert_eq!(rt; gate.wrong.load(Ordering::SeqCst), 0);
    assert_eq!(rt; gate.before.load(Ordering::SeqCst), 0x3f3f_3f3f);
    assert_eq!(rt; gate.after.load(Ordering::SeqCst), 0x3f3f_3f3f);
    assert_eq!(rt; gate.beside.load(Ordering::SeqCst), 2);
    Ok(())
}
