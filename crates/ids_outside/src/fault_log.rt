//! What a shelf and a sink count: their faults, and the calls of a test that are to fail.

ghost use Rattle.std.specs.Prelude.{◌≡◌, ◌↔◌, option_map, string_bytes, OnOk, OnErr, IsTrue};
ghost use Rattle.ids_outside.specs.Faults.{Faults, no_faults, CountsFault, WantsMemory, Plan, IsToFail, CountsCall};
ghost use Rattle.ids_outside.specs.Sinks.{Misses, no_misses, MissesOne, RefusesOne};

use crate::faults::FaultKind;
use std::alloc::AllocError;
use std::marker::Model;

/// The faults of a shelf: how many there were, and the last one with the name that its call was given; and how often
/// memory was refused.
#[derive(Debug, Drop)]
pub(crate) struct FaultLog {
    pub(crate) count: u64,
    pub(crate) last: Option<(FaultKind, String)>,
    refused: u64,
}

impl Model for FaultLog {
    ghost Value = { Faults };

    ghost view = { λ log. record {
      count = log.count;
      last = option_map (λ p. record { kind = p.0; name = string_bytes p.1 }) log.last;
      refused = log.refused;
    } };
}

impl FaultLog {
    pub(crate) fn new() -> FaultLog
        ensures { result ≡ no_faults }
    {
        FaultLog {
            count: 0,
            last: None,
            refused: 0,
        }
    }

    /// Counts a fault. The count stays at its greatest value once there.
    pub(crate) fn note(&mut self, kind: FaultKind, name: String)
        ensures counts { CountsFault self.old self.new kind (string_bytes name) }
    {
        self.count = self.count.saturating_add(1);
        self.last = Some((kind, name));
    }
    /// Counts a refusal of memory, up to the greatest value.
    pub(crate) fn refuse(&mut self)
        ensures { WantsMemory self.old self.new }
    {
        self.refused = self.refused.saturating_add(1);
    }

    /// Hands on what the allocator answered, and counts a refusal.
    pub(crate) fn served<T: Drop>(&mut self, answer: Result<T, AllocError>) -> Result<T, AllocError>
        ensures same { result ≡ answer }
        ensures ok { OnOk result (self.new ≡ self.old) }
        ensures err { OnErr result (WantsMemory self.old self.new) }
    {
        if answer.is_err() {
            self.refuse();
        }
        answer
    }
}

/// The puts that a sink missed: how many failed, and how many were refused memory.
#[derive(Debug, Drop)]
pub(crate) struct Missed {
    pub(crate) failed: u64,
    refused: u64,
}

impl Model for Missed {
    ghost Value = { Misses };

    ghost view = { λ m. record { failed = m.failed; refused = m.refused } };
}

impl Missed {
    pub(crate) fn new() -> Missed
        ensures { result ≡ no_misses }
    {
        Missed {
            failed: 0,
            refused: 0,
        }
    }

    /// Counts a put that failed, up to the greatest value.
    pub(crate) fn fail(&mut self)
        ensures { MissesOne self.old self.new }
    {
        self.failed = self.failed.saturating_add(1);
    }

    /// Counts a put that was refused memory, up to the greatest value.
    pub(crate) fn refuse(&mut self)
        ensures { RefusesOne self.old self.new }
    {
        self.refused = self.refused.saturating_add(1);
    }
}

/// Which calls are to fail, by their numbers from 0, and how many calls were made.
#[derive(Debug, Drop)]
pub(crate) struct Script {
    pub(crate) fails: Vec<u64>,
    pub(crate) calls: u64,
}

impl Model for Script {
    ghost Value = { Plan };

    ghost view = { λ s. record { fails = s.fails.items; calls = s.calls } };
}

impl Script {
    /// Counts a call, and says whether it is to fail.
    pub(crate) fn next_fails(&mut self) -> bool
        ensures fails { IsTrue result ↔ IsToFail self.old }
        ensures counts { CountsCall self.old self.new }
    {
        let fails = self.fails.contains(&self.calls);
        self.calls = self.calls.saturating_add(1);
        fails
    }
}
