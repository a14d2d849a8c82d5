//! The gate of one event: its mode, and its count for every nth.

ghost use Rattle.std.specs.Prelude.{◌≡◌, ◌<◌, ◌==◌, IfOk, if◌then◌else◌};
ghost use Rattle.chain_spec.specs.declared.fate.Fate.TheVariants.{AtNth};
ghost use Rattle.filter_gate.specs.declared.verdict.Verdict.TheVariants.{Held, Pass};
ghost use Rattle.filter_gate.specs.Gate.{fresh_row, since_with_one, with_arrival, with_mode, after_asking, verdict_on};

use crate::verdict::Verdict;
use chain_spec::Fate;
use ids_config::EventParts;
use ids_types::{Mode, NoMemory};
use std::alloc::Global;
use std::marker::Model;

/// What the filters keep of one event.
#[derive(Debug, Drop)]
pub struct Row {
    mode: Mode,
    nth: u64,
    /// How many items arrived since the last nth one.
    since: u64,
    /// The states under which items are dropped.
    block: Vec<u64>,
}

impl Model for Row {
    ghost use Rattle.filter_gate.specs.Gate.{Row as Told};

    ghost Value = { Told };

    ghost use Rattle.filter_gate.specs.RowView.{row_of, IsSoundRow};

    ghost view = { row_of };

    ghost invariant = { IsSoundRow };
}

impl Row {
    /// The row of an event of which nothing came yet.
    pub fn fresh(alloc: Global, event: &EventParts) -> Result<Row, NoMemory>
        requires { 0 < event.now.nth }
        ensures { IfOk result (λ row. row ≡ fresh_row event.now) }
    {
        Ok(Row {
            mode: event.mode,
            nth: event.nth,
            since: 0,
            block: Vec::from_slice(alloc, &event.block)?,
        })
    }

    /// The verdict on an item of the event that comes under this state.
    #[inline(always)]
    pub fn ask(&mut self, state: u64) -> Verdict
        ensures verdict { result ≡ verdict_on state self.old }
        ensures row { self.new ≡ after_asking state self.old }
    {
        match self.mode {
            Mode::Off => Verdict::Held(Fate::AtMode),
            Mode::BriefBypassing => Verdict::Bypass { context: false },
            Mode::DetailedBypassing => Verdict::Bypass { context: true },
            _ if self.block.contains(&state) => Verdict::Held(Fate::AtBlock),
            Mode::Brief => self.sample(false),
            Mode::Detailed => self.sample(true),
        }
    }

    // Counts an item that arrived: each nth one passes.
    #[inline(always)]
    fn sample(&mut self, context: bool) -> Verdict
        ensures verdict { result ≡ (if since_with_one self.old == 0 then Pass context else Held AtNth) }
        ensures row { self.new ≡ with_arrival self.old }
    {
        self.since = (self.since + 1) % self.nth;
        if self.since == 0 {
            Verdict::Pass { context }
        } else {
            Verdict::Held(Fate::AtNth)
        }
    }

    /// The reporting mode.
    pub fn mode(&self) -> Mode
        ensures { result ≡ self.now.mode }
    {
        self.mode
    }

    /// Sets the reporting mode.
    pub fn set_mode(&mut self, mode: Mode)
        ensures { self.new ≡ with_mode mode self.old }
    {
        self.mode = mode;
    }
}
