//! A caller with what it shares.
ghost use Rattle.std.specs.Prelude.{◌≡◌, None, [], length};
ghost use Rattle.idsm_api.specs.{IsSameCaller, ReportDoes, Reports, Sets, asked_mode, asked_state, IsFitCaller, log_of, number_of};
ghost use Rattle.report_api.specs.Answers.{given};

use crate::answer::{Answer, answer_of_control, answer_of_report};
use ids_types::{EventIndex, Mode, Stamp};
use report_api::{Pass, Shared};
use std::sync::Arc;

/// One who reports, from any one thread at a time. Its calls take no memory and wait for nobody. It may be given to
/// another thread.
///
/// Contracts see it by `log_of`: its calls so far and what became of them.
#[derive(Drop)]
pub struct Caller {
    pub(crate) shared: Arc<Shared>,
    pub(crate) pass: Pass,
}

impl Caller {
    /// Which caller it is, from 0.
    pub fn number(&self) -> u8
        requires { IsFitCaller self.now }
        ensures { result ≡ number_of self.now }
    {
        self.pass.caller()
    }

    /// How many calls it made. A call that was refused is none.
    pub fn calls(&self) -> u64
        requires { IsFitCaller self.now }
        ensures { result ≡ length (log_of self.now).calls }
    {
        self.pass.calls()
    }

    /// Reports a security event, seen `count` times from 1 to 65,535, with its context data. No bytes are no context.
    /// A report without an event buffer is counted as lost, and one without a context data buffer goes without it.
    /// Steps: as `report_api::Pass::report`. By: `told` (`Reports`); answer `Answer`, no NoMemory.
    pub fn report(
        &mut self,
        event: EventIndex,
        count: u16,
        stamp: Option<Stamp>,
        context: &[u8],
    ) -> Answer
        requires fit { IsFitCaller self.old }
        ensures fit { IsFitCaller self.new }
        ensures does { ReportDoes (given event count stamp context.now) self.old result self.new }
        ensures told { Reports (given event count stamp context.now) self.old result self.new }
    {
        let report = self.pass.report(&self.shared, event, count, stamp, context);
        answer_of_report(&report)
    }

    /// Reports a security event, seen once, without a timestamp and without context.
    /// Steps: as `Caller::report`. By: `does`, `told`.
    pub fn report_event(&mut self, event: EventIndex) -> Answer
        requires fit { IsFitCaller self.old }
        ensures fit { IsFitCaller self.new }
        ensures does { ReportDoes (given event 1 None []) self.old result self.new }
        ensures told { Reports (given event 1 None []) self.old result self.new }
    {
        self.report(event, 1, None, &[])
    }

    /// Reports a security event, seen once, with its context data and without a timestamp.
    /// Steps: as `Caller::report`. By: `does`, `told`.
    pub fn report_context(&mut self, event: EventIndex, context: &[u8]) -> Answer
        requires fit { IsFitCaller self.old }
        ensures fit { IsFitCaller self.new }
        ensures does { ReportDoes (given event 1 None context.now) self.old result self.new }
        ensures told { Reports (given event 1 None context.now) self.old result self.new }
    {
        self.report(event, 1, None, context)
    }

    /// Tells the block state filter that the state changed. A control without an event buffer is lost and not counted.
    /// Steps: as `report_api::Pass::state_changed`. By: `told` (`Sets`); answer `Answer`.
    #[tactic(auto, using(crate::proofs::CallerLemmas::set_same))]
    pub fn set_state(&mut self, state: u8) -> Answer
        requires fit { IsFitCaller self.old }
        ensures fit { IsFitCaller self.new }
        ensures same { IsSameCaller self.old self.new }
        ensures told { Sets (asked_state state) self.old result self.new }
    {
        let control = self.pass.state_changed(&self.shared, state);
        answer_of_control(&control)
    }

    /// Sets the reporting mode of an event, of an internal one too.
    /// Steps: as `report_api::Pass::set_mode`. By: `told` (`Sets`); answer `Answer`.
    #[tactic(auto, using(crate::proofs::CallerLemmas::set_same))]
    pub fn set_mode(&mut self, event: EventIndex, mode: Mode) -> Answer
        requires fit { IsFitCaller self.old }
        ensures fit { IsFitCaller self.new }
        ensures same { IsSameCaller self.old self.new }
        ensures told { Sets (asked_mode event mode) self.old result self.new }
    {
        let control = self.pass.set_mode(&self.shared, event, mode);
        answer_of_control(&control)
    }
}
