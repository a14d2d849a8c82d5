//! A caller of a replay: its pass, the calls that it lost, and the gate that is told of each.
ghost use Rattle.std.specs.Prelude.{◌≡◌, ◌+◌, ◌<◌, ◌≤◌, ◌^◌, length, vec_len, vec_capacity, OnOk};
ghost use Rattle.std.proofs.Common.{◌∙◌};
ghost use Rattle.trace_replay.specs.{AsksOnce, CallsOnce, HasRoom, IsAtRest, IsPassOf, MayAllBeAsked, MayBeAsked, act_asked, control_look, line_asked, lines_at, lines_before, lines_of, pass_memo, queue_positions, report_look, round_at, sizes_of, told};

use ids_types::{Loss, NoMemory};
use main_function::HasPass;
use report_api::{Control, Desk, Look, Pass, Report, Shared};
use trace_text::{Line, Trace, TraceAct};

/// Is told before and after each call of a caller, and before each turn beside the calls, in the thread that makes it.
/// A test's gate lets threads wait for each other here.
pub trait Gate {
    /// A caller is about to make a call.
    /// Steps: `OpenGate`: constant. Memory: `OpenGate`: none. Waits: as its gate; `OpenGate`: no. By: no body.
    fn before(&self, caller: u8, call: u64);

    /// A caller has made a call.
    /// Steps: `OpenGate`: constant. Memory: `OpenGate`: none. Waits: as its gate; `OpenGate`: no. By: no body.
    fn after(&self, caller: u8, call: u64);

    /// A turn is about to be made beside the calls of a round.
    /// Steps: `OpenGate`: constant. Memory: `OpenGate`: none. Waits: as its gate; `OpenGate`: no. By: no body.
    fn beside(&self, tick: u64);
}

/// A gate that stops nobody.
#[derive(Clone, Copy, Debug)]
pub struct OpenGate;

impl Gate for OpenGate {
    fn before(&self, _caller: u8, _call: u64) {}

    fn after(&self, _caller: u8, _call: u64) {}

    fn beside(&self, _tick: u64) {}
}

/// A caller, with its calls that found no event buffer.
#[derive(Drop)]
pub(crate) struct Caller {
    pub(crate) pass: Pass,
    pub(crate) losses: Vec<Loss>,
}

impl HasPass for Caller {
    ghost its = { λ caller. caller.pass };

    ghost stays = { λ old new. new.losses ≡ old.losses };

    ghost stays_on = { λ x y z first then. then ∙ first };

    fn pass(&self) -> &Pass {
        &self.pass
    }

    fn hold(&mut self, desk: &mut Desk, shared: &Shared) {
        desk.hold(shared, &mut self.pass);
    }

    fn release(&mut self, desk: &mut Desk, shared: &Shared) {
        desk.release(shared, &mut self.pass);
    }
}

impl Caller {
    /// Makes room for so many losses more.
    pub(crate) fn reserve(&mut self, lines: u64) -> Result<(), NoMemory>
        ensures room { OnOk result (HasRoom lines self.new) }
        ensures pass { self.new.pass ≡ self.old.pass }
        ensures losses { self.new.losses.items ≡ self.old.losses.items }
    {
        self.losses.reserve(lines as usize)?;
        Ok(())
    }

    /// Makes the calls that the lines of a round ask for, each between two words to the gate. Takes no memory.
    pub(crate) fn play<G: Gate>(
        &mut self,
        caller: u8,
        shared: &Shared,
        positions: u64,
        trace: &Trace,
        round: u64,
        gate: &G,
    )
        requires rest { IsAtRest shared.now caller (lines_before trace.now.rounds round caller) self.old }
        requires positions { positions ≡ queue_positions shared.now.queue }
        requires caller { caller < trace.now.callers }
        requires round { round < length trace.now.rounds }
        requires asked { MayAllBeAsked shared.now.terms trace.now.rounds }
        requires few { length (lines_of caller trace.now.rounds) < 2 ^ 32 }
        requires room { HasRoom (length (lines_at caller (round_at trace.now.rounds round))) self.old }
        ensures rest { IsAtRest shared.now caller (lines_before trace.now.rounds (round + 1) caller) self.new }
    {
        for i in 0..trace.lines(round, caller) {
            let call = self.pass.calls();
            gate.before(caller, call);
            self.call(shared, positions, &trace.line(round, caller, i));
            gate.after(caller, call);
        }
    }

    // Makes the call that a line asks for, and lists it where it was lost.
    fn call(&mut self, shared: &Shared, positions: u64, line: &Line<'_>)
        requires mine { IsPassOf shared.now self.old.pass }
        requires few { (pass_memo self.old.pass).view.calls < 2 ^ 40 }
        requires asked { MayBeAsked shared.now.terms (line_asked line.now) }
        requires room { vec_len self.old.losses < vec_capacity self.old.losses }
        ensures mine { IsPassOf shared.now self.new.pass }
        ensures once { CallsOnce (sizes_of shared.now) positions (line_asked line.now) (told self.old) (told self.new) }
        ensures few { vec_len self.new.losses ≤ vec_len self.old.losses + 1 }
        ensures room { vec_capacity self.new.losses ≡ vec_capacity self.old.losses }
    {
        let (caller, call) = (self.pass.caller(), self.pass.calls());
        if let Some(look) = ask(&mut self.pass, shared, &line.act) {
            self.losses.push_reserved(Loss {
                caller,
                call,
                given: look.claimed.saturating_sub(positions),
            });
        }
    }
}

/// Makes the call that is asked for, and answers what it found where it was lost.
fn ask(pass: &mut Pass, shared: &Shared, act: &TraceAct<'_>) -> Option<Look>
    requires mine { IsPassOf shared.now pass.old }
    requires few { (pass_memo pass.old).view.calls < 2 ^ 40 }
    requires asked { MayBeAsked shared.now.terms (act_asked act.now) }
    ensures mine { IsPassOf shared.now pass.new }
    ensures once { AsksOnce (sizes_of shared.now) (act_asked act.now) (pass_memo pass.old) result (pass_memo pass.new) }
{
    match *act {
        TraceAct::Report {
            event,
            count,
            stamp,
            context,
        } => lost_report(pass.report(shared, event, count, stamp, context)),
        TraceAct::State(state) => lost_control(pass.state_changed(shared, state)),
        TraceAct::SetMode { event, mode } => lost_control(pass.set_mode(shared, event, mode)),
    }
}

/// What a report found where it was lost.
fn lost_report(answer: Report) -> Option<Look>
    ensures { result ≡ report_look answer }
{
    match answer {
        Report::LostEvent(look) => Some(look),
        _ => None,
    }
}

/// What a control found where it was lost.
fn lost_control(answer: Control) -> Option<Look>
    ensures { result ≡ control_look answer }
{
    match answer {
        Control::LostEvent(look) => Some(look),
        _ => None,
    }
}
