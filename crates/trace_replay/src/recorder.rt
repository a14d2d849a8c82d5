//! The manager of a replay, with what is gathered of its turns.
ghost use Rattle.std.specs.Prelude.{◌≡◌, ◌≤◌, ◌<◌, ◌^◌, ◌∷◌, [], map, OnOk};
ghost use Rattle.std.specs.List.{All};
ghost use Rattle.trace_replay.specs.{AllOf, AreAllPasses, Closes, Continues, IsManagerOf, KeepUpFrom, StaysSame, TurnsAtRest, desk_memo, last_of, pass_memo, passes_of, turns_of, views_of};

use crate::caller::{Caller, Gate};
use crate::gathered::Gathered;
use filter_chain::{ParcelChain, Transcript};
use ids_types::NoMemory;
use main_function::Manager;
use report_api::{CtxBuf, Pass, Shared};
use trace_text::Trace;

/// How many turns a manager makes at most.
const MOST_TURNS: u64 = 1 << 62;

/// How many rests each round has.
const RESTS: u64 = 2;

/// A manager, whose log gathers its turns, and what they sent so far.
#[derive(Drop)]
pub(crate) struct Recorder<C> {
    pub(crate) manager: Manager<C, Gathered>,
    pub(crate) transcript: Transcript,
}

impl<C: ParcelChain<CtxBuf>> Recorder<C> {
    /// Makes room for the rests of all rounds of a trace.
    pub(crate) fn reserve_rests(&mut self, trace: &Trace) -> Result<(), NoMemory>
        ensures { StaysSame C.stands C.events C.kept self.old self.new }
    {
        let rests = trace.rounds().saturating_mul(RESTS);
        self.manager
            .reserve_rests(rests, u64::from(trace.callers()))
    }

    /// Makes a turn.
    pub(crate) fn turn(&mut self, shared: &Shared, tick: u64) -> Result<(), NoMemory>
        requires mine { IsManagerOf C.events C.kept shared.now self.old.manager }
        requires later { last_of self.old.manager ≤ tick }
        requires small { tick ≤ 2 ^ 62 }
        ensures { OnOk result (Continues C.stands C.events C.kept shared.now (tick ∷ []) self.old self.new) }
    {
        self.can_turn()?;
        let Ok(out) = self.manager.turn(shared, tick) else {
            unreachable!()
        };
        self.transcript.add(out)?;
        self.manager.log().check()
    }

    /// Makes a turn at a rest of all callers.
    pub(crate) fn turn_at_rest(
        &mut self,
        shared: &Shared,
        callers: &mut [Caller],
        tick: u64,
    ) -> Result<(), NoMemory>
        requires mine { IsManagerOf C.events C.kept shared.now self.old.manager }
        requires later { last_of self.old.manager ≤ tick }
        requires small { tick ≤ 2 ^ 62 }
        requires passes { AreAllPasses shared.now (desk_memo self.old.manager.desk) (passes_of callers.old) }
        ensures turns { OnOk result (TurnsAtRest C.stands C.events C.kept shared.now tick (views_of callers.old) (views_of callers.new) self.old self.new) }
        ensures passes { OnOk result (AreAllPasses shared.now (desk_memo self.old.manager.desk) (passes_of callers.new)) }
        ensures losses { OnOk result (AllOf (λ i old new. new.losses ≡ old.losses) callers.old callers.new) }
    {
        self.can_turn()?;
        let Ok(out) = self.manager.turn_at_rest(shared, callers, tick) else {
            unreachable!()
        };
        self.transcript.add(out)?;
        self.manager.log().check()
    }

    /// Makes a turn of each of these ticks, each after a word to the gate.
    pub(crate) fn turns_beside<G: Gate>(
        &mut self,
        shared: &Shared,
        ticks: &[u64],
        gate: &G,
    ) -> Result<(), NoMemory>
        requires mine { IsManagerOf C.events C.kept shared.now self.old.manager }
        requires later { KeepUpFrom (last_of self.old.manager) ticks.now }
        requires small { All (λ tick. tick ≤ 2 ^ 62) ticks.now }
        ensures { OnOk result (Continues C.stands C.events C.kept shared.now ticks.now self.old self.new) }
    {
        for tick in ticks {
            gate.beside(*tick);
            self.turn(shared, *tick)?;
        }
        Ok(())
    }

    /// Takes all passes back, and all that is left in a last turn.
    pub(crate) fn close(
        &mut self,
        shared: &Shared,
        passes: &mut Vec<Pass>,
        tick: u64,
    ) -> Result<(), NoMemory>
        requires mine { IsManagerOf C.events C.kept shared.now self.old.manager }
        requires later { last_of self.old.manager ≤ tick }
        requires small { tick ≤ 2 ^ 62 }
        requires passes { AreAllPasses shared.now (desk_memo self.old.manager.desk) passes.old.items }
        ensures { OnOk result (Closes C.stands C.events C.kept shared.now tick (map pass_memo passes.old.items) self.old self.new) }
    {
        self.can_turn()?;
        let Ok((out, _)) = self.manager.close(shared, passes, tick) else {
            unreachable!()
        };
        self.transcript.add(out)?;
        self.manager.log().check()
    }

    // Whether the manager can make one turn more.
    fn can_turn(&self) -> Result<(), NoMemory>
        ensures { OnOk result (turns_of self.now.manager < 2 ^ 62) }
    {
        if self.manager.turns() >= MOST_TURNS {
            return Err(NoMemory);
        }
        Ok(())
    }
}
