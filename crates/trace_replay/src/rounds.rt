//! The rounds of a replay.
ghost use Rattle.std.specs.Prelude.{◌≡◌, ℕ, ◌+◌, ◌<◌, ◌≤◌, ◌^◌, length, OnOk};
ghost use Rattle.std.specs.List.{All};
ghost use Rattle.std.specs.Thread.{IsSync};
ghost use Rattle.trace_replay.specs.{AreAtRest, Continues, EndsRound, IsBetween, IsManagerOf, IsSet, KeepUpFrom, Plays, desk_memo, last_of, round_at};

use crate::caller::{Caller, Gate};
use crate::handing::{Patience, hand_over, take_back};
use crate::recorder::Recorder;
use crate::stage::{Stage, serve_all};
use filter_chain::ParcelChain;
use ids_types::NoMemory;
use report_api::CtxBuf;
use std::thread::{Threads, join_mut};

/// Plays a trace: the main function's turns, round by round, beside the threads of the callers, which last through all
/// rounds. After the last round the threads are told that the replay is over.
pub(crate) fn play_beside<R: Threads + Sync, G: Gate + Sync, C: ParcelChain<CtxBuf>>(
    rt: &R,
    stage: &Stage<'_, G>,
    recorder: &mut Recorder<C>,
    callers: &mut Vec<Caller>,
) -> Result<(), NoMemory>
    requires set { IsSet stage.now }
    requires between { IsBetween C.events C.kept stage.now.shared.now stage.now.trace.now 0 callers.old.items recorder.old }
    ensures { OnOk result (Plays C.stands C.events C.kept stage.now.shared.now stage.now.trace.now (length stage.now.trace.now.rounds)
        callers.new.items recorder.old recorder.new) }
{
    let ((), made) = join_mut(
        rt,
        &mut || -> ()
            requires { IsSync R.row × IsSync G.row × IsSet stage.now }
        { serve_all(rt, stage) },
        &mut || -> Result<(), NoMemory>
            requires { IsSet stage.now × IsBetween C.events C.kept stage.now.shared.now stage.now.trace.now 0 callers.now.items recorder.now }
            ensures { OnOk result (Plays C.stands C.events C.kept stage.entry.now.shared.now stage.entry.now.trace.now
                (length stage.entry.now.trace.now.rounds) callers.exit.now.items recorder.entry.now recorder.exit.now) }
        {
            let made = play_rounds(stage, recorder, callers);
            stage.end();
            made
        },
    );
    made
}

/// Plays all rounds of a trace, one after the other: the callers' calls of each beside the turns of its ticks beside, and
/// then one turn more, between two rests.
fn play_rounds<G: Gate, C: ParcelChain<CtxBuf>>(
    stage: &Stage<'_, G>,
    recorder: &mut Recorder<C>,
    callers: &mut Vec<Caller>,
) -> Result<(), NoMemory>
    requires set { IsSet stage.now }
    requires between { IsBetween C.events C.kept stage.now.shared.now stage.now.trace.now 0 callers.old.items recorder.old }
    ensures { OnOk result (Plays C.stands C.events C.kept stage.now.shared.now stage.now.trace.now (length stage.now.trace.now.rounds)
        callers.new.items recorder.old recorder.new) }
{
    let patience = &mut Patience::new();
    for round in 0..stage.trace.rounds() {
        play_calls(stage, round, patience, recorder, callers)?;
        end_round(stage, round, recorder, callers.as_mut_slice())?;
    }
    Ok(())
}

/// The callers' calls of a round, beside the turns of its ticks beside.
fn play_calls<G: Gate, C: ParcelChain<CtxBuf>>(
    stage: &Stage<'_, G>,
    round: u64,
    patience: &mut Patience,
    recorder: &mut Recorder<C>,
    callers: &mut Vec<Caller>,
) -> Result<(), NoMemory>
    requires set { IsSet stage.now }
    requires round { round < length stage.now.trace.now.rounds }
    requires rest { AreAtRest stage.now.shared.now stage.now.trace.now.rounds round callers.old.items }
    requires callers { length callers.old.items ≡ stage.now.trace.now.callers }
    requires mine { IsManagerOf C.events C.kept stage.now.shared.now recorder.old.manager }
    requires later { KeepUpFrom (last_of recorder.old.manager) (round_at stage.now.trace.now.rounds round).beside }
    requires small { All (λ tick. tick ≤ 2 ^ 62) (round_at stage.now.trace.now.rounds round).beside }
    ensures rest { OnOk result (AreAtRest stage.now.shared.now stage.now.trace.now.rounds (round + 1) callers.new.items) }
    ensures callers { OnOk result (length callers.new.items ≡ stage.now.trace.now.callers) }
    ensures turns { OnOk result (Continues C.stands C.events C.kept stage.now.shared.now
        (round_at stage.now.trace.now.rounds round).beside recorder.old recorder.new) }
{
    hand_over(stage, round, callers)?;
    let made = recorder.turns_beside(stage.shared, stage.trace.beside(round), stage.gate);
    take_back(stage, round, patience, callers)?;
    made
}

/// The turn that takes what is left of a round, between two rests.
fn end_round<G: Gate, C: ParcelChain<CtxBuf>>(
    stage: &Stage<'_, G>,
    round: u64,
    recorder: &mut Recorder<C>,
    callers: &mut [Caller],
) -> Result<(), NoMemory>
    requires round { round < length stage.now.trace.now.rounds }
    requires rest { AreAtRest stage.now.shared.now stage.now.trace.now.rounds (round + 1) callers.old }
    requires all { length callers.old ≡ length (desk_memo recorder.old.manager.desk).back }
    requires mine { IsManagerOf C.events C.kept stage.now.shared.now recorder.old.manager }
    requires later { last_of recorder.old.manager ≤ (round_at stage.now.trace.now.rounds round).after }
    requires small { (round_at stage.now.trace.now.rounds round).after ≤ 2 ^ 62 }
    ensures rest { OnOk result (AreAtRest stage.now.shared.now stage.now.trace.now.rounds (round + 1) callers.new) }
    ensures ends { OnOk result (EndsRound C.stands C.events C.kept stage.now.shared.now (round_at stage.now.trace.now.rounds round).after
        callers.old callers.new recorder.old recorder.new) }
{
    recorder.manager.rest(callers)?;
    recorder.turn_at_rest(stage.shared, callers, stage.trace.after(round))?;
    recorder.manager.rest(callers)?;
    Ok(())
}
