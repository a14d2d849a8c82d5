//! The replay of a trace.
ghost use Rattle.std.specs.Prelude.{◌≡◌, [], length, IfOk};
ghost use Rattle.trace_replay.specs.{AreRounds, IsNewRecorder, IsReplay, IsReplayOver, IsSet, given, gives, without_log};

use crate::caller::Gate;
use crate::callers::{callers_of, part};
use crate::gathered::Gathered;
use crate::recorder::Recorder;
use crate::rounds::play_beside;
use crate::stage::Stage;
use event_chain::EventChain;
use filter_chain::{ParcelChain, Transcript};
use ids_config::Config;
use ids_types::{History, Loss, NoMemory};
use main_function::{Made, Manager, make};
use report_api::{CtxBuf, Pass, Shared};
use std::alloc::Global;
use std::sync::atomic::AtomicBool;
use std::thread::Threads;
use trace_text::Trace;

/// The manager of a replay.
pub type RunManager = Manager<EventChain<CtxBuf>>;

/// What a replay gives.
#[derive(Drop)]
pub struct Replayed {
    /// The turns, with the entries that they took.
    pub history: History,
    /// The calls that found no event buffer, by caller and then by call.
    pub losses: Vec<Loss>,
    /// The messages that were sent, one after the other.
    pub sent: Vec<u8>,
    /// How many bytes were sent by the end of each turn.
    pub ends: Vec<u64>,
    /// How many messages were sent.
    pub messages: u64,
    /// The manager, closed. It has the event memory, and how many calls each caller had made at each rest.
    pub manager: RunManager,
}

/// Replays a trace: in each round its callers make the calls that their lines ask for, beside the turns of the ticks
/// beside; and then a turn is made that takes what is left. There is a thread for each caller; the main function makes
/// what no thread has begun.
/// Steps: as many threads beside its own as callers, at most 32, once. For each round: two hand-overs a caller, and two
/// rests. For each line one call of a pass and two of the gate. For each tick beside one `Manager::turn`,
/// after a call of the gate, and for each round one `Manager::turn_at_rest`. At the end one `Manager::close`. What each turn took and sent is copied once. Memory: may
/// answer want of memory, as it does at 2^62 turns. What is gathered grows with the turns, and room for the rests is
/// made at the start. A caller's calls take none, but each thread has a stack of the host's. Waits: looks for callers
/// whose calls a thread has begun, 2^64 times at most; joins the threads at the end; as its gate. By: bound `Threads`
/// (where no thread can be made, the calls come one after another); read off.
pub fn replay<R: Threads + Sync, G: Gate + Sync>(
    rt: &R,
    alloc: Global,
    config: &Config,
    trace: &Trace,
    gate: &G,
) -> Result<Replayed, NoMemory>
    requires callers { trace.now.callers ≡ config.now.callers }
    requires rounds { AreRounds config.now trace.now.rounds }
    ensures { IfOk result (λ r. IsReplay config.now trace.now.rounds r.manager (gives r)) }
{
    let chain = EventChain::make(alloc, config)?;
    let (
        Recorder {
            manager,
            transcript,
        },
        losses,
    ) = run(rt, alloc, config, trace, gate, chain)?;
    let (manager, Gathered { history, .. }) = manager.part_log();
    let Transcript {
        sent,
        ends,
        messages,
    } = transcript;
    Ok(Replayed {
        history,
        losses,
        sent,
        ends,
        messages,
        manager,
    })
}

/// Replays a trace over a chain that took no turn yet, and answers the manager, closed, with what was gathered of its
/// turns, and the losses of the callers.
fn run<R: Threads + Sync, G: Gate + Sync, C: ParcelChain<CtxBuf> + Drop>(
    rt: &R,
    alloc: Global,
    config: &Config,
    trace: &Trace,
    gate: &G,
    chain: C,
) -> Result<(Recorder<C>, Vec<Loss>), NoMemory>
    requires callers { trace.now.callers ≡ config.now.callers }
    requires rounds { AreRounds config.now trace.now.rounds }
    requires fresh { C.stands chain config.now [] }
    requires events { C.events chain ≡ length config.now.events }
    requires kept { C.kept chain ≡ [] }
    ensures { IfOk result (λ run. IsReplayOver C.stands C.events C.kept config.now trace.now.rounds (without_log run.0.manager)
        (given run.0 run.1.items)) }
{
    let log = Gathered::make(alloc)?;
    let transcript = Transcript::make(alloc, 0)?;
    let Made {
        shared,
        manager,
        passes,
    } = make(alloc, config, chain, log)?;
    let mut recorder = Recorder {
        manager,
        transcript,
    };
    let over = AtomicBool::new(false);
    let positions = config.parts().ring;
    let stage = Stage::make(alloc, &shared, positions, trace, gate, &over)?;
    let losses = play(rt, alloc, config, &stage, passes, &mut recorder)?;
    Ok((recorder, losses))
}

/// Plays a trace from its first round on and closes, and answers the losses of the callers.
fn play<R: Threads + Sync, G: Gate + Sync, C: ParcelChain<CtxBuf>>(
    rt: &R,
    alloc: Global,
    config: &Config,
    stage: &Stage<'_, G>,
    passes: Vec<Pass>,
    recorder: &mut Recorder<C>,
) -> Result<Vec<Loss>, NoMemory>
    requires callers { stage.now.trace.now.callers ≡ config.now.callers }
    requires rounds { AreRounds config.now stage.now.trace.now.rounds }
    requires set { IsSet stage.now }
    requires new { IsNewRecorder C.stands C.events C.kept config.now stage.now.shared.now passes.items recorder.old }
    ensures { IfOk result (λ losses. IsReplayOver C.stands C.events C.kept config.now stage.now.trace.now.rounds (without_log recorder.new.manager)
        (given recorder.new losses.items)) }
{
    let _valid = config.parts();
    let mut callers = callers_of(alloc, passes)?;
    recorder.reserve_rests(stage.trace)?;
    play_beside(rt, stage, recorder, &mut callers)?;
    let (mut passes, losses) = part(alloc, callers)?;
    recorder.close(stage.shared, &mut passes, stage.trace.last_tick())?;
    Ok(losses)
}
