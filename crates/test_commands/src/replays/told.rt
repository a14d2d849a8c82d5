//! What a replay of a text tells, as plain data.
ghost use Rattle.std.specs.Prelude.{◌<◌, length};

use config_json::read as read_config;
use ids_types::History;
use std::alloc::Global;
use std::test::Fail;
use std::thread::Threads;
use trace_replay::{Gate, Replayed, replay};
use trace_text::read as read_trace;

/// What was told of a replay: the calls of each turn, how many turns, entries and losses it had, and the turns and the
/// calls of each caller at the rests.
#[derive(Drop)]
pub struct Told {
    /// A line for each turn: its tick, and caller and call of each entry, by caller and then by call.
    pub calls: String,
    pub turns: u64,
    pub entries: u64,
    pub losses: usize,
    pub rests: Vec<u64>,
    pub at_rests: Vec<u64>,
}

/// A turn's line: its tick, and caller and call of each entry, by caller and then by call.
fn turn_line(alloc: Global, history: &History, turn: u64) -> Result<String, Fail>
    requires { turn < length history.now.turns }
{
    let mut calls = Vec::new(alloc);
    for i in 0..history.entries(turn) {
        let entry = history.entry(turn, i);
        calls.push((entry.caller, entry.call))?;
    }
    calls.sort()?;
    let mut line = format!(in alloc; "{}:", history.head(turn).tick)?;
    for (caller, call) in calls {
        line.push_str(format!(in alloc; " {caller}.{call}")?.as_str())?;
    }
    line.push('\n')?;
    Ok(line)
}

/// Tells it as data.
fn tell(alloc: Global, replayed: Replayed) -> Result<Told, Fail> {
    let mut calls = String::new(alloc);
    for turn in 0..replayed.history.turns() {
        calls.push_str(turn_line(alloc, &replayed.history, turn)?.as_str())?;
    }
    Ok(Told {
        calls,
        turns: replayed.history.turns(),
        entries: replayed.history.total_entries(),
        losses: replayed.losses.len(),
        rests: Vec::from_slice(alloc, &replayed.manager.rests().turns)?,
        at_rests: Vec::from_slice(alloc, &replayed.manager.rests().calls)?,
    })
}

/// What the replay of a trace tells, under a configuration, where callers and turns stop at this gate.
pub fn told_of<R: Threads + Sync, G: Gate + Sync>(
    rt: &R,
    alloc: Global,
    config: &str,
    trace: &[u8],
    gate: &G,
) -> Result<Told, Fail> {
    let config = read_config(alloc, config.as_bytes())?;
    let trace = read_trace(alloc, trace, &config)?;
    tell(alloc, replay(rt, alloc, &config, &trace, gate)?)
}
