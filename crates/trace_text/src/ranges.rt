//! The ranges of a trace's numbers.

ghost use Rattle.std.specs.Prelude.{◌≡◌, ◌≤◌, length};
ghost use Rattle.std.specs.List.{list_all};
ghost use Rattle.text_spec.specs.{has_event as event_is, is_act as act_is, is_tick as tick_is, act_asked, keep_up as ticks_keep_up, last_from as last_of_ticks};
ghost use Rattle.trace_text.specs.Reading.{act_told};

use crate::form::RawAct;
use ids_config::Config;

/// The greatest tick.
const MAX_TICK: u64 = 1 << 62;

pub(crate) fn are_ticks(ticks: &[u64]) -> bool
    ensures { result ≡ list_all tick_is ticks.now }
{
    ticks.iter().all(|&tick| tick <= MAX_TICK)
}

/// No tick is below the one before it, the first not below this one.
pub(crate) fn keep_up(least: u64, ticks: &[u64]) -> bool
    ensures { result ≡ ticks_keep_up least ticks.now }
{
    let mut before = least;
    for &tick in ticks {
        if tick < before {
            return false;
        }
        before = tick;
    }
    true
}

/// The last of some ticks, this one where there are none.
#[tactic(auto, using(crate::proofs::LaidLemmas::last_from_at))]
pub(crate) fn last_from(tick: u64, ticks: &[u64]) -> u64
    ensures { result ≡ last_of_ticks tick ticks.now }
{
    if ticks.is_empty() {
        return tick;
    }
    ticks[ticks.len() - 1]
}

/// The numbers of an act, but for its event.
pub(crate) fn is_act(act: &RawAct<'_>) -> bool
    ensures { result ≡ act_is (act_asked (act_told act.now)) }
{
    match act {
        RawAct::Report(_, count, ..) => 1 <= *count && *count <= 65535,
        RawAct::State(state) => *state <= 255,
        RawAct::SetMode(..) => true,
    }
}

/// A report's event is one that sensors report, and the event of a mode is there.
pub(crate) fn has_event(config: &Config, act: &RawAct<'_>) -> bool
    ensures known { result ≡ event_is config.now (act_asked (act_told act.now)) }
    ensures few { length config.now.events ≤ 256 }
{
    let events = config.parts().events.len() as u64;
    match act {
        RawAct::Report(event, ..) => config.is_sensor(*event),
        RawAct::State(_) => true,
        RawAct::SetMode(event, _) => *event < events,
    }
}
