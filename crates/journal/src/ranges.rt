//! The ranges of a journal's numbers.

ghost use Rattle.std.specs.Prelude.{◌≡◌, ◌<◌, ◌≤◌, ◌^◌, List, ℕ, length, slice_index};
ghost use Rattle.std.specs.List.{list_all};
ghost use Rattle.text_spec.specs.JournalFaults.{is_claim as claim_is, is_count_lost as lost_is, is_call as call_is, is_context as context_is, is_act as act_is, is_head as head_is, has_event as event_is};
ghost use Rattle.ids_config.specs.Parts.{is_sensor as sensor_is};
ghost use Rattle.journal.specs.RawLines.{context_told, change_told, report_act};

use crate::line::{RawChange, RawContext, RawReport};
use ids_config::Config;
use ids_types::{Numbers, TurnHead};

/// The greatest tick.
const MAX_TICK: u64 = 1 << 62;

/// The greatest number of reports that a turn tells as lost or held back.
const MAX_LOST: u64 = 1 << 45;

/// The greatest number of a claim, and of what was given back.
const MAX_CLAIM: u64 = 1 << 46;

/// The number of a caller's call is below this.
pub(crate) const CALLS: u64 = 1 << 40;

/// The greatest caller.
const MAX_CALLER: u64 = 31;

/// The greatest class.
const MAX_CLASS: u64 = 3;

/// The most bytes of a context.
pub(crate) const MAX_BYTES: usize = 1024;

pub(crate) fn is_claim(n: u64) -> bool
    ensures { result ≡ claim_is n }
{
    n <= MAX_CLAIM
}

fn is_lost(n: u64) -> bool
    ensures { result ≡ lost_is n }
{
    n <= MAX_LOST
}

/// A caller, and the number of its call.
pub(crate) fn is_call(caller: u64, call: u64) -> bool
    ensures { result ≡ call_is caller call }
{
    caller <= MAX_CALLER && call < CALLS
}

/// The numbers of a turn's head.
pub(crate) fn is_head(head: &TurnHead) -> bool
    ensures { result ≡ head_is head.now }
{
    head.tick <= MAX_TICK
        && is_lost(head.lost_events)
        && is_lost(head.lost_contexts)
        && is_lost(head.limited)
}

/// The numbers of a report, but for its event.
#[inline(always)]
pub(crate) fn is_report(report: &RawReport<'_>) -> bool
    ensures { result ≡ act_is (report_act report.now) }
{
    1 <= report.count && report.count <= 65535 && is_context(&report.context)
}

/// The numbers of what a control asks, but for its event.
pub(crate) fn is_change(change: &RawChange) -> bool
    ensures { result ≡ act_is (change_told change.now) }
{
    match change {
        RawChange::State(state) => *state <= 255,
        RawChange::SetMode { .. } => true,
    }
}

#[inline(always)]
fn is_context(context: &RawContext<'_>) -> bool
    ensures { result ≡ context_is (context_told context.now) }
{
    match context {
        RawContext::Absent => true,
        RawContext::Kept {
            class,
            claim,
            bytes,
        } => {
            let len = bytes.len();
            *class <= MAX_CLASS && is_claim(*claim) && 1 <= len && len <= MAX_BYTES
        }
        RawContext::Missing(claims) => are_claims(claims.numbers()),
    }
}

/// They come by value, so that a report without them needs no place in memory while it is judged.
#[inline(never)]
fn are_claims(numbers: Numbers) -> bool
    ensures { result ≡ list_all claim_is numbers }
{
    numbers.as_slice().iter().all(|number| is_claim(*number))
}

/// How many events there are.
fn events_of(config: &Config) -> u64
    ensures value { result ≡ length config.now.events }
    ensures few { result ≤ 256 }
{
    config.parts().events.len() as u64
}

/// Whether sensors report the event.
pub(crate) fn has_sensor(config: &Config, event: u64) -> bool
    ensures known { result ≡ sensor_is config.now event }
    ensures few { length config.now.events ≤ 256 }
{
    config.is_sensor(event)
}

/// Whether the event of a mode is there.
pub(crate) fn has_event(config: &Config, change: &RawChange) -> bool
    ensures known { result ≡ event_is config.now (change_told change.now) }
    ensures few { length config.now.events ≤ 256 }
{
    let events = events_of(config);
    match change {
        RawChange::State(_) => true,
        RawChange::SetMode { event, .. } => *event < events,
    }
}
