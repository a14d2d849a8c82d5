//! The configuration of a generated recording.

ghost use Rattle.std.specs.Prelude.{◌≡◌, ◌+◌, ◌<◌, ◌≤◌, [], ◌∷◌, IfOk, map, IsTrue};
ghost use Rattle.std.specs.List.{range_with_len};
ghost use Rattle.gen_options.specs.Ranges.{is_in_range};
ghost use Rattle.gen_recording.specs.GeneratedConfig.{aggregate_of, all_events, block_of, config_of, internal_event as internal_of, mode_of, sensor_event as sensor_of, threshold_of};

use gen_options::Options;
use ids_config::{Aggregate, Config, ConfigParts, EventParts, Window};
use ids_types::{Mode, NoMemory};
use std::alloc::{AllocError, Global};

/// The configuration for these options.
#[tactic(auto, using(crate::proofs::FitLemmas::config_faultless))]
pub(crate) fn make_config(alloc: Global, options: &Options) -> Result<Config, NoMemory>
    requires { IsTrue (is_in_range options.now) }
    ensures { IfOk result (λ config. config ≡ config_of options.now) }
{
    let parts = ConfigParts {
        profile: 1,
        instance: 18,
        callers: options.callers,
        ring: 1024,
        memory: 64,
        state: 0,
        classes: vec![in alloc; (16, 512), (128, 512)]?,
        rate: Some(Window {
            interval: 1000,
            number: 400,
        }),
        traffic: Some(Window {
            interval: 1000,
            number: 16384,
        }),
        events: make_events(alloc, options.events)?,
        lost_events: Some(options.events),
        lost_contexts: Some(options.events + 1),
        limited: Some(options.events + 2),
    };
    match Config::check(parts) {
        Ok(config) => Ok(config),
        Err(_) => unreachable!(),
    }
}

/// So many events that sensors report, and the internal ones after them.
#[tactic(auto, using(crate::proofs::DrawLemmas::drawings))]
fn make_events(alloc: Global, events: u64) -> Result<Vec<EventParts>, AllocError>
    requires { events ≤ 200 }
    ensures { IfOk result (λ all. all.items ≡ all_events events) }
{
    let mut all = Vec::with_capacity(alloc, events as usize + 3)?;
    for e in 0..events {
        all.push(sensor_event(alloc, e)?)?;
    }
    all.push(internal_event(alloc, 1)?)?;
    all.push(internal_event(alloc, 2)?)?;
    all.push(internal_event(alloc, 3)?)?;
    Ok(all)
}

/// Event `e` of those that sensors report.
fn sensor_event(alloc: Global, e: u64) -> Result<EventParts, AllocError>
    requires { e < 200 }
    ensures { IfOk result (λ event. event ≡ sensor_of e) }
{
    Ok(EventParts {
        id: 1000 + e,
        sensor: e % 64,
        version: 0,
        mode: mode(e),
        send: true,
        store: e % 4 == 0,
        block: blocking_states(alloc, e)?,
        nth: 1 + e % 3,
        aggregate: aggregate(e),
        threshold: threshold(e),
    })
}

fn internal_event(alloc: Global, id: u64) -> Result<EventParts, AllocError>
    ensures { IfOk result (λ event. event ≡ internal_of id) }
{
    Ok(EventParts {
        id,
        sensor: 0,
        version: 0,
        mode: Mode::Detailed,
        send: true,
        store: true,
        block: Vec::new(alloc),
        nth: 1,
        aggregate: None,
        threshold: None,
    })
}

fn mode(e: u64) -> Mode
    ensures { result ≡ mode_of e }
{
    if e % 8 == 7 {
        Mode::Brief
    } else {
        Mode::Detailed
    }
}

fn blocking_states(alloc: Global, e: u64) -> Result<Vec<u64>, AllocError>
    ensures { IfOk result (λ states. states.items ≡ block_of e) }
{
    let mut states = Vec::new(alloc);
    if e % 6 == 5 {
        states.push(1)?;
    }
    Ok(states)
}

fn aggregate(e: u64) -> Option<Aggregate>
    ensures { result ≡ aggregate_of e }
{
    match e % 5 {
        0 => Some(Aggregate {
            interval: 50,
            last: false,
        }),
        1 => Some(Aggregate {
            interval: 80,
            last: true,
        }),
        _ => None,
    }
}

fn threshold(e: u64) -> Option<Window>
    ensures { result ≡ threshold_of e }
{
    (e % 7 == 0).then_some(Window {
        interval: 200,
        number: 3,
    })
}
