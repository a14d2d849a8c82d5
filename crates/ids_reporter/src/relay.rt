//! A relay: the queue, with the ends that were made for it.
ghost use Rattle.std.specs.Prelude.{◌≡◌, ◌≤◌, [], IfOk};
ghost use Rattle.crossbeam_queue.specs.Passes.{ruled_capacity};
ghost use Rattle.ids_reporter.specs.{IsNewRelay, IsDrainOf, known, Drains};

use crate::drain::Drain;
use crate::feeder::Feeder;
use crate::rule::Line;
use ids_types::NoMemory;
use std::alloc::Global;

/// A bounded queue of pairs, which feeders and one drain share.
#[derive(Drop)]
pub struct Relay {
    pub(crate) line: Line,
}

/// A relay with its ends; the feeders stand in the order of their numbers.
#[derive(Drop)]
pub struct MadeRelay {
    pub relay: Relay,
    pub drain: Drain,
    pub feeders: Vec<Feeder>,
}

/// A relay of 1 to 1,024 pairs, with 1 to 8 feeders. All memory that it needs is taken here.
/// Steps: the capacity and the feeders. Memory: made once. By: read off.
#[tactic(auto, using(crate::proofs::RuleLemmas::begins))]
pub fn make(alloc: Global, capacity: u16, feeders: u8) -> Result<MadeRelay, NoMemory>
    requires capacity { (1 ≤ capacity) × (capacity ≤ 1024) }
    requires feeders { (1 ≤ feeders) × (feeders ≤ 8) }
    ensures { IfOk result (λ made. IsNewRelay capacity feeders made.relay made.drain made.feeders.items) }
{
    let (line, pass) = Line::ruled(alloc, usize::from(capacity))?;
    let relay = Relay { line };
    let mut drain = Drain { pass };
    let feeders = feeders_of(alloc, &relay, &mut drain, feeders)?;
    Ok(MadeRelay {
        relay,
        drain,
        feeders,
    })
}

/// The feeders of a drain that has none yet.
fn feeders_of(
    alloc: Global,
    relay: &Relay,
    drain: &mut Drain,
    count: u8,
) -> Result<Vec<Feeder>, NoMemory>
    requires mine { IsDrainOf relay.now drain.old }
    requires new { known drain.old ≡ Drains 0 [] [] }
    ensures { IfOk result (λ feeders. IsNewRelay (ruled_capacity relay.now.line) count relay.now drain.new feeders.items) }
{
    let mut feeders = Vec::with_capacity(alloc, usize::from(count))?;
    for source in 0..count {
        feeders.push_reserved(drain.feeder(relay, source));
    }
    Ok(feeders)
}
