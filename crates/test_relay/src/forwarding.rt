//! Eight sources, as many as a report may have, forwarded under a gate.

ghost use Rattle.std.specs.Prelude.{◌≡◌, ◌+◌, ◌≤◌, ◌^◌, length, IfSome};
ghost use Rattle.ids_reporter.specs.Sources.{AreApart, AreSmall, instance_of};
ghost use Rattle.ids_reporter.specs.declared.index.Instance.TheVariants.{One};

use crate::gates::{Meeting, Roll};
use ids_reporter::{FeedGate, Instance, OpenFeed, Source, forward};
use std::alloc::Global;
use std::sync::Wait;
use std::thread::Threads;

/// How many messages each of eight long sources has: more than the relay of a run has room for.
const MANY: u8 = 200;

/// A source of so many messages of an instance, with the counts 1, 2, 3 and so on.
fn source(alloc: Global, instance: u16, many: u8) -> Option<Source>
    ensures instance { IfSome result (λ source. instance_of source ≡ One instance) }
    ensures few { IfSome result (λ source. length source ≤ 2 ^ 40) }
{
    let [high, low] = instance.wrapping_mul(64).to_be_bytes();
    let mut bytes = Vec::new(alloc);
    for count in 0..many {
        let message = [0x10, high, low, 0, 42, 0, count.wrapping_add(1), 0];
        bytes.extend_from_slice(&message).ok()?;
    }
    let source = Source::read(alloc, bytes).ok()?;
    match source.instance() {
        Instance::One(one) if one == instance && source.len() <= 200 => Some(source),
        _ => None,
    }
}

/// Sources of the instances 1 to 8, each of so many messages.
fn eight_sources(alloc: Global, many: u8) -> Option<Vec<Source>>
    ensures eight { IfSome result (λ sources. length sources.items ≡ 8) }
    ensures small { IfSome result (λ sources. AreSmall sources.items) }
    ensures apart { IfSome result (λ sources. AreApart sources.items) }
{
    let mut sources = Vec::with_capacity(alloc, 8).ok()?;
    for i in 0..8 {
        let next = source(alloc, i + 1, many)?;
        sources.push_reserved(next);
    }
    Some(sources)
}

/// Whether these are so many messages of each of eight managers, each in the order of their counts.
fn is_merge(out: &[u8], many: u8) -> bool {
    let mut counts = [0u8; 8];
    for message in out.chunks(8) {
        let [0x10, high, low, 0, 42, 0, count, 0] = message else {
            return false;
        };
        let manager = u16::from_be_bytes([*high, *low]) / 64;
        match counts.get_mut(usize::from(manager).wrapping_sub(1)) {
            Some(last) if *count == last.wrapping_add(1) => *last = *count,
            _ => return false,
        }
    }
    counts == [many; 8]
}

/// Whether eight sources of so many messages each come whole, each in its order.
fn are_merged<R: Threads + Wait + Sync + AllocGlobal, G: FeedGate + Sync>(
    rt: &R,
    many: u8,
    gate: &G,
) -> Option<bool> {
    let sources = eight_sources(rt.alloc(), many)?;
    let run = forward(rt, rt.alloc(), &sources, gate).ok()?;
    Some(is_merge(&run.out, many))
}

/// Whether eight sources of two messages each come whole, each in its order.
pub fn sources_are_merged<R: Threads + Wait + Sync + AllocGlobal>(rt: &R) -> Option<bool> {
    are_merged(rt, 2, &OpenFeed)
}

/// Whether the feeders of eight sources meet at a gate: none waits for another to end.
pub fn feeders_meet<R: Threads + Wait + Sync + AllocGlobal>(rt: &R) -> Option<bool> {
    let gate = Meeting::of(8);
    Some(are_merged(rt, 2, &gate)? && gate.have_met())
}

/// Whether sources that a relay has no room for come whole, each in its order, and the gate is told of each put once.
pub fn is_told_of_each_put<R: Threads + Wait + Sync + AllocGlobal>(rt: &R) -> Option<bool> {
    let gate = Roll::new();
    Some(are_merged(rt, MANY, &gate)? && gate.is_whole(200))
}
