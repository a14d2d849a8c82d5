//! Forwarding: in rounds, a feeder for each source, in a thread of its own, beside the drain.
ghost use Rattle.std.specs.Prelude.{◌≡◌, ◌↔◌, ℕ, ◌<◌, ◌≤◌, length, slice_index_or, IfOk, IsTrue};
ghost use Rattle.std.specs.Thread.{IsSync};
ghost use Rattle.ids_reporter.specs.{AreFeeding, IsForwarded, IsWorking, StaysAtWork, AreAt, IsFeeding, puts_of};
ghost use Rattle.ids_reporter.specs.Sources.{AreApart, AreSmall, count_at};

use crate::drain::Drain;
use crate::feeder::{FeedGate, Feeder};
use crate::outlet::Outlet;
use crate::presence::Presence;
use crate::relay::{MadeRelay, Relay, make};
use crate::source::Source;
use ids_types::NoMemory;
use std::alloc::Global;
use std::sync::Wait;
use std::thread;
use std::thread::{Threads, join_mut};

/// How many pairs the relay of a run has room for.
const CAPACITY: u16 = 64;

/// The bytes that were forwarded, and the drain, which knows in which order.
#[derive(Drop)]
pub struct Forwarded {
    pub out: Vec<u8>,
    pub drain: Drain,
}

/// Forwards all messages of 1 to 8 sources, through a relay of 64 pairs: each source's feeder puts beside the drain,
/// which writes. Each source's messages stay in their order; the order between sources is left open. The relay and
/// the room for all bytes are taken before the first thread begins.
/// Steps: in rounds, mostly one where the host begins threads: a thread that does nothing, one for each source, and the
/// drain's. A put and a take for each message, tried again where the queue is full or empty. Each message is copied
/// once. Memory: may answer want of memory, at the end. Waits: joins its threads; a put for the drain, a take for the
/// feeders, as its gate. By: bounds `Threads`, `Wait`; read off.
pub fn forward<R: Threads + Wait + Sync, G: FeedGate + Sync>(
    rt: &R,
    alloc: Global,
    sources: &[Source],
    gate: &G,
) -> Result<Forwarded, NoMemory>
    requires some { 1 ≤ length sources.now }
    requires few { length sources.now ≤ 8 }
    requires small { AreSmall sources.now }
    requires apart { AreApart sources.now }
    ensures { IfOk result (λ run. IsForwarded sources.now run.drain run.out.items) }
{
    let MadeRelay {
        relay,
        drain,
        feeders,
    } = make(alloc, CAPACITY, sources.len() as u8)?;
    let mut outlet = Outlet::make(alloc, drain, sources)?;
    let feeders = run(rt, &relay, sources, gate, feeders, &mut outlet);
    outlet.drain.welcome_all(&relay, feeders);
    outlet.take_rest(rt, &relay, sources);
    outlet.written?;
    Ok(Forwarded {
        out: outlet.out,
        drain: outlet.drain,
    })
}

/// Rounds, until the feeders have put all pairs.
fn run<R: Threads + Wait + Sync, G: FeedGate + Sync>(
    rt: &R,
    relay: &Relay,
    sources: &[Source],
    gate: &G,
    mut feeders: Vec<Feeder>,
    outlet: &mut Outlet,
) -> Vec<Feeder>
    requires feeders { AreFeeding relay.now sources.now feeders.items }
    requires works { IsWorking relay.now sources.now outlet.old }
    ensures feeders { AreAt relay.now (count_at sources.now) result.items }
    ensures all { length result.items ≡ length sources.now }
    ensures works { StaysAtWork relay.now sources.now outlet.old outlet.new }
{
    for _ in rt.forever() {
        if have_put_all(sources, &feeders) {
            return feeders;
        }
        feeders = round(rt, relay, sources, gate, feeders, outlet);
    }
    unreachable!()
}

/// Whether each feeder has put all pairs of its source.
fn have_put_all(sources: &[Source], feeders: &[Feeder]) -> bool
    requires { length feeders.now ≡ length sources.now }
    ensures { IsTrue result ↔ ((i : ℕ) (d : Feeder) → i < length feeders.now
        → puts_of (slice_index_or feeders.now i d) ≡ count_at sources.now i) }
{
    feeders
        .iter()
        .zip(sources)
        .all(|(feeder, source)| feeder.puts() == source.len())
}

/// A round: the feeders put what they can, beside the drain, which takes what it can. Where the host begins no thread
/// they do so one after another, the drain first.
fn round<R: Threads + Sync, G: FeedGate + Sync>(
    rt: &R,
    relay: &Relay,
    sources: &[Source],
    gate: &G,
    mut feeders: Vec<Feeder>,
    outlet: &mut Outlet,
) -> Vec<Feeder>
    requires feeders { AreFeeding relay.now sources.now feeders.items }
    requires works { IsWorking relay.now sources.now outlet.old }
    ensures feeders { AreFeeding relay.now sources.now result.items }
    ensures works { StaysAtWork relay.now sources.now outlet.old outlet.new }
{
    let presence = &Presence::new(rt);
    let ends = feeders.as_mut_slice();
    join_mut(
        rt,
        &mut || -> ()
            requires { IsSync R.row × IsSync G.row × AreFeeding relay.now sources.now ends.now }
            ensures { AreFeeding relay.entry.now sources.entry.now ends.exit.now }
        { feed(rt, relay, sources, gate, ends, presence) },
        &mut || -> ()
            requires { IsWorking relay.now sources.now outlet.now }
            ensures { StaysAtWork relay.entry.now sources.entry.now outlet.entry.now outlet.exit.now }
        { outlet.take_some(relay, sources, presence) },
    );
    feeders
}

/// Each feeder puts what it can, in a thread of its own.
fn feed<R: Threads + Sync, G: FeedGate + Sync>(
    rt: &R,
    relay: &Relay,
    sources: &[Source],
    gate: &G,
    feeders: &mut [Feeder],
    presence: &Presence,
)
    requires { AreFeeding relay.now sources.now feeders.old }
    ensures { AreFeeding relay.now sources.now feeders.new }
{
    presence.set_feeders(true);
    let threads = feeders.len();
    thread::for_each_mut(
        rt,
        feeders,
        threads,
        &|i, feeder: &mut Feeder|
            requires { (i < length sources.now) × AreSmall sources.now
                × IsFeeding relay.now i (count_at sources.now i) feeder.old }
            ensures { IsFeeding relay.entry.now i (count_at sources.entry.now i) feeder.new }
        { feeder.put_some(relay, sources[i].len(), gate, presence) },
    );
    presence.set_feeders(false);
}
