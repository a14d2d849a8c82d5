//! The steps after the windows, and what becomes of an item at the end of its way.

ghost use Rattle.std.specs.Prelude.{map, ℕ, ◌≡◌, ◌<◌, ◌≤◌, ◌+◌, ◌-◌, ◌^◌, ◌&&◌, ◌||◌, true, List, [], ◌∷◌, length, IfOk, IfSome, if◌then◌else◌};
ghost use Rattle.event_chain.specs.Names.{items_where, stores, IsShort, Parts, event_at, Occurrence, counted, verdict, place_of, Moment, stored_of, Ending, endings, fate_from, EndBy, Fate, AtSend, MemoryStands, ThresholdsStand, HasSixBits, IsSenderOf, TakesOne, most_message, source_of};
ghost use Rattle.event_chain.specs.{Leaves, BeginsBy, CanTake, Follows, HasEvent, HasSent, Start, Weighs, ended_tick, start_by};

use chain_spec::Fate;
use event_memory::Memory;
use filter_threshold::Thresholds;
use ids_config::Config;
use ids_types::{Key, NoMemory, TurnOut};
use limits::LimitState;
use message_sender::{Report, Sender, Source, Sources};
use std::alloc::Global;

/// What an item meets after the windows: each step in its order, the event memory, and the sender.
#[derive(Debug, Drop)]
pub(crate) struct Rest {
    pub(crate) thresholds: Thresholds,
    pub(crate) limits: LimitState,
    pub(crate) sources: Sources,
    pub(crate) sender: Sender,
    pub(crate) memory: Memory,
}

impl Rest {
    /// That of a configuration, before any item.
    pub(crate) fn make(alloc: Global, config: &Config) -> Result<Rest, NoMemory>
        ensures follows { IfOk result (Follows config.now []) }
        ensures none { IfOk result (λ rest. rest.sender.held ≡ 0) }
    {
        Ok(Rest {
            thresholds: Thresholds::make(alloc, config)?,
            limits: LimitState::make(config),
            sources: Sources::make(alloc, config)?,
            sender: Sender::make(config),
            memory: Memory::make(alloc, config.parts().memory as u16)?,
        })
    }

    /// Takes an item from the threshold on, or from the sending on if it bypasses the filters, and returns its fate.
    pub(crate) fn take(&mut self, bypasses: bool, report: &Report<'_>, out: &mut TurnOut) -> Fate
        requires { CanTake self.old report.now out.old }
        ensures { Leaves bypasses report.now self.old self.new result out.old out.new }
    {
        let source = self.sources.of(report.event);
        let fate = self.fate(bypasses, source, report);
        store(&mut self.memory, fate, source, report);
        send(&mut self.sender, fate, source, report, out);
        fate
    }

    // The first step that holds the item, a line a step.
    #[inline(always)]
    fn fate(&mut self, bypasses: bool, source: Source, report: &Report<'_>) -> Fate
        requires has { HasEvent report.now.event self.old }
        requires context { IfSome report.now.context IsShort }
        ensures steps { (config : Parts) (before : List Moment) (first : Fate) → let past = endings config before in
            Weighs config past self.old → EndBy ended_tick report.now.tick past → source ≡ source_of (event_at config report.now.event)
            → BeginsBy bypasses first
            → (result ≡ fate_from config before past (start_by bypasses) report.now)
            × Weighs config (record { item = report.now; first = first; fate = result } ∷ past) self.new }
        ensures late { place_of (start_by bypasses) ≤ place_of result }
        ensures has { (k : ℕ) → HasEvent k self.old → HasEvent k self.new }
        ensures others { self.new ≡ record self.old { thresholds = self.new.thresholds; limits = self.new.limits } }
    {
        if !passes(&mut self.thresholds, bypasses, report) {
            Fate::AtThreshold
        } else if !source.send {
            Fate::AtSend
        } else {
            self.limits.admit(report.tick, report.message_len())
        }
    }
}

/// Whether the threshold lets the item pass. One that bypasses the filters does not come to it.
fn passes(thresholds: &mut Thresholds, bypasses: bool, report: &Report<'_>) -> bool
    requires { report.now.event < length thresholds.old }
    ensures stands { (config : Parts) (items : List Occurrence) → ThresholdsStand config items thresholds.old
        → EndBy (λ one. one.tick) report.now.tick items
        → (result ≡ bypasses || verdict (event_at config report.now.event).threshold (counted report.now) items)
        × ThresholdsStand config (if bypasses then items else counted report.now ∷ items) thresholds.new }
    ensures bypasses { bypasses ≡ true → result ≡ true }
    ensures events { length thresholds.new ≡ length thresholds.old }
{
    bypasses || thresholds.arrive(report.event, report.tick, report.count)
}

/// Stores the item, if it is qualified and its event is stored.
fn store(memory: &mut Memory, fate: Fate, source: Source, report: &Report<'_>)
    requires { IfSome report.now.context IsShort }
    ensures memory { (config : Parts) (past : List Ending) (first : Fate) → source ≡ source_of (event_at config report.now.event)
        → place_of first ≤ place_of AtSend → MemoryStands memory.old (map (stored_of config) (items_where (stores config) past))
        → MemoryStands memory.new (map (stored_of config) (items_where (stores config) (record { item = report.now; first = first; fate = fate } ∷ past))) }
    ensures room { memory.new.room ≡ memory.old.room }
{
    if fate.is_qualified() && source.store {
        let key = Key {
            event: report.event,
            id: source.id,
            sensor: source.sensor,
        };
        let context = match report.context {
            Some(bytes) => bytes,
            None => &[],
        };
        memory.store(report.tick, key, report.count, report.stamp, context);
    }
}

/// Sends the item, or counts it if a limit holds it back.
fn send(sender: &mut Sender, fate: Fate, source: Source, report: &Report<'_>, out: &mut TurnOut)
    requires source { HasSixBits source }
    requires context { IfSome report.now.context IsShort }
    requires few_held { sender.old.held < 2 ^ 45 }
    requires room { most_message report.now.context ≤ out.old.sent_left }
    requires few_messages { out.old.messages < 2 ^ 32 - 1 }
    ensures sends { (config : Parts) (start : Start) (past : List Ending) (first : Fate) → IsSenderOf config sender.old
        → source ≡ source_of (event_at config report.now.event) → place_of first ≤ place_of AtSend
        → HasSent config start past sender.old out.old
        → HasSent config start (record { item = report.now; first = first; fate = fate } ∷ past) sender.new out.new }
    ensures names { (config : Parts) → IsSenderOf config sender.old → IsSenderOf config sender.new }
    ensures counted { sender.new.held ≤ sender.old.held + 1 }
    ensures one { TakesOne (most_message report.now.context) out.old out.new }
{
    match fate {
        Fate::Sent => sender.send(source, report, out),
        Fate::AtRate | Fate::AtTraffic => sender.hold_back(report.event),
        _ => {}
    }
}
