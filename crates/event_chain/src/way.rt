//! The way of an item: the gate, its event's window, and the steps after it. A turn takes three parts: windows close, the
//! internal events come, and then the entries.

ghost use Rattle.std.specs.Prelude.{◌≡◌, ◌<◌, ◌≤◌, ◌+◌, ◌++◌, ℕ, List, [], ◌∷◌, length, option_copied, option_map, option_to_list, None, vec_len, vec_capacity, IfSome, IsSome, if◌then◌else◌, map};
ghost use Rattle.event_chain.specs.Names.{with_context, IsFalse, All, act_by, room_of, Parts, reached, Moment, act_moment, closes, comes, closings, head_moment, endings, InWindow, HandsBack, parcel_of, all_parcels, all_kept, is_due, slot_at, slots_by, WindowsStand, with_all, head_told};
ghost use Rattle.filter_chain.specs.{IsShort, FitsAct};
ghost use Rattle.event_chain.specs.{Leaves, here, CanSend, CanTake, EndAt, HasLeft, HasPlaces, IsBehind, Leads, Moved, Rests, SettledAt, TakesRoom, Windowed, start_of, entry_moments, aggregating_in};

use crate::ending::ended;
use crate::rest::Rest;
use crate::witness::Witness;
use chain_spec::Fate;
use filter_aggregate::Windows;
use filter_chain::{give_back, take_kept};
use filter_gate::{GateState, Verdict};
use ids_types::{Act, Entry, EventIndex, Parcel, Qualified, TurnOut};
use internal_events::HeadList;
use message_sender::Report;

/// The way of each item, and who is told what became of it.
#[derive(Debug, Drop)]
pub(crate) struct Way<B, W> {
    pub(crate) gate: GateState,
    pub(crate) windows: Windows<B>,
    pub(crate) rest: Rest,
    pub(crate) witness: W,
}

impl<B: Parcel, W: Witness> Way<B, W> {
    /// A turn begins: nothing is sent in it yet, and nothing is held back.
    pub(crate) fn begin(&mut self, out: &mut TurnOut)
        ensures behind { (config : Parts) (before now : ℕ) (moments : List Moment)
            → Rests B.held W.knows config before moments self.old → before ≤ now
            → IsBehind B.held W.knows config (start_of config (endings config moments)) now moments self.new out.new }
        ensures room { room_of out.new ≡ room_of out.old }
        ensures all_left { out.new.sent_left ≡ room_of out.old }
        ensures can { (entries events : ℕ) → entries ≤ 1024 → events ≤ 256 → CanSend (entries + events + 3) self.new out.new }
        ensures places { HasPlaces self.old → HasPlaces self.new }
        ensures windows { self.new.windows ≡ self.old.windows }
    {
        out.clear_messages();
        self.rest.sender.begin();
    }

    /// The windows of the events that are aggregated close, each if it is due at the tick.
    pub(crate) fn close_all(
        &mut self,
        events: &[EventIndex],
        tick: u64,
        back: &mut Vec<B>,
        out: &mut TurnOut,
    )
        requires left { HasLeft B.held (length events.now) [] self.old back.old out.old }
        requires events { map (λ event. event.0) events.now ≡ aggregating_in self.old.windows }
        requires short { All (IsShort B.held) (all_kept self.old.windows) }
        // It is as if the window of each event closed.
        ensures behind { Leads B.held W.knows tick (λ config moments. with_all moments (closings config tick)) self.old self.new out.old out.new }
        ensures moved { Moved B.held tick (length events.now) [] self.old self.new back.old back.new out.old out.new }
        ensures settled { SettledAt tick self.new.windows }
    {
        for event in events {
            self.close(*event, tick, back, out);
        }
    }

    /// The internal events of the turn come.
    pub(crate) fn take_heads(
        &mut self,
        heads: &HeadList,
        tick: u64,
        back: &mut Vec<B>,
        out: &mut TurnOut,
    )
        requires left { HasLeft B.held (length heads.now) [] self.old back.old out.old }
        requires settled { SettledAt tick self.old.windows }
        requires events { All (λ head. head.event.0 < length self.old.windows) heads.now }
        ensures behind { Leads B.held W.knows tick (λ config moments. with_all moments (map (head_moment tick) (map head_told heads.now)))
            self.old self.new out.old out.new }
        ensures moved { Moved B.held tick (length heads.now) [] self.old self.new back.old back.new out.old out.new }
    {
        for i in 0..heads.len() {
            let head = heads.get(i).unwrap();
            let item = Qualified {
                event: head.event,
                count: head.count,
                stamp: None,
                context: None,
            };
            self.take(tick, item, back, out);
        }
    }

    /// The entries of the turn enter, and none is left.
    pub(crate) fn take_entries(
        &mut self,
        items: &mut Vec<Entry<B>>,
        tick: u64,
        back: &mut Vec<B>,
        out: &mut TurnOut,
    )
        requires left { HasLeft B.held (length items.old.items) (all_parcels items.old.items) self.old back.old out.old }
        requires settled { SettledAt tick self.old.windows }
        requires acts { All (λ entry. FitsAct B.held (length self.old.windows) entry.act) items.old.items }
        ensures behind { Leads B.held W.knows tick (λ config moments. with_all moments (entry_moments B.held tick items.old.items))
            self.old self.new out.old out.new }
        ensures moved { Moved B.held tick (length items.old.items) (all_parcels items.old.items)
            self.old self.new back.old back.new out.old out.new }
        ensures items { items.new.items ≡ [] }
        ensures items_room { vec_capacity items.new ≡ vec_capacity items.old }
    {
        for i in 0..items.len() {
            self.enter(tick, &mut items[i].act, back, out);
        }
        items.clear();
    }

    // An event's window closes if it is due at the tick.
    fn close(&mut self, event: EventIndex, tick: u64, back: &mut Vec<B>, out: &mut TurnOut)
        requires left { HasLeft B.held 1 [] self.old back.old out.old }
        requires event { event.0 < length self.old.windows }
        requires short { All (IsShort B.held) (all_kept self.old.windows) }
        ensures behind { Leads B.held W.knows tick (λ config moments. closes tick event.0 ∷ moments) self.old self.new out.old out.new }
        ensures moved { Moved B.held tick 1 [] self.old self.new back.old back.new out.old out.new }
        ensures settled { IsFalse (is_due tick (slot_at self.new.windows event.0)) }
    {
        match self.windows.close_due(event, tick) {
            Some(item) => {
                let (event, count) = (item.event, item.count);
                let fate = leave(&mut self.rest, false, tick, true, item, back, out);
                self.witness
                    .tell(ended(event, count, Fate::AtThreshold, fate));
            }
            None => {}
        }
    }

    // An act enters: an item comes, or a control changes what comes after it. Its parcel is taken out.
    fn enter(&mut self, tick: u64, act: &mut Act<B>, back: &mut Vec<B>, out: &mut TurnOut)
        requires left { HasLeft B.held 1 (option_to_list (parcel_of act.old)) self.old back.old out.old }
        requires settled { SettledAt tick self.old.windows }
        requires fits { FitsAct B.held (length self.old.windows) act.old }
        ensures behind { Leads B.held W.knows tick (λ config moments. act_moment tick (act_by B.held act.old) ∷ moments) self.old self.new out.old out.new }
        ensures moved { Moved B.held tick 1 (option_to_list (parcel_of act.old)) self.old self.new back.old back.new out.old out.new }
    {
        match act {
            Act::Report {
                event,
                count,
                stamp,
                context,
            } => {
                let item = Qualified {
                    event: *event,
                    count: *count,
                    stamp: *stamp,
                    context: take_kept(context),
                };
                self.take(tick, item, back, out);
            }
            Act::State(state) => self.gate.set_state(*state),
            Act::SetMode { event, mode } => self.gate.set_mode(*event, *mode),
        }
    }

    // An item comes: it ends its way at the gate, or goes into its event's window, or on from there.
    #[inline(always)]
    fn take(&mut self, tick: u64, item: Qualified<B>, back: &mut Vec<B>, out: &mut TurnOut)
        requires left { HasLeft B.held 1 (option_to_list item.context) self.old back.old out.old }
        requires settled { SettledAt tick self.old.windows }
        requires event { item.event.0 < length self.old.windows }
        requires short { IfSome item.context (IsShort B.held) }
        ensures behind { Leads B.held W.knows tick (λ config moments. comes (here B.held tick item) ∷ moments) self.old self.new out.old out.new }
        ensures moved { Moved B.held tick 1 (option_to_list item.context) self.old self.new back.old back.new out.old out.new }
    {
        let (event, count) = (item.event, item.count);
        match self.gate.gate(event) {
            Verdict::Held(fate) => {
                give_back(item.context, back);
                self.witness.tell(ended(event, count, Fate::AtMode, fate));
            }
            Verdict::Bypass { context } => {
                let fate = leave(&mut self.rest, true, tick, context, item, back, out);
                self.witness.tell(ended(event, count, Fate::AtSend, fate));
            }
            Verdict::Pass { context } => {
                if self.windows.aggregates(event) {
                    join(&mut self.windows, tick, context, item, back);
                    self.witness
                        .tell(ended(event, count, Fate::AtMode, Fate::InWindow));
                } else {
                    let fate = leave(&mut self.rest, false, tick, context, item, back, out);
                    self.witness.tell(ended(event, count, Fate::AtMode, fate));
                }
            }
        }
    }
}

/// The item with its context data, or without: then their parcel is handed back.
fn let_through<B: Parcel>(item: Qualified<B>, context: bool, back: &mut Vec<B>) -> Qualified<B>
    requires { vec_len back.old + length (option_to_list item.context) ≤ vec_capacity back.old }
    ensures item { (tick : ℕ) → here B.held tick result ≡ with_context context (here B.held tick item) }
    ensures event { result.event ≡ item.event }
    ensures context { result.context ≡ (if context then item.context else None) }
    ensures back { back.new.items ≡ back.old.items ++ (if context then [] else option_to_list item.context) }
    ensures capacity { vec_capacity back.new ≡ vec_capacity back.old }
{
    if context {
        return item;
    }
    give_back(item.context, back);
    Qualified {
        event: item.event,
        count: item.count,
        stamp: item.stamp,
        context: None,
    }
}

/// Lets an item into its event's window, with its context data or without, and hands back the parcel that the window does not keep.
#[inline(always)]
fn join<B: Parcel>(
    windows: &mut Windows<B>,
    tick: u64,
    context: bool,
    item: Qualified<B>,
    back: &mut Vec<B>,
)
    requires window { item.event.0 < length windows.old }
    requires aggregates { IsSome (slot_at windows.old item.event.0).setting }
    requires settled { IsFalse (is_due tick (slot_at windows.old item.event.0)) }
    requires back { vec_len back.old + length (option_to_list item.context)
        + length (all_kept windows.old) ≤ vec_capacity back.old }
    ensures stands { (config : Parts) (before : List Moment)
        → WindowsStand config before (reached config InWindow before) (slots_by B.held windows.old) → EndAt config tick before
        → WindowsStand config before (with_context context (here B.held tick item) ∷ reached config InWindow before) (slots_by B.held windows.new) }
    ensures parcels { HandsBack (option_to_list item.context) (all_kept windows.old)
        (all_kept windows.new) back.old.items back.new.items }
    ensures capacity { vec_capacity back.new ≡ vec_capacity back.old }
    ensures on { Windowed tick windows.old windows.new }
{
    let item = let_through(item, context, back);
    let spare = windows.arrive(tick, item);
    give_back(spare, back);
}

/// Takes an item to the steps after the windows, with its context data or without, and hands back its parcel. Returns its fate.
#[inline(always)]
fn leave<B: Parcel>(
    rest: &mut Rest,
    bypasses: bool,
    tick: u64,
    context: bool,
    item: Qualified<B>,
    back: &mut Vec<B>,
    out: &mut TurnOut,
) -> Fate
    requires take { CanTake rest.old (with_context context (here B.held tick item)) out.old }
    requires back { vec_len back.old + length (option_to_list item.context) ≤ vec_capacity back.old }
    ensures leaves { Leaves bypasses (with_context context (here B.held tick item)) rest.old rest.new result out.old out.new }
    ensures room { TakesRoom B.held 1 back.old.items back.new.items out.old out.new }
    ensures back { back.new.items ≡ back.old.items ++ option_to_list item.context }
    ensures capacity { vec_capacity back.new ≡ vec_capacity back.old }
{
    let fate = rest.take(bypasses, &lent(tick, context, &item), out);
    give_back(item.context, back);
    fate
}

/// The item at a tick, with its context data lent or without.
fn lent<B: Parcel>(tick: u64, context: bool, item: &Qualified<B>) -> Report<'_>
    ensures { result ≡ with_context context (here B.held tick item.now) }
{
    Report {
        tick,
        event: item.event,
        count: item.count,
        stamp: item.stamp,
        context: lent_bytes(context, &item.context),
    }
}

fn lent_bytes<B: Parcel>(context: bool, parcel: &Option<B>) -> Option<&[u8]>
    ensures { option_copied result ≡ (if context then option_map B.held parcel.now else None) }
{
    match parcel {
        Some(parcel) if context => Some(parcel.bytes()),
        _ => None,
    }
}
