//! What is measured. The calls of a report queue, and the atomic operations alone that they make, on words that lie as its
//! ring's do. Reports through a pass, and what takes them: the desk, or a manager by its turns.
ghost use Rattle.buffer_classes.specs.Givers.{AreBuffersIn};
ghost use Rattle.main_function.specs.Standing.{IsManagerOf};
ghost use Rattle.report_api.specs.{IsDeskOf, IsPassOf, IsShared, sizes_of, AdmitsAct};
ghost use Rattle.report_queue.specs.Parts.{IsIdle, IsTakerOf};

use crate::rounds::{Ring, Size};
use crate::times::{Bench, Pair};
use config_json::read;
use event_chain::EventChain;
use filter_chain::{ParcelChain, Unlogged};
use ids_types::{Act, Carried, EventIndex};
use main_function::Manager;
use report_api::{CtxBuf, Desk, Pass, Report, Shared};
use report_queue::{Cargo, Queue, QueueSeat, Taker, make};
use std::alloc::AllocError;
use std::array;
use std::marker::PhantomData;
use std::rt::Clock;
use std::sync::atomic::{AtomicU64, Ordering};
use std::thread::Threads;

/// Items that carry a number, each of which is admitted.
struct Numbers;

impl Cargo for Numbers {
    type Load = u64;

    type Terms = ();

    type Note = u64;

    ghost note = { λ x. x };

    ghost admits_note = { λ _ _. Unit {0} };
}

impl Ring for Queue<Numbers> {
    type Caller = QueueSeat<Numbers>;

    type Taker = Taker<Numbers>;

    ghost calls = { IsIdle };

    ghost takes = { IsTakerOf };

    fn put(&self, seat: &mut QueueSeat<Numbers>, batch: u64) -> u64 {
        // A caller that made more calls than a measurement makes, makes no more.
        if seat.calls().max(batch) >= 4_294_967_296 {
            return 0;
        }
        let mut count: u64 = 0;
        for number in 0..batch {
            if seat.claim(self).is_ok() {
                seat.fill(self, number);
                count = count.wrapping_add(1);
            }
        }
        count
    }

    fn take(&self, taker: &mut Taker<Numbers>, batch: u64) -> u64 {
        let mut count: u64 = 0;
        for _ in 0..batch {
            if taker.take(self, &mut Some(0)).is_err() {
                break;
            }
            count = count.wrapping_add(1);
        }
        taker.give_back(self);
        count
    }
}

/// A word of claims and free positions, two words unused, and a mark for each of 1,024 positions.
#[derive(Drop)]
struct Words([AtomicU64; 1027]);

impl Words {
    // What a claim with its fill does: it looks, adds its claim, writes the slot of its ticket's position and marks it.
    fn put(&self, slots: &mut [u64; 1024]) -> bool {
        if self.0[0].load(Ordering::SeqCst) % 65536 == 0 {
            return false;
        }
        // One claim more, and one free position less.
        let ticket = self.0[0].fetch_add(65535, Ordering::SeqCst) / 65536;
        let place = (ticket % 1024) as usize;
        slots[place] = ticket;
        self.0[3 + place].store(ticket + 1, Ordering::SeqCst);
        true
    }

    // What takes and giving back do: they look at the marks from this ticket on, up to one that is not finished, and
    // add the positions by a compare-exchange that is tried again where the word was changed in between.
    fn take(&self, next: u64, most: u64) -> u64 {
        let mut count: u64 = 0;
        for _ in 0..most {
            let ticket = next.wrapping_add(count);
            let mark = &self.0[3 + (ticket % 1024) as usize];
            if mark.load(Ordering::SeqCst) != ticket.wrapping_add(1) {
                break;
            }
            count = count.wrapping_add(1);
        }
        let more = |seen: u64| (count > 0).then_some(seen.wrapping_add(count));
        let _ = self.0[0].fetch_update(Ordering::SeqCst, Ordering::SeqCst, more);
        count
    }
}

/// The words of the report ring, and those of a class's ring where there is context.
impl Ring for Vec<Words> {
    // What the slots of positions hold: a number each.
    type Caller = [u64; 1024];

    // The next ticket.
    type Taker = u64;

    ghost calls = { λ _ _. Unit {0} };

    ghost takes = { λ _ _. Unit {0} };

    fn put(&self, slots: &mut [u64; 1024], batch: u64) -> u64 {
        let mut count: u64 = 0;
        for _ in 0..batch {
            let done = self.iter().all(|words| words.put(slots));
            count = count.wrapping_add(u64::from(done));
        }
        count
    }

    fn take(&self, next: &mut u64, batch: u64) -> u64 {
        let mut count = 0;
        for words in self {
            count = words.take(*next, batch);
        }
        *next = next.wrapping_add(count);
        count
    }
}

/// One event over 16, 256 or 1,024 event buffers and as many context data buffers. No filter looks at more than its mode.
pub const FEW: &[u8] =
    br#"{"form":1,"instance":18,"ring":16,"classes":[{"size":16,"number":16}],"events":[{"id":42,"sensor":3}]}"#;

const SOME: &[u8] =
    br#"{"form":1,"instance":18,"ring":256,"classes":[{"size":16,"number":256}],"events":[{"id":42,"sensor":3}]}"#;

pub const MANY: &[u8] =
    br#"{"form":1,"instance":18,"ring":1024,"classes":[{"size":16,"number":1024}],"events":[{"id":42,"sensor":3}]}"#;
/// The same with a filter of each kind that looks at single reports and lets them through, an event memory that stores
/// them, and limits that let their messages out.
pub const FILTERED: &[u8] =
    br#"{"form":1,"instance":18,"ring":1024,"memory":1,"classes":[{"size":16,"number":1024}],"rate":{"interval":1000,"events":4294967295},"traffic":{"interval":1000,"bytes":4294967295},"events":[{"id":42,"sensor":3,"store":true,"block":[1],"threshold":{"interval":1000,"count":1}}]}"#;

/// What passes and a desk share, and the context of each report.
#[derive(Drop)]
struct Reporting<'c> {
    shared: Shared,
    context: &'c [u8],
}

impl Ring for Reporting<'_> {
    type Caller = Pass;

    // The desk, and the buffers that it is to give back.
    type Taker = (Desk, Vec<CtxBuf>);

    ghost calls = { λ reporting. IsPassOf reporting.shared };

    ghost takes = { λ reporting taker. IsDeskOf reporting.shared taker.0 × AreBuffersIn (sizes_of reporting.shared) taker.1.items };

    fn put(&self, pass: &mut Pass, batch: u64) -> u64 {
        let mut count: u64 = 0;
        for _ in 0..batch {
            let report = pass.report(&self.shared, EventIndex(0), 1, None, self.context);
            count = count.wrapping_add(u64::from(matches!(report, Report::Accepted(_))));
        }
        count
    }

    fn take(&self, taker: &mut (Desk, Vec<CtxBuf>), batch: u64) -> u64 {
        let (desk, back) = taker;
        let mut count: u64 = 0;
        for _ in 0..batch {
            let Ok(item) = desk.take(&self.shared) else {
                break;
            };
            if keep(&self.shared, item.payload, back).is_err() {
                break;
            }
            count = count.wrapping_add(1);
        }
        desk.give_back(&self.shared, back);
        count
    }
}

// Keeps the buffer of an act, if it has one and there is memory.
fn keep(shared: &Shared, act: Act<CtxBuf>, back: &mut Vec<CtxBuf>) -> Result<(), AllocError>
    requires shared { IsShared shared.now }
    requires act { AdmitsAct shared.now.terms act }
    requires back { AreBuffersIn (sizes_of shared.now) back.old.items }
    ensures { AreBuffersIn (sizes_of shared.now) back.new.items }
{
    match act {
        Act::Report {
            context: Carried::Kept { parcel, .. },
            ..
        } => Ok(back.push(parcel)?),
        _ => Ok(()),
    }
}

/// What passes and a manager share, and how many turns a batch of takes has.
#[derive(Drop)]
struct Turning<'c, C> {
    reporting: Reporting<'c>,
    turns: u64,
    chain: PhantomData<C>,
}

impl<C: ParcelChain<CtxBuf> + Send + Sync + Drop> Ring for Turning<'_, C> {
    type Caller = Pass;

    type Taker = Manager<C>;

    ghost calls = { λ turning. IsPassOf turning.reporting.shared };

    ghost takes = { λ turning. IsManagerOf C.events C.kept turning.reporting.shared };

    fn put(&self, pass: &mut Pass, batch: u64) -> u64 {
        self.reporting.put(pass, batch)
    }

    // The items of one turn are its messages, and of several ones those that sent nothing.
    fn take(&self, manager: &mut Manager<C>, _: u64) -> u64 {
        let shared = &self.reporting.shared;
        if self.turns == 1 {
            return turn(shared, manager).unwrap_or(0);
        }
        let mut count: u64 = 0;
        for _ in 0..self.turns {
            count = count.wrapping_add(u64::from(turn(shared, manager) == Some(0)));
        }
        count
    }
}

// Makes a turn, and answers how many messages it sent. A manager that made 2^32 turns, more than a measurement makes,
// makes no more.
fn turn<C: ParcelChain<CtxBuf>>(shared: &Shared, manager: &mut Manager<C>) -> Option<u64>
    requires { IsManagerOf C.events C.kept shared.now manager.old }
    ensures { IsManagerOf C.events C.kept shared.now manager.new }
{
    let tick = manager.turns();
    if tick >= 4_294_967_296 {
        return None;
    }
    let out = manager.turn(shared, tick).ok()?;
    Some(u64::from(out.messages()))
}

impl<R: Clock + AllocGlobal + Threads + Sync> Bench<'_, R> {
    /// Measures calls of a queue of 1,024 positions by so many callers, at most 32.
    pub fn queue(&self, callers: u8, size: Size) -> Option<Pair> {
        let callers = callers.clamp(1, 32);
        let alloc = self.rt.alloc();
        let spent = Vec::from_elem(alloc, 0, 1024).ok()?;
        let Ok(mut made) = make::<Numbers>(alloc, 1024, callers, (), spent) else {
            return None;
        };
        let seats = made.seats;
        self.measure(&made.queue, size, seats, &mut made.taker)
    }

    /// Measures the bare operations of so many callers on so many rings, whose positions are all free.
    pub fn bare(&self, callers: u8, rings: u8, size: Size) -> Option<Pair> {
        let alloc = self.rt.alloc();
        let first = |place: usize| if place == 0 { 1024 } else { 0 };
        let words = |_: u8| Words(array::from_fn(|place| AtomicU64::new(first(place))));
        let rings: Vec<Words> = (0..rings).map(words).collect(alloc).ok()?;
        let slots = vec![in alloc; [0; 1024]; callers as usize].ok()?;
        self.measure(&rings, size, slots, &mut 0)
    }

    /// Measures reports with this context, at most 16 bytes, and their takes at the desk.
    pub fn reports(&self, context: &[u8], size: Size) -> Option<Pair> {
        let alloc = self.rt.alloc();
        let config = read(alloc, SOME).ok()?;
        let Ok(mut made) = report_api::make(alloc, &config) else {
            return None;
        };
        let shared = made.shared;
        let reporting = Reporting { shared, context };
        let mut taker = (made.desk, Vec::new(alloc));
        self.alone(&reporting, size, &mut made.passes, &mut taker)
    }

    /// Measures turns that take reports with this context, at most 16 bytes; where a batch of puts has none, empty ones.
    pub fn turns(&self, config: &[u8], context: &[u8], size: Size) -> Option<Pair> {
        let alloc = self.rt.alloc();
        let config = read(alloc, config).ok()?;
        let chain = EventChain::make(alloc, &config).ok()?;
        let Ok(mut made) = main_function::make(alloc, &config, chain, Unlogged) else {
            return None;
        };
        let shared = made.shared;
        let turning = Turning {
            reporting: Reporting { shared, context },
            turns: if size.0 == 0 { size.1 } else { 1 },
            chain: PhantomData,
        };
        self.alone(&turning, size, &mut made.passes, &mut made.manager)
    }
}
