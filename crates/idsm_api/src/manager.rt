//! A manager with what it shares.
ghost use Rattle.std.specs.Prelude.{◌≡◌, ◌≤◌, [], List, length, IfErr, OnOk};
ghost use Rattle.ids_types.specs.Turns.{Turn};
ghost use Rattle.ids_config.specs.Parts.{Parts};
ghost use Rattle.filter_chain.specs.History.{rows_of};
ghost use Rattle.idsm_api.specs.{AreAllCallers, AreCounted, CloseMade, CloseTells, CountsTell, IsFitManager, StandsFor, manager_shares, most_bytes, MayTurn, Refuses, TurnMade, TurnTells, told_by, told_in, Done, Caller as CallerValue};
ghost use Rattle.idsm_api.specs.Reading.{LateTells, ModeTells, RowTells, StatusTells};
ghost use Rattle.idsm_api.specs.Text.{LinesTell};

use crate::answer::Answer;
use crate::caller::Caller;
use crate::closing::{CloseAnswer, not_closed, take_passes};
use crate::reading::{RowAnswer, Status, hand_over_row};
use crate::turning::{ChainManager, TurnAnswer, is_quiet, told_in};
use crate::writing::put;
use ids_types::{EventIndex, Mode};
use report_api::{Pass, Shared};
use std::sync::Arc;

/// How many turns a manager makes at most.
const MOST_TURNS: u64 = 1 << 62;

/// The largest tick.
const MAX_TICK: u64 = 1 << 62;

/// One who takes what callers reported, a turn at a time. Its calls take no memory and wait for nobody. It may be given
/// to another thread.
///
/// Contracts say for which turns it stands (`StandsFor`).
#[derive(Drop)]
pub struct Manager {
    pub(crate) shared: Arc<Shared>,
    pub(crate) manager: ChainManager,
    // Where a close puts the passes of the callers: empty between two calls.
    pub(crate) passes: Vec<Pass>,
    // How many bytes a buffer for the messages of a turn has at least.
    pub(crate) most: u64,
    // How many classes of context data buffers there are, and how many events.
    pub(crate) classes: u8,
    pub(crate) events: u64,
}

impl Manager {
    /// How many bytes a buffer for the messages of a turn has at least.
    pub fn most_bytes(&self) -> u64
        requires { IsFitManager self.now }
        ensures { result ≡ most_bytes (manager_shares self.now) }
    {
        self.most
    }

    /// Makes a turn, and writes its messages to the front of the buffer, one after the other. The tick is at least that of
    /// the turn before, and at most 2^62. A refusal makes no turn and changes nothing: it comes before the turn where the
    /// buffer is too small.
    /// Steps: as `main_function::Manager::turn` over an `EventChain`, one `EventChain::closes`, and the bytes of its
    /// messages; none of these if it is refused. By: `told` (`TurnTells`: `quick`); answer `TurnAnswer`, no NoMemory.
    pub fn turn(&mut self, tick: u64, buffer: &mut [u8]) -> TurnAnswer
        requires fit { IsFitManager self.old }
        ensures fit { IsFitManager self.new }
        ensures told { TurnTells tick self.old buffer.old result.answer result.quiet self.new buffer.new }
        ensures numbers { result.told ≡ told_by result.answer self.new.manager }
        ensures within { result.told.bytes ≤ length buffer.new }
        ensures made { MayTurn tick self.old (length buffer.old) → result.answer ≡ Done }
        ensures callers { (callers : List CallerValue) → AreAllCallers self.old callers → AreAllCallers self.new callers }
    {
        match self.check(tick, buffer.len()) {
            Ok(()) => self.step(tick, buffer),
            Err(refusal) => TurnAnswer::refused(refusal),
        }
    }

    /// Closes the manager: all callers come back, and a last turn takes all that was reported and is not taken yet. Its
    /// messages go to the front of the buffer, as a turn's do. It answers what all turns together took and lost. A
    /// refusal is that of a turn: it changes nothing, and leaves the callers in place.
    /// Steps: as `main_function::Manager::close` over an `EventChain`, the callers, and the bytes of its messages; none
    /// of these where it is refused. By: `told` (`CloseTells`: `quick`); answer `CloseAnswer`, no NoMemory.
    pub fn close(&mut self, callers: &mut Vec<Caller>, tick: u64, buffer: &mut [u8]) -> CloseAnswer
        requires fit { IsFitManager self.old }
        requires callers { AreAllCallers self.old callers.old.items }
        ensures fit { IsFitManager self.new }
        ensures told { CloseTells tick self.old callers.old.items buffer.old result.answer self.new callers.new.items buffer.new }
        ensures numbers { result.told ≡ told_by result.answer self.new.manager }
        ensures counts { CountsTell result.answer callers.old.items result.totals }
        ensures within { result.told.bytes ≤ length buffer.new }
        ensures made { MayTurn tick self.old (length buffer.old) → result.answer ≡ Done }
    {
        match self.check(tick, buffer.len()) {
            Ok(()) => self.finish(callers, tick, buffer),
            Err(refusal) => not_closed(refusal),
        }
    }

    // Makes a turn that may be made.
    fn step(&mut self, tick: u64, buffer: &mut [u8]) -> TurnAnswer
        requires fit { IsFitManager self.old }
        requires may { MayTurn tick self.old (length buffer.old) }
        ensures fit { IsFitManager self.new }
        ensures made { TurnMade tick self.old buffer.old result.quiet self.new buffer.new }
        ensures answer { result.answer ≡ Done }
        ensures told { result.told ≡ told_in self.new.manager }
        ensures within { result.told.bytes ≤ length buffer.new }
    {
        let closes = self.manager.chain().closes(tick);
        let Ok(out) = self.manager.turn(&self.shared, tick) else {
            unreachable!()
        };
        put(out.sent(), buffer);
        TurnAnswer {
            answer: Answer::Done,
            told: told_in(&self.manager),
            quiet: is_quiet(closes, &self.manager),
        }
    }

    // Makes a close whose turn may be made.
    fn finish(&mut self, callers: &mut Vec<Caller>, tick: u64, buffer: &mut [u8]) -> CloseAnswer
        requires fit { IsFitManager self.old }
        requires may { MayTurn tick self.old (length buffer.old) }
        requires callers { AreAllCallers self.old callers.old.items }
        ensures fit { IsFitManager self.new }
        ensures made { CloseMade tick self.old callers.old.items buffer.old self.new buffer.new }
        ensures empty { callers.new.items ≡ [] }
        ensures answer { result.answer ≡ Done }
        ensures told { result.told ≡ told_in self.new.manager }
        ensures counts { AreCounted callers.old.items result.totals }
        ensures within { result.told.bytes ≤ length buffer.new }
    {
        take_passes(callers, &mut self.passes);
        let Ok((out, totals)) = self.manager.close(&self.shared, &mut self.passes, tick) else {
            unreachable!()
        };
        put(out.sent(), buffer);
        CloseAnswer {
            answer: Answer::Done,
            told: told_in(&self.manager),
            totals,
        }
    }

    // Whether a turn of this tick is made with a buffer of so many bytes, and why not.
    fn check(&self, tick: u64, room: usize) -> Result<(), Answer>
        requires { IsFitManager self.now }
        ensures ok { OnOk result (MayTurn tick self.now room) }
        ensures err { IfErr result (Refuses tick self.now room) }
    {
        if (room as u64) < self.most {
            return Err(Answer::SmallBuffer);
        }
        if self.manager.turns() >= MOST_TURNS {
            return Err(Answer::Spent);
        }
        if tick < self.manager.head().tick {
            return Err(Answer::TickBack);
        }
        if tick > MAX_TICK {
            return Err(Answer::TickTooLarge);
        }
        Ok(())
    }

    /// The lines of the last turn as a journal has them, none before the first: `OutOfRange` if no journal was asked for,
    /// `SmallBuffer` if there was no room for them.
    pub fn journal(&self) -> Result<&[u8], Answer>
        ensures { LinesTell self.now.manager.log result }
    {
        self.manager.log().lines()
    }

    /// What all turns so far did.
    pub fn status(&self) -> Status
        requires { IsFitManager self.now }
        ensures { (config : Parts) (turns : List Turn) → StandsFor config turns self.now → StatusTells config turns result }
    {
        let totals = self.manager.totals();
        Status {
            turns: self.manager.turns(),
            tick: self.manager.head().tick,
            entries: totals.entries,
            lost_events: totals.lost_events,
            lost_contexts: totals.lost_contexts,
            messages: self.manager.messages(),
            limited: self.manager.limited(),
            records: u32::from(self.rows()),
            state: self.manager.chain().state(),
        }
    }

    /// The reporting mode of an event, as the last turn left it: `None` if there is no such event.
    pub fn mode(&self, event: EventIndex) -> Option<Mode>
        requires { IsFitManager self.now }
        ensures { ModeTells self.now event result }
    {
        if u64::from(event.0) >= self.events {
            return None;
        }
        Some(self.manager.chain().mode(event))
    }

    /// How many records the event memory has.
    pub fn rows(&self) -> u16
        ensures { (config : Parts) (turns : List Turn) → StandsFor config turns self.now →
            result ≡ length (rows_of config turns) }
    {
        self.manager.memory().len()
    }

    /// A record of the event memory, from the one stored longest ago on. Its context data go to the front of the
    /// buffer, which has to have room for all of them.
    /// Steps: the bytes of the context, at most 1,024. By: `RowTells`; read off.
    pub fn row(&self, i: u16, buffer: &mut [u8]) -> RowAnswer
        ensures { (config : Parts) (turns : List Turn) → StandsFor config turns self.now →
            RowTells (rows_of config turns) i buffer.old result.answer result.row buffer.new }
    {
        hand_over_row(self.manager.memory(), i, buffer)
    }

    /// How many buffers of a class wait for a free position: `None` where there is no such class.
    pub fn late(&self, class: u8) -> Option<u16>
        requires { IsFitManager self.now }
        ensures { LateTells self.now class result }
    {
        if class >= self.classes {
            return None;
        }
        Some(self.manager.late(class))
    }
}
