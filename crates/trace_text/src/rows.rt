//! The lines of callers, and how those of all callers lie in memory.

ghost use Rattle.std.specs.Prelude.{◌≡◌, ℕ, ◌+◌, ◌<◌, List, ◌∷◌, ◌++◌, [], length, set, replicate, slice_index_or, IfOk, OnOk, OnErr};
ghost use Rattle.trace_text.specs.Lines.{bytes_asked, line_asked, line_at, row_asked, IsRowWithin};

use ids_types::{EventIndex, Mode, NoMemory, Stamp};
use std::alloc::Global;
use std::marker::Model;

/// A line of a caller: what it asks for.
#[derive(Clone, Copy, Debug)]
pub struct Line<'a> {
    pub act: TraceAct<'a>,
}

impl<'a> Line<'a> {
    /// The context of a report, no bytes where there is none.
    pub(crate) fn context(&self) -> &'a [u8]
        ensures { result.now ≡ bytes_asked (line_asked self.now) }
    {
        match self.act {
            TraceAct::Report { context, .. } => context,
            TraceAct::State(_) | TraceAct::SetMode { .. } => &[],
        }
    }
}

/// What a caller asks for.
#[derive(Clone, Copy, Debug)]
pub enum TraceAct<'a> {
    /// A report of a security event, seen `count` times, with no bytes where it has no context.
    Report {
        event: EventIndex,
        count: u16,
        stamp: Option<Stamp>,
        context: &'a [u8],
    },
    /// A change of the state that the block state filter asks.
    State(u8),
    /// A setting of an event's reporting mode.
    SetMode {
        event: EventIndex,
        mode: Mode,
    },
}

/// A line of a caller. Its context lies between two places of the bytes of all lines.
#[derive(Clone, Copy, Debug)]
pub(crate) enum Row {
    /// Of an event, with its count, its timestamp, and where its context begins and ends.
    Report(EventIndex, u16, Option<Stamp>, usize, usize),
    State(u8),
    SetMode(EventIndex, Mode),
}

impl Row {
    /// The row of a line whose context lies between these places.
    pub(crate) fn of(line: &Line<'_>, start: usize, end: usize) -> Row
        requires { end ≡ start + length (bytes_asked (line_asked line.now)) }
        ensures asked { (before : List ℕ) → length before ≡ start →
            row_asked (before ++ bytes_asked (line_asked line.now)) result ≡ line_asked line.now }
        ensures within { IsRowWithin end result }
    {
        match line.act {
            TraceAct::Report {
                event,
                count,
                stamp,
                ..
            } => Row::Report(event, count, stamp, start, end),
            TraceAct::State(state) => Row::State(state),
            TraceAct::SetMode { event, mode } => Row::SetMode(event, mode),
        }
    }

    /// The line, with its context lent from the bytes of all lines.
    pub(crate) fn line<'a>(&self, bytes: &'a [u8]) -> Line<'a>
        requires { IsRowWithin (length bytes.now) self.now }
        ensures { line_asked result ≡ row_asked bytes.now self.now }
    {
        let act = match *self {
            Row::Report(event, count, stamp, start, end) => TraceAct::Report {
                event,
                count,
                stamp,
                context: &bytes[start..end],
            },
            Row::State(state) => TraceAct::State(state),
            Row::SetMode(event, mode) => TraceAct::SetMode { event, mode },
        };
        Line { act }
    }
}

/// The lines of each caller in all rounds, one after the other, and the contexts of all lines.
#[derive(Debug, Drop)]
pub(crate) struct CallerRows {
    callers: Vec<Vec<Row>>,
    bytes: Vec<u8>,
}

impl Model for CallerRows {
    ghost use Rattle.std.specs.Prelude.{List};
    ghost use Rattle.text_spec.specs.TraceText.{Asked};

    ghost Value = { List (List Asked) };

    ghost use Rattle.trace_text.specs.Lines.{asked_of, AreSound};

    ghost view = { asked_of };

    ghost invariant = { AreSound };
}

impl CallerRows {
    /// Of so many callers, which have no lines yet, with room for so many lines of each and so many bytes of
    /// context.
    pub(crate) fn with_room(
        alloc: Global,
        callers: usize,
        lines: usize,
        bytes: usize,
    ) -> Result<CallerRows, NoMemory>
        ensures { IfOk result (λ r. r ≡ replicate callers []) }
    {
        let mut made = Vec::with_capacity(alloc, callers)?;
        for _ in 0..callers {
            made.push(Vec::with_capacity(alloc, lines)?)?;
        }
        Ok(CallerRows {
            callers: made,
            bytes: Vec::with_capacity(alloc, bytes)?,
        })
    }

    /// How many callers there are.
    pub(crate) fn callers(&self) -> usize
        ensures { result ≡ length self.now }
    {
        let _bytes = &self.bytes;
        self.callers.len()
    }

    /// How many lines a caller has.
    pub(crate) fn lines(&self, caller: usize) -> usize
        requires { caller < length self.now }
        ensures { result ≡ length (slice_index_or self.now caller []) }
    {
        let _bytes = &self.bytes;
        self.callers[caller].len()
    }

    /// Line `i` of a caller.
    pub(crate) fn line(&self, caller: usize, i: usize) -> Line<'_>
        requires caller { caller < length self.now }
        requires line { i < length (slice_index_or self.now caller []) }
        ensures { line_asked result ≡ line_at (slice_index_or self.now caller []) i }
    {
        self.callers[caller][i].line(&self.bytes)
    }

    /// Adds a line to a caller's.
    pub(crate) fn push(&mut self, caller: usize, line: &Line<'_>) -> Result<(), NoMemory>
        requires { caller < length self.old }
        ensures ok { OnOk result (self.new ≡
            set self.old caller (slice_index_or self.old caller [] ++ line_asked line.now ∷ [])) }
        ensures err { OnErr result (self.new ≡ self.old) }
    {
        let start = self.bytes.len();
        self.bytes.extend_from_slice(line.context())?;
        let row = Row::of(line, start, self.bytes.len());
        Ok(self.callers[caller].push(row)?)
    }
}
