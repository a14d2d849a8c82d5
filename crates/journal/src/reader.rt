//! What the lines so far of a journal tell, and the faults of the next one.

ghost use Rattle.std.specs.Prelude.{◌≡◌, ℕ, ◌<◌, ◌≤◌, ◌^◌, length, IfOk, OnOk};
ghost use Rattle.std.specs.Ordering.{nat_cmp};
ghost use Rattle.std.specs.BTreeSet.{contains as set_contains};
ghost use Rattle.text_spec.specs.JournalFaults.{has_pair, start};

use crate::form::{control_of, head_of, loss_of, report_of};
use crate::line::{RawControl, RawLoss, RawReport};
use crate::pairs::{is_free, pairs_of};
use crate::ranges::{
    CALLS, MAX_BYTES, has_event, has_sensor, is_call, is_change, is_claim, is_head, is_report,
};
use crate::room::{entry_room, turn_room};
use crate::taking::{decode_context, entry_of, entry_of_control};
use ids_config::{Config, asks};
use ids_types::{History, Loss, NoMemory, TurnHead};
use std::alloc::Global;
use std::collections::BTreeSet;
use text_spec::{LineFault, Words};

/// The most entries of a turn.
const MAX_ENTRIES: u64 = 1024;

/// The fault of a line that has no form.
const NO_FORM: LineFault = LineFault::Fault(1);

/// What the lines read so far tell, and what the next line has to observe.
#[derive(Debug, Drop)]
pub(crate) struct Reader<'a> {
    alloc: Global,
    pub(crate) config: &'a Config,
    pub(crate) history: History,
    pub(crate) losses: Vec<Loss>,
    /// The tick of the last turn, and how many entries it has.
    pub(crate) tick: u64,
    pub(crate) entries: u64,
    /// Each caller's least call that may follow.
    pub(crate) calls: [u64; 32],
    /// The least caller and call of a loss that may follow, as one number.
    pub(crate) pair: u64,
    /// Caller and call of each entry, as one number: once there are losses.
    pub(crate) pairs: BTreeSet<u64>,
    /// Where a context is decoded.
    room: [u8; 1024],
    ghost known: { 0 < length losses.items → (p : ℕ) → p < 2 ^ 48 →
        set_contains nat_cmp pairs p ≡ has_pair history.turns p },
}

impl<'a> Reader<'a> {
    ghost use Rattle.text_spec.specs.{start, head_fault, entry_fault, loss_fault, journal_grammar, begins, enters, loses, Took, after_line};
    ghost use Rattle.journal.specs.RawLines.{control_told, loss_told, report_told};
    ghost use Rattle.journal.specs.Answers.{added, entry_asks};
    ghost use Rattle.journal.specs.ReaderView.{past_of, Knows};

    pub(crate) fn new(alloc: Global, config: &'a Config) -> Result<Reader<'a>, NoMemory>
        ensures past { IfOk result (λ r. past_of r ≡ start) }
        ensures config { IfOk result (λ r. r.config.now ≡ config.now) }
    {
        Ok(Reader {
            alloc,
            config,
            history: History::make(alloc, 0, 0, 0)?,
            losses: Vec::new(alloc),
            tick: 0,
            entries: 0,
            calls: [0; 32],
            pair: 0,
            pairs: BTreeSet::new(alloc),
            room: [0; MAX_BYTES],
        })
    }

    /// Takes a line, or tells its first fault.
    pub(crate) fn take(&mut self, line: &[u8]) -> Result<(), LineFault>
        ensures took { Took (past_of self.new)
            (after_line (journal_grammar self.old.config.now) (past_of self.old) line.now) result }
        ensures config { self.new.config.now ≡ self.old.config.now }
    {
        let (kind, words) = Words::of(line).first().ok_or(NO_FORM)?;
        if kind == b"R".as_slice() {
            return self.enter(&report_of(words).ok_or(NO_FORM)?);
        }
        if kind == b"T".as_slice() {
            return self.begin(&head_of(words).ok_or(NO_FORM)?);
        }
        if kind == b"C".as_slice() {
            return self.control(&control_of(words).ok_or(NO_FORM)?);
        }
        if kind == b"L".as_slice() {
            return self.lose(&loss_of(words).ok_or(NO_FORM)?);
        }
        Err(NO_FORM)
    }

    /// Begins a turn.
    fn begin(&mut self, head: &TurnHead) -> Result<(), LineFault>
        ensures took { let past = past_of self.old in
            Took (past_of self.new) (added past (begins head.now) (head_fault past head.now)) result }
        ensures config { self.new.config.now ≡ self.old.config.now }
    {
        self.check_head(head)?;
        turn_room(&mut self.history)?;
        self.history.begin(head);
        self.tick = head.tick;
        self.entries = 0;
        Ok(())
    }

    fn check_head(&self, head: &TurnHead) -> Result<(), u8>
        ensures { result ≡ head_fault (past_of self.now) head.now }
    {
        asks(2, self.losses.is_empty())?;
        asks(3, is_head(head))?;
        asks(5, self.tick <= head.tick)
    }

    /// Takes a report.
    #[inline(always)]
    fn enter(&mut self, report: &RawReport<'_>) -> Result<(), LineFault>
        ensures took { let past = past_of self.old in
            Took (past_of self.new) (added past (enters (report_told report.now))
            (entry_fault self.old.config.now past (report_told report.now))) result }
        ensures config { self.new.config.now ≡ self.old.config.now }
    {
        let known = has_sensor(self.config, report.event);
        self.check_entry(report.caller, report.call, is_report(report), known)?;
        let len = decode_context(&report.context, &mut self.room);
        entry_room(&mut self.history, len as u64)?;
        let entry = entry_of(report, &self.room[..len]);
        self.history.add(&entry);
        self.calls[report.caller as usize] = report.call + 1;
        self.entries += 1;
        Ok(())
    }

    /// Takes a control.
    fn control(&mut self, control: &RawControl) -> Result<(), LineFault>
        ensures took { let past = past_of self.old in
            Took (past_of self.new) (added past (enters (control_told control.now))
            (entry_fault self.old.config.now past (control_told control.now))) result }
        ensures config { self.new.config.now ≡ self.old.config.now }
    {
        let known = has_event(self.config, &control.change);
        self.check_entry(
            control.caller,
            control.call,
            is_change(&control.change),
            known,
        )?;
        entry_room(&mut self.history, 0)?;
        self.history.add(&entry_of_control(control));
        self.calls[control.caller as usize] = control.call + 1;
        self.entries += 1;
        Ok(())
    }

    /// What the lines before ask of an entry, whose act's numbers are in their ranges where it `fits`,
    /// and whose event may stand there where it is `known`.
    #[inline(always)]
    fn check_entry(&self, caller: u64, call: u64, fits: bool, known: bool) -> Result<(), u8>
        ensures asked { result ≡ entry_asks (past_of self.now) caller call fits known }
        ensures few { OnOk result (self.now.entries < 1024) }
    {
        asks(2, self.history.turns() > 0 && self.losses.is_empty())?;
        asks(3, is_call(caller, call) && fits)?;
        asks(4, known)?;
        asks(6, self.calls[caller as usize] <= call)?;
        asks(7, self.entries < MAX_ENTRIES)
    }

    /// Takes a loss.
    fn lose(&mut self, loss: &RawLoss) -> Result<(), LineFault>
        ensures took { let past = past_of self.old in
            Took (past_of self.new)
            (added past (loses (loss_told loss.now)) (loss_fault past (loss_told loss.now))) result }
        ensures config { self.new.config.now ≡ self.old.config.now }
    {
        asks(3, is_call(loss.caller, loss.call) && is_claim(loss.given))?;
        self.learn_pairs()?;
        let pair = loss.caller * CALLS + loss.call;
        asks(6, self.pair <= pair && is_free(&self.pairs, pair))?;
        self.losses.push(Loss {
            caller: loss.caller as u8,
            call: loss.call,
            given: loss.given,
        })?;
        self.pair = pair + 1;
        Ok(())
    }

    /// Knows the pairs of entries from the first loss on.
    fn learn_pairs(&mut self) -> Result<(), NoMemory>
        ensures config { self.new.config.now ≡ self.old.config.now }
        ensures same { OnOk result (past_of self.new ≡ past_of self.old) }
        ensures knows { OnOk result (Knows self.new) }
    {
        if self.losses.is_empty() {
            self.pairs = pairs_of(self.alloc, &self.history)?;
        }
        Ok(())
    }
}
