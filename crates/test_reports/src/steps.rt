//! Tables of steps: what callers and their manager answer, one step after another.
//!
//! A table is a text of a configuration, and then of a line for each step, as `STEP => ANSWER`. The steps go to one
//! manager over the filter chain of the configuration, and to its passes. `turn TICK` answers the journal of the turn, with a bar for each
//! line feed, how many messages it sent, and their bytes; `close TICK` adds the totals. `rest` is the call of this
//! name. `tell` with `turns`, `passes`, `late CLASS`, `rests` or `memory` answers what the manager shows: rests and
//! records with their number first. `#` is a note. All other steps are calls of a pass (`calls.rt`).
ghost use Rattle.test_reports.specs.Running.{IsRunning};

use crate::calls::{call, number, word};
use config_json::read;
use event_chain::EventChain;
use filter_chain::{Log, ParcelChain, record_turn, reserve_turn};
use ids_config::Config;
use ids_types::{Entry, History, NoMemory, TurnHead};
use main_function::{Made, Manager, Totals, TurnFault, make};
use report_api::CtxBuf;
use std::alloc::Global;
use std::test::Fail;
use text_spec::{push_field, push_hex, push_number};

// The last turn, as a history of one; of none if there was no memory for it.
#[derive(Drop)]
struct LastTurn {
    history: History,
}

impl Log<CtxBuf> for LastTurn {
    ghost use Rattle.std.specs.Prelude.{⊤};

    ghost noted = { λ old turn new. ⊤ };

    fn note(&mut self, head: &TurnHead, items: &[Entry<CtxBuf>]) {
        self.history.clear();
        if reserve_turn(items, &mut self.history).is_ok() {
            record_turn(head, items, &mut self.history);
        }
    }
}

// A manager with its passes, as long as they are not back, and how many classes there are.
#[derive(Drop)]
struct Run<C> {
    made: Made<C, LastTurn>,
    classes: usize,
}

impl<C: ParcelChain<CtxBuf>> Run<C> {
    // Fails with the first of these lines whose step has another answer.
    fn each_holds(&mut self, alloc: Global, steps: &'static str) -> Result<(), Fail>
        requires { IsRunning C.events C.kept self.old.classes self.old.made }
    {
        let mut told = Vec::new(alloc);
        for line in steps.lines() {
            let (step, wanted) = line.split_once(" => ").unwrap_or((line, ""));
            told.clear();
            self.answer(alloc, step, &mut told)?;
            if told.as_slice() != wanted.as_bytes() {
                return Err(Fail::new(line));
            }
        }
        Ok(())
    }

    // Makes a step, and tells its answer.
    fn answer(&mut self, alloc: Global, step: &str, told: &mut Vec<u8>) -> Result<(), NoMemory>
        requires { IsRunning C.events C.kept self.old.classes self.old.made }
        ensures { IsRunning C.events C.kept self.new.classes self.new.made }
    {
        match word(step, 0) {
            "turn" => self.turn(alloc, number(step, 1), told),
            "close" => self.close(alloc, number(step, 1), told),
            "rest" => self.rest(told),
            "tell" => self.tell(alloc, step, told),
            "#" => Ok(()),
            _ => self.call(step, told),
        }
    }

    fn call(&mut self, step: &str, told: &mut Vec<u8>) -> Result<(), NoMemory>
        requires { IsRunning C.events C.kept self.old.classes self.old.made }
        ensures { IsRunning C.events C.kept self.new.classes self.new.made }
    {
        let caller = number(step, 1) as usize;
        if caller >= self.made.passes.len() {
            return Ok(told.extend_from_slice(b"no pass")?);
        }
        call(&self.made.shared, &mut self.made.passes[caller], step, told)
    }

    fn turn(&mut self, alloc: Global, tick: u64, told: &mut Vec<u8>) -> Result<(), NoMemory>
        requires { IsRunning C.events C.kept self.old.classes self.old.made }
        ensures { IsRunning C.events C.kept self.new.classes self.new.made }
    {
        if self.made.manager.turns() >= 1000 {
            return Ok(told.extend_from_slice(b"no room")?);
        }
        match self.made.manager.turn(&self.made.shared, tick) {
            Ok(_) => tell_turn(alloc, &self.made.manager, told),
            Err(fault) => tell_fault(told, fault),
        }
    }

    fn close(&mut self, alloc: Global, tick: u64, told: &mut Vec<u8>) -> Result<(), NoMemory>
        requires { IsRunning C.events C.kept self.old.classes self.old.made }
        ensures { IsRunning C.events C.kept self.new.classes self.new.made }
    {
        if self.made.passes.is_empty() || self.made.manager.turns() >= 1000 {
            return Ok(told.extend_from_slice(b"no room")?);
        }
        match self
            .made
            .manager
            .close(&self.made.shared, &mut self.made.passes, tick)
        {
            Ok((_, totals)) => {
                tell_turn(alloc, &self.made.manager, told)?;
                tell_totals(told, &totals)
            }
            Err(fault) => tell_fault(told, fault),
        }
    }

    fn rest(&mut self, told: &mut Vec<u8>) -> Result<(), NoMemory>
        requires { IsRunning C.events C.kept self.old.classes self.old.made }
        ensures { IsRunning C.events C.kept self.new.classes self.new.made }
    {
        if self.made.passes.is_empty() {
            return Ok(told.extend_from_slice(b"no pass")?);
        }
        self.made.manager.rest(&self.made.passes)?;
        Ok(told.extend_from_slice(b"rested")?)
    }

    // How many buffers of a class are late, the largest number where there is no such class.
    fn late(&self, class: u64) -> u16
        requires { IsRunning C.events C.kept self.now.classes self.now.made }
    {
        let class = class as usize;
        if class < self.classes && class < 4 {
            self.made.manager.late(class as u8)
        } else {
            u16::MAX
        }
    }

    // Tells what the manager shows.
    fn tell(&self, alloc: Global, step: &str, told: &mut Vec<u8>) -> Result<(), NoMemory>
        requires { IsRunning C.events C.kept self.now.classes self.now.made }
    {
        match word(step, 1) {
            "turns" => push_number(told, self.made.manager.turns()),
            "passes" => push_number(told, self.made.passes.len() as u64),
            "late" => push_number(told, u64::from(self.late(number(step, 2)))),
            "rests" => {
                let rests = self.made.manager.rests();
                push_number(told, rests.turns.len() as u64)?;
                for number in rests.turns.iter().chain(&rests.calls) {
                    push_field(told, *number)?;
                }
                Ok(())
            }
            "memory" => {
                let memory = self.made.manager.memory();
                push_number(told, u64::from(memory.len()))?;
                told.push(b'/')?;
                push_text(told, &memory.print(alloc)?)
            }
            _ => Ok(()),
        }
    }
}

// Appends a text, with a bar for each line feed.
fn push_text(told: &mut Vec<u8>, text: &[u8]) -> Result<(), NoMemory> {
    for &byte in text {
        told.push(if byte == b'\n' { b'/' } else { byte })?;
    }
    Ok(())
}

// The journal of what a turn took, how many messages it sent, and their bytes.
fn tell_turn<C: ParcelChain<CtxBuf>>(
    alloc: Global,
    manager: &Manager<C, LastTurn>,
    told: &mut Vec<u8>,
) -> Result<(), NoMemory> {
    let (log, out) = (manager.log(), manager.out());
    push_text(told, &journal::print(alloc, &log.history, &[])?)?;
    push_field(told, u64::from(out.messages()))?;
    told.extend_from_slice(b" #")?;
    push_hex(told, out.sent())
}

fn tell_totals(told: &mut Vec<u8>, totals: &Totals) -> Result<(), NoMemory> {
    told.extend_from_slice(b" totals")?;
    push_field(told, totals.entries)?;
    push_field(told, totals.lost_events)?;
    push_field(told, totals.lost_contexts)
}

fn tell_fault(told: &mut Vec<u8>, fault: TurnFault) -> Result<(), NoMemory> {
    let text = match fault {
        TurnFault::TickBack => "tick back",
        TurnFault::TickTooLarge => "tick too large",
    };
    Ok(told.extend_from_slice(text.as_bytes())?)
}

// Fails with the first of these lines whose step has another answer of a manager of this configuration.
fn all_hold(alloc: Global, config: &Config, steps: &'static str) -> Result<(), Fail> {
    let chain = EventChain::make(alloc, config)?;
    let log = LastTurn {
        history: History::make(alloc, 0, 0, 0)?,
    };
    let mut run = Run {
        made: make(alloc, config, chain, log)?,
        classes: config.parts().classes.len(),
    };
    run.each_holds(alloc, steps)
}

/// Fails with the first line of the table whose step has another answer.
pub fn each_step_holds(alloc: Global, table: &'static str) -> Result<(), Fail> {
    let (config, steps) = table.split_once("\n").unwrap_or((table, ""));
    let config = read(alloc, config.as_bytes())?;
    all_hold(alloc, &config, steps)
}
