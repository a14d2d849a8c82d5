//! The second program over the library: two callers report beside a manager's turns, and what the manager writes, the
//! lines of each turn and its messages, goes to two files, from which `idsm check`, `fold` and `explain` work.
//!
//! Layer 11, the library in use. Over `idsm_api`.
#![tactic(auto)]

ghost use Rattle.std.specs.Prelude.{◌≡◌, ◌≤◌, All, IfOk, OnOk, length};
ghost use Rattle.std.specs.Thread.{IsSync};
ghost use Rattle.ids_config.specs.Parts.{Parts};
ghost use Rattle.config_json.specs.Configured.{configuration};
ghost use Rattle.idsm_api.specs.{AreAllCallers, AreSameCallers, IsFitCaller, IsSameCaller, manager_shares, most_bytes};
ghost use Rattle.first_journal.specs.Writing.{Adds, GoesOn, IsAfter, IsNew, IsOver};

use idsm_api::{Answer, Caller, EventIndex, Manager, Totals, With};
use std::thread::{Threads, join_mut};
use std::{env, fs, io, thread};

/// Two callers, four event buffers, and one event: 42 of sensor 3.
const CONFIG: &[u8] =
    br#"{"form":2,"instance":18,"callers":2,"ring":4,"events":[{"id":42,"sensor":3}]}"#;

/// How many turns are made beside the callers.
const TURNS: u64 = 100;

/// How many reports each caller makes.
const REPORTS: u64 = 50;

/// Reports event 0 again and again.
fn report(_: usize, caller: &mut Caller)
    requires { IsFitCaller caller.old }
    ensures { IsFitCaller caller.new × IsSameCaller caller.old caller.new }
{
    for _ in 0..REPORTS {
        caller.report_event(EventIndex(0));
        thread::yield_now();
    }
}

/// Each caller reports, in a thread of its own.
fn report_all<R: Threads + Sync>(rt: &R, callers: &mut [Caller])
    requires { All IsFitCaller callers.old }
    ensures { AreSameCallers callers.old callers.new }
{
    thread::for_each_mut(rt, callers, 2, &report);
}

/// What a manager wrote: its lines and its messages.
#[derive(Drop)]
struct Written {
    journal: Vec<u8>,
    sent: Vec<u8>,
}

/// What was written, and what became of the reports.
#[derive(Drop)]
struct Outcome {
    written: Written,
    totals: Totals,
}

impl Written {
    /// Adds the lines of the manager's last turn, and its messages.
    fn add(&mut self, manager: &Manager, sent: &[u8]) -> io::Result<()>
        ensures { OnOk result (Adds manager.now sent.now self.old self.new) }
    {
        let Ok(lines) = manager.journal() else {
            return Err(io::Error::other("the lines of a turn are missed"));
        };
        self.journal.extend_from_slice(lines)?;
        self.sent.extend_from_slice(sent)?;
        Ok(())
    }
}

/// Makes turns, and keeps what each of them wrote.
fn make_turns(manager: &mut Manager, buffer: &mut [u8], written: &mut Written) -> io::Result<()>
    requires new { IsAfter 0 manager.old }
    requires room { most_bytes (manager_shares manager.old) ≤ length buffer.old }
    ensures { OnOk result (GoesOn TURNS manager.old written.old manager.new written.new) }
{
    for turns in 0..TURNS {
        let turn = manager.turn(turns + 1, buffer);
        let Answer::Done = turn.answer else {
            unreachable!()
        };
        written.add(manager, &buffer[..turn.told.bytes as usize])?;
        thread::yield_now();
    }
    Ok(())
}

/// Has the callers report in threads of their own, beside the manager's turns.
fn make_beside<R: Threads + Sync>(
    rt: &R,
    callers: &mut [Caller],
    manager: &mut Manager,
    buffer: &mut [u8],
    written: &mut Written,
) -> io::Result<()>
    requires fit { All IsFitCaller callers.old }
    requires new { IsAfter 0 manager.old }
    requires room { most_bytes (manager_shares manager.old) ≤ length buffer.old }
    ensures same { AreSameCallers callers.old callers.new }
    ensures goes { OnOk result (GoesOn TURNS manager.old written.old manager.new written.new) }
{
    let ((), made) = join_mut(
        rt,
        &mut || -> ()
            requires { IsSync R.row × All IsFitCaller callers.now }
            ensures { AreSameCallers callers.entry.now callers.exit.now }
        { report_all(rt, callers) },
        &mut || -> io::Result<()>
            requires { IsAfter 0 manager.now × (most_bytes (manager_shares manager.now) ≤ length buffer.now) }
            ensures { OnOk result (GoesOn TURNS manager.entry.now written.entry.now manager.exit.now written.exit.now) }
        { make_turns(manager, buffer, written) },
    );
    made
}

/// Makes turns beside the callers, and then closes the manager. What each turn and the close wrote is kept.
fn write_all<R: Threads + Sync + AllocGlobal>(
    rt: &R,
    manager: &mut Manager,
    callers: &mut Vec<Caller>,
    buffer: &mut [u8],
) -> io::Result<Outcome>
    requires new { IsAfter 0 manager.old }
    requires callers { AreAllCallers manager.old callers.old.items }
    requires fit { All IsFitCaller callers.old.items }
    requires room { most_bytes (manager_shares manager.old) ≤ length buffer.old }
    ensures { IfOk result (λ outcome. (config : Parts) → IsNew config manager.old → IsOver config outcome) }
{
    let mut written = Written {
        journal: Vec::new(rt.alloc()),
        sent: Vec::new(rt.alloc()),
    };
    make_beside(rt, callers, manager, buffer, &mut written)?;
    let closed = manager.close(callers, TURNS + 1, buffer);
    let Answer::Done = closed.answer else {
        unreachable!()
    };
    written.add(manager, &buffer[..closed.told.bytes as usize])?;
    Ok(Outcome {
        written,
        totals: closed.totals,
    })
}

/// Makes a manager of the configuration, and keeps what it writes beside its callers.
fn run<R: Threads + Sync + AllocGlobal>(rt: &R, config: &[u8]) -> io::Result<Outcome>
    ensures { IfOk result (λ outcome. IfOk (configuration config.now) (λ config. IsOver config outcome)) }
{
    let Ok(setup) = Manager::make_with(rt.alloc(), config, With { journal: true }) else {
        return Err(io::Error::other("there is no manager"));
    };
    let mut manager = setup.manager;
    let mut callers = setup.callers;
    let mut buffer = vec![in rt.alloc(); 0; manager.most_bytes() as usize]?;
    write_all(rt, &mut manager, &mut callers, &mut buffer)
}

fn main(rt: HostRuntime) -> io::Result<()> {
    let Outcome { written, totals } = run(&rt, CONFIG)?;
    let words: Vec<String> = env::args(&rt)?.skip(1).collect(rt.alloc())?;
    match &words[..] {
        [] => {}
        [journal, messages] => {
            fs::write(&rt, journal, &written.journal)?;
            fs::write(&rt, messages, &written.sent)?;
        }
        _ => {
            return Err(io::Error::other("name a file for the journal and one for the messages"));
        }
    }
    println!(rt;
        "{} reports: taken and lost {}",
        2 * REPORTS,
        totals.entries.saturating_add(totals.lost_events)
    )
}
