//! The first program over the library: two callers report in threads of their own, the manager sends what they reported,
//! and its totals count both reports.
//!
//! Layer 11, the library in use. Over `idsm_api`.
#![tactic(auto)]

ghost use Rattle.std.specs.Prelude.{◌≡◌, ◌+◌, All, IfErr, IfOk};
ghost use Rattle.config_json.specs.declared.fault.JsonFault.TheVariants.{NoMemory};
ghost use Rattle.first_report.specs.Reporting.{HaveReported, HasReported, IsReady};

use idsm_api::{Answer, Caller, EventIndex, JsonFault, Manager, Totals};
use std::alloc::AllocError;
use std::thread::Threads;
use std::{io, thread};

/// Two callers, four event buffers, and one event: 42 of sensor 3.
const CONFIG: &[u8] =
    br#"{"form":2,"instance":18,"callers":2,"ring":4,"events":[{"id":42,"sensor":3}]}"#;

/// How many bytes the messages of a turn have at most: 16 for each buffer, event and internal event.
const ROOM: usize = 128;

/// Reports event 0.
fn report(_: usize, caller: &mut Caller)
    requires { IsReady caller.old }
    ensures { HasReported caller.old caller.new }
{
    caller.report_event(EventIndex(0));
}

/// Each caller reports, in a thread of its own.
fn report_all<R: Threads + Sync>(rt: &R, callers: &mut [Caller])
    requires { All IsReady callers.old }
    ensures { HaveReported callers.old callers.new }
{
    thread::for_each_mut(rt, callers, 2, &report);
}

/// What was sent, and what became of the reports.
#[derive(Drop)]
struct Outcome {
    sent: Vec<u8>,
    totals: Totals,
}

/// Has both callers report, and sends what a turn and the close make of that. Each report was taken, or lost and counted.
fn run<R: Threads + Sync + AllocGlobal>(rt: &R) -> Result<Outcome, JsonFault>
    ensures counted { IfOk result (λ outcome. outcome.totals.entries + outcome.totals.lost_events ≡ 2) }
    ensures fault { IfErr result (λ fault. fault ≡ NoMemory) }
{
    let setup = Manager::make(rt.alloc(), CONFIG)?;
    let mut manager = setup.manager;
    let mut callers = setup.callers;
    report_all(rt, &mut callers);
    let mut buffer = [0; ROOM];
    let mut sent = Vec::new(rt.alloc());
    let turn = manager.turn(1, &mut buffer);
    let Answer::Done = turn.answer else {
        unreachable!()
    };
    sent.extend_from_slice(&buffer[..turn.told.bytes as usize])?;
    let closed = manager.close(&mut callers, 2, &mut buffer);
    let Answer::Done = closed.answer else {
        unreachable!()
    };
    sent.extend_from_slice(&buffer[..closed.told.bytes as usize])?;
    Ok(Outcome {
        sent,
        totals: closed.totals,
    })
}

fn main(rt: HostRuntime) -> io::Result<()> {
    let Ok(outcome) = run(&rt) else {
        return Err(io::Error::from(AllocError));
    };
    println!(rt; "sent {}", hex::encode(rt.alloc(), &outcome.sent[..])?)?;
    println!(rt;
        "taken {}, lost {}",
        outcome.totals.entries, outcome.totals.lost_events
    )
}
