//! Calls of a pass and their answers, as a table of steps writes them.
//!
//! A call is `event CALLER EVENT`, `count CALLER EVENT COUNT`, `context CALLER EVENT BYTES`,
//! `report CALLER EVENT COUNT BYTES STAMP`, `state CALLER STATE` or `mode CALLER EVENT MODE`. Its context has so
//! many bytes, up to 1,025, each of which is the number of calls that the pass had made. `calls CALLER` makes none.
//! An answer tells its ticket, or the number that each of its looks showed.
ghost use Rattle.report_api.specs.Passes.{IsPassOf};
ghost use Rattle.test_reports.specs.Running.{IsSamePass};

use ids_types::{EventIndex, Mode, NoMemory, Stamp};
use report_api::{Control, Pass, Report, Shared};
use text_spec::push_field;

/// Word `i` of a step, from 0; the words stand between single spaces. Empty where there is none.
pub fn word(step: &str, i: usize) -> &str {
    step.split(" ").nth(i).unwrap_or("")
}

/// The number that word `i` is, the largest where it is none.
pub fn number(step: &str, i: usize) -> u64 {
    word(step, i).parse().unwrap_or(u64::MAX)
}

fn short(step: &str, i: usize) -> u16 {
    word(step, i).parse().unwrap_or(u16::MAX)
}

// So many of the bytes, or all of them where there are fewer.
fn first(bytes: &[u8], len: u16) -> &[u8] {
    bytes.get(..usize::from(len)).unwrap_or(bytes)
}

/// Makes a call of a pass, and tells its answer.
pub fn call(
    shared: &Shared,
    pass: &mut Pass,
    step: &str,
    told: &mut Vec<u8>,
) -> Result<(), NoMemory>
    requires { IsPassOf shared.now pass.old }
    ensures { IsSamePass shared.now pass.old pass.new }
{
    let event = EventIndex(short(step, 2));
    let count = short(step, 3);
    let bytes = [(pass.calls() % 256) as u8; 1025];
    match word(step, 0) {
        "event" => tell_report(told, &pass.report_event(shared, event)),
        "count" => tell_report(told, &pass.report_count(shared, event, count)),
        "context" => {
            let context = first(&bytes, count);
            tell_report(told, &pass.report_context(shared, event, context))
        }
        "report" => {
            let stamp = Some(Stamp(number(step, 5)));
            let context = first(&bytes, short(step, 4));
            tell_report(told, &pass.report(shared, event, count, stamp, context))
        }
        "state" => {
            let state = (number(step, 2) % 256) as u8;
            tell_control(told, &pass.state_changed(shared, state))
        }
        "mode" => {
            let mode = Mode::named(word(step, 3).as_bytes()).unwrap_or(Mode::Detailed);
            tell_control(told, &pass.set_mode(shared, event, mode))
        }
        _ => {
            tell(told, b"caller", u64::from(pass.caller()))?;
            tell(told, b" calls", pass.calls())
        }
    }
}

fn tell(told: &mut Vec<u8>, word: &[u8], number: u64) -> Result<(), NoMemory> {
    told.extend_from_slice(word)?;
    push_field(told, number)
}

fn tell_report(told: &mut Vec<u8>, report: &Report) -> Result<(), NoMemory> {
    match report {
        Report::Accepted(ticket) => tell(told, b"accepted", ticket.0),
        Report::WithoutContext(ticket, looks) => {
            tell(told, b"without", ticket.0)?;
            for i in 0..looks.len() {
                if let Some(look) = looks.get(i) {
                    push_field(told, look.claimed)?;
                }
            }
            Ok(())
        }
        Report::LostEvent(look) => tell(told, b"lost", look.claimed),
        Report::UnknownEvent => Ok(told.extend_from_slice(b"unknown event")?),
        Report::ZeroCount => Ok(told.extend_from_slice(b"zero count")?),
        Report::PassSpent => Ok(told.extend_from_slice(b"pass spent")?),
    }
}

fn tell_control(told: &mut Vec<u8>, control: &Control) -> Result<(), NoMemory> {
    match control {
        Control::Accepted(ticket) => tell(told, b"accepted", ticket.0),
        Control::LostEvent(look) => tell(told, b"lost", look.claimed),
        Control::UnknownEvent => Ok(told.extend_from_slice(b"unknown event")?),
        Control::PassSpent => Ok(told.extend_from_slice(b"pass spent")?),
    }
}
