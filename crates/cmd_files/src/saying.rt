//! The one text that a run puts to its sink.

ghost use Rattle.std.specs.Prelude.{◌≡◌, List, ℕ, Err, IfOk, string_bytes};
ghost use Rattle.cmd_files.specs.{Puts, Says, Tells, plain_end, plain_refusal, bad_config_text, fault_word, OnDisk, Refused};

use crate::status::*;
use crate::stop::{DiskStop, Refusal, Stop};
use ids_config::{ConfigFault, ConfigPlace};
use ids_frame::{BadMessage, FrameFault};
use ids_outside::{Sink, WriteFault};
use std::alloc::{AllocError, Global};

/// Puts the text, where it has bytes, and returns the status: the one that goes with it, or that of
/// the put's own fault.
/// Steps: one put at most. Waits: as its sink. By: `Puts`; no loop.
pub fn say<K: Sink>(text: &[u8], status: u8, out: &mut K) -> u8
    ensures { Puts text.now status result (K.hears out.old) (K.hears out.new) }
{
    if text.is_empty() {
        return status;
    }
    match out.put(text) {
        Ok(()) => status,
        Err(WriteFault::Failed) => CANNOT_WRITE,
        Err(WriteFault::NoMemory) => NO_MEMORY,
    }
}

/// Puts the text of a command that did its work, or tells why it stopped, and returns the status.
/// Steps: a line of at most the name's length and 60 bytes, and one put. Memory: may want memory for the line: status
/// 8. Waits: as its sink. By: `Tells`; no loop.
pub fn tell<K: Sink>(alloc: Global, end: Result<Vec<u8>, Stop<&str>>, out: &mut K) -> u8
    ensures { Tells (plain_end end.entry) result (K.hears out.old) (K.hears out.new) }
{
    match end {
        Ok(text) => say(&text, DONE, out),
        Err(Stop::CannotRead(name)) => {
            say_line(format!(in alloc; "cannot read {name}\n"), CANNOT_READ, out)
        }
        Err(Stop::Refused(refusal)) => tell_refusal(alloc, refusal, out),
        Err(Stop::OnDisk(stop)) => tell_disk(alloc, stop, out),
        Err(Stop::CannotWrite) => say(b"cannot write\n", CANNOT_WRITE, out),
        Err(Stop::NoMemory) => say(b"no memory\n", NO_MEMORY, out),
    }
}

/// Tells why what the input files hold does not serve.
fn tell_refusal<K: Sink>(alloc: Global, refusal: Refusal<&str>, out: &mut K) -> u8
    ensures { Tells (Err (Refused (plain_refusal refusal.entry))) result (K.hears out.old) (K.hears out.new) }
{
    match refusal {
        Refusal::TooLong(name) => {
            say_line(format!(in alloc; "too long {name}\n"), TOO_LONG, out)
        }
        Refusal::BadConfig(fault) => say_line(bad_config_line(alloc, fault), BAD_CONFIG, out),
        Refusal::BadJournal { line, number } => {
            let told = format!(in alloc; "bad journal line {line}: {number}\n");
            say_line(told, BAD_JOURNAL, out)
        }
        Refusal::BadTrace { line, number } => {
            let told = format!(in alloc; "bad trace line {line}: {number}\n");
            say_line(told, BAD_JOURNAL, out)
        }
        Refusal::BadMessages(BadMessage { at, fault }) => {
            let word = fault_word(fault);
            let told = format!(in alloc; "bad message at {at}: {word}\n");
            say_line(told, BAD_MESSAGE, out)
        }
        Refusal::BadSource(name, BadMessage { at, fault }) => {
            let word = fault_word(fault);
            let told = format!(in alloc; "bad message in {name} at {at}: {word}\n");
            say_line(told, BAD_MESSAGE, out)
        }
        Refusal::Instance(name) => {
            say_line(format!(in alloc; "instance {name}\n"), INSTANCE, out)
        }
        Refusal::EmptyKey => say(b"empty key\n", EMPTY_KEY, out),
        Refusal::Differ { at } => say_line(format!(in alloc; "differs at {at}\n"), DIFFERS, out),
        Refusal::Signed { at } => say_line(format!(in alloc; "signed at {at}\n"), SIGNED, out),
        Refusal::BadTag { at } => say_line(format!(in alloc; "bad tag at {at}\n"), BAD_TAG, out),
        Refusal::BadCounter { at } => {
            say_line(format!(in alloc; "bad counter at {at}\n"), BAD_COUNTER, out)
        }
        Refusal::TooLarge { at } => {
            say_line(format!(in alloc; "too large at {at}\n"), TOO_LARGE, out)
        }
        Refusal::BadUnit { at } => say_line(format!(in alloc; "bad unit at {at}\n"), BAD_UNIT, out),
    }
}

/// Tells why work on a disk stopped.
fn tell_disk<K: Sink>(alloc: Global, stop: DiskStop, out: &mut K) -> u8
    ensures { Tells (Err (OnDisk stop)) result (K.hears out.old) (K.hears out.new) }
{
    match stop {
        DiskStop::Failed => say(b"disk failed\n", DISK_FAILED, out),
        DiskStop::FailedAfter { saves } => {
            say_line(
                format!(in alloc; "disk failed after {saves}\n"),
                DISK_FAILED,
                out,
            )
        }
        DiskStop::Damaged { slot } => {
            say_line(format!(in alloc; "bad disk: slot {slot}\n"), BAD_DISK, out)
        }
        DiskStop::WornAfter { saves } => {
            say_line(format!(in alloc; "worn after {saves}\n"), WORN, out)
        }
    }
}

/// Puts a line that wanted memory, or tells that there was none.
fn say_line<K: Sink>(line: Result<String, AllocError>, status: u8, out: &mut K) -> u8
    ensures { (text : List ℕ) → IfOk line (λ l. string_bytes l ≡ text) →
        Says text status result (K.hears out.old) (K.hears out.new) }
{
    match line {
        Ok(line) => say(line.as_bytes(), status, out),
        Err(_) => say(b"no memory\n", NO_MEMORY, out),
    }
}

fn bad_config_line(alloc: Global, fault: ConfigFault) -> Result<String, AllocError>
    ensures { IfOk result (λ text. string_bytes text ≡ bad_config_text fault) }
{
    let number = fault.number;
    match fault.place {
        ConfigPlace::Top => format!(in alloc; "bad config {number} at top\n"),
        ConfigPlace::Class(index) => format!(in alloc; "bad config {number} at class {index}\n"),
        ConfigPlace::Event(index) => format!(in alloc; "bad config {number} at event {index}\n"),
    }
}

/// The word for a fault of a message.
fn fault_word(fault: FrameFault) -> &'static str
    ensures { result.now ≡ fault_word fault }
{
    match fault {
        FrameFault::Short => "short",
        FrameFault::UnknownVersion => "version",
        FrameFault::UnknownPart => "part",
    }
}
