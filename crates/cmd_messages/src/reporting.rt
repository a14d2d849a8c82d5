//! The command `report`: the messages of several managers, in one file.

ghost use Rattle.std.specs.Prelude.{◌≡◌, ◌≤◌};
ghost use Rattle.cmd_steps.specs.Words.{BadSource, CanReport, EndsAs, IfOk, IsTrue, Judges, Reads, [], clashes, false, finished_end, is_of, length, list_any, map, messages_read, report as report_command, report_files_of, report_text, if_found, seen_as, source_in, sources_in, string_bytes, sum_by};
ghost use Rattle.ids_reporter.specs.Sources.{AreApart, AreSmall, instance_of};
ghost use Rattle.cmd_messages.specs.Reported.{Reported as HasReported};

use cmd_files::{MAX_SOURCE_BYTES, NewFile, Refusal, Stop, read_file};
use cmd_steps::{Finished, write_work};
use cmd_words::ReportNames;
use ids_outside::Shelf;
use ids_reporter::{Drain, Instance, OpenFeed, Source, SourceFault, forward};
use std::alloc::{AllocError, Global};
use std::sync::Wait;
use std::thread::Threads;

/// Forwards the messages of all files into one, and returns the line that counts them, with the drain that took them.
/// All memory is taken before the file is made.
pub(crate) fn report_files<'a, R: Threads + Wait + Sync, H: Shelf>(
    rt: &R,
    alloc: Global,
    names: ReportNames<'a>,
    shelf: &mut H,
) -> Result<Finished<Drain>, Stop<&'a str>>
    requires { CanReport names }
    ensures ends { EndsAs (report_command (report_files_of names.entry)) (finished_end result)
        (H.shows shelf.old) (H.shows shelf.new) }
    ensures reported { IsTrue (H.shows shelf.old).tells → IfOk result (λ f. HasReported (report_files_of names.entry)
        f.made f.line.items (H.shows shelf.old).files (H.shows shelf.new).files) }
{
    let sources = read_sources(alloc, names, shelf)?;
    let forwarded = forward(rt, alloc, &sources, &OpenFeed)?;
    let line = report_line(alloc, &sources)?;
    let file = NewFile {
        name: names.target,
        bytes: &forwarded.out,
        cuts: &[],
    };
    let line = write_work(&[file], line, shelf)?;
    Ok(Finished {
        line,
        made: forwarded.drain,
    })
}

/// Reads the sources, one after the other; each is judged before the next is read.
fn read_sources<'a, H: Shelf>(
    alloc: Global,
    names: ReportNames<'a>,
    shelf: &mut H,
) -> Result<Vec<Source>, Stop<&'a str>>
    requires { CanReport names }
    ensures reads { Reads (sources_in [] (map string_bytes names.entry.sources.now)) (seen_as (λ sources. sources.items) result)
        (H.shows shelf.old) (H.shows shelf.new) }
    ensures count { IfOk result (λ sources. length sources.items ≡ length names.entry.sources.now) }
    ensures small { IfOk result (λ sources. AreSmall sources.items) }
    ensures apart { IfOk result (λ sources. AreApart sources.items) }
{
    let mut sources = Vec::with_capacity(alloc, names.sources.len())?;
    for name in names.sources {
        let source = read_source(alloc, name.as_str(), &sources, shelf)?;
        sources.push_reserved(source);
    }
    Ok(sources)
}

/// Reads the messages of one manager. They may not be those of a source before.
fn read_source<'a, H: Shelf>(
    alloc: Global,
    name: &'a str,
    sources: &[Source],
    shelf: &mut H,
) -> Result<Source, Stop<&'a str>>
    ensures reads { Reads (source_in sources.now name.now) (seen_as (λ source. source) result)
        (H.shows shelf.old) (H.shows shelf.new) }
    ensures small { IfOk result (λ source. length source ≤ 8388608) }
    ensures fits { IfOk result (λ source. clashes sources.now (instance_of source) ≡ false) }
{
    let bytes = read_file(alloc, name, MAX_SOURCE_BYTES, shelf)?;
    let source = source_of(alloc, name, bytes)?;
    if clashes(sources, source.instance()) {
        return Err(Stop::Refused(Refusal::Instance(name)));
    }
    Ok(source)
}

/// The messages of the file of this name.
fn source_of<'a>(alloc: Global, name: &'a str, bytes: Vec<u8>) -> Result<Source, Stop<&'a str>>
    ensures judges { Judges (if_found (BadSource name.now) (messages_read bytes.items)) (seen_as (λ source. source) result) }
    ensures few { IfOk result (λ source. length source ≤ length bytes.items) }
{
    match Source::read(alloc, bytes) {
        Ok(source) => Ok(source),
        Err(SourceFault::Bad(bad)) => Err(Stop::Refused(Refusal::BadSource(name, bad))),
        Err(SourceFault::NoMemory) => Err(Stop::NoMemory),
    }
}

/// Whether messages of these managers cannot stand beside the sources.
fn clashes(sources: &[Source], managers: Instance) -> bool
    ensures { result ≡ clashes sources.now managers }
{
    match managers {
        Instance::Empty => false,
        Instance::One(instance) => is_there(sources, instance),
        Instance::Mixed => true,
    }
}

/// Whether a source has messages of this instance.
fn is_there(sources: &[Source], instance: u16) -> bool
    ensures { result ≡ list_any (λ source. is_of instance (instance_of source)) sources.now }
{
    sources
        .iter()
        .any(|source| is_of(instance, source.instance()))
}

fn is_of(instance: u16, managers: Instance) -> bool
    ensures { result ≡ is_of instance managers }
{
    match managers {
        Instance::One(other) => instance == other,
        Instance::Empty | Instance::Mixed => false,
    }
}

/// `sources S messages M`, and a line feed.
fn report_line(alloc: Global, sources: &[Source]) -> Result<Vec<u8>, AllocError>
    requires few { length sources.now ≤ 8 }
    requires small { AreSmall sources.now }
    ensures { IfOk result (λ text. text.items ≡ report_text sources.now) }
{
    let count = sources.len();
    let messages = messages_in(sources);
    let text = format!(in alloc; "sources {count} messages {messages}\n")?;
    Ok(text.into_bytes())
}

/// How many messages all sources have.
fn messages_in(sources: &[Source]) -> u64
    requires few { length sources.now ≤ 8 }
    requires small { AreSmall sources.now }
    ensures { result ≡ sum_by length sources.now }
{
    let mut messages = 0;
    for source in sources {
        messages += source.len();
    }
    messages
}
