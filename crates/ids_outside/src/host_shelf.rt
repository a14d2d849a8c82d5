//! The shelf over the files of the host, and the sink over its standard output; with reads of a stream to its end, and
//! writes of a whole piece to one.

ghost use Rattle.std.specs.Prelude.{◌≡◌, ◌≢◌, ⊤, ℕ, List, None, Some, IfOk, OnOk, OnErr, Ok, IfSome, string_bytes, length, ◌≤◌};
ghost use Rattle.std.specs.Io.{ReadsAtMost, WritesAtMost};
ghost use Rattle.std.specs.Io.KnownBytes.{ReadConsumes, WriteAppends};
ghost use Rattle.ids_outside.specs.{no_faults, no_misses, ReadCause, WriteCause, silent, deaf, Read, Create, Append};
ghost use Rattle.ids_outside.specs.Bodies.{host_shelf_faults, host_sink_misses, open_name};
ghost use Rattle.ids_outside.specs.HostFiles.{ReadsFile, WasWritten, StreamGives, StreamTakes};
ghost use Rattle.ids_outside.specs.declared.faults.FaultKind.{FaultKind};

use crate::fault_log::{FaultLog, Missed};
use crate::faults::{FaultKind, ReadFault, WriteFault};
use crate::shelf::{Shelf, Sink};
use std::alloc::Global;
use std::fs::OpenOptions;
use std::io::{self, ErrorKind};
use std::rt::Files;

/// Opens the files of a shelf over a host. Each runtime with files does.
pub trait Opener: Files {
    /// A file as it was opened for this call of a shelf, by this name: nothing was read from it or written to it
    /// since. A runtime does not tell which files these are, so a clause that names them is shown for any choice.
    ghost is_opened: { FaultKind → List ℕ → Self.File → Type 0 };

    /// Opens the file of this name to be read, to be made empty, or to be appended to.
    fn open_for(&self, call: FaultKind, name: &str) -> io::Result<Self::File>
        ensures { IfOk result (is_opened call name.now) };
}

impl<R: Files> Opener for R {
    ghost is_opened = { λ _ _ _. ⊤ };

    fn open_for(&self, call: FaultKind, name: &str) -> io::Result<R::File> {
        let mut how = OpenOptions::new();
        match call {
            FaultKind::Read => how.read(true),
            FaultKind::Create => how.write(true).create(true).truncate(true),
            FaultKind::Append => how.append(true).create(true),
        };
        how.open(self, name)
    }
}

/// A file that is open to be written to.
#[derive(Drop)]
struct OpenFile<F> {
    name: String,
    file: F,
}

/// The host's files, by path. It tells nothing of what they hold.
///
/// The file that was created or appended to last stays open until another one is, or a write to it
/// fails. So appends to one file open it once. An interrupted call of the host is made again.
#[derive(Drop)]
pub struct HostShelf<R: Files> {
    rt: R,
    alloc: Global,
    current: Option<OpenFile<R::File>>,
    faults: FaultLog,
}

impl<R: Opener + Drop> HostShelf<R> {
    /// Reaches the files by this runtime, and keeps the names of files in memory of `alloc`.
    pub fn new(rt: R, alloc: Global) -> HostShelf<R>
        ensures { host_shelf_faults result ≡ no_faults }
    {
        HostShelf {
            rt,
            alloc,
            current: None,
            faults: FaultLog::new(),
        }
    }

    /// Opens a file for this call, and counts a fault of it where the host fails. Copies the name first.
    fn open_file(&mut self, call: FaultKind, name: &str) -> Result<OpenFile<R::File>, WriteFault>
        ensures named { IfOk result (λ opened. string_bytes opened.name ≡ name.now) }
        ensures opened { IfOk result (λ opened. R.is_opened call name.now opened.file) }
        ensures cause { WriteCause call (host_shelf_faults self.old)
            (host_shelf_faults self.new) name.now result }
        ensures same { self.new.current ≡ self.old.current }
    {
        let copy = self.faults.served(String::from_str(self.alloc, name))?;
        match self.rt.open_for(call, name).map_err(WriteFault::from) {
            Ok(file) => Ok(OpenFile { name: copy, file }),
            Err(WriteFault::NoMemory) => {
                self.faults.refuse();
                Err(WriteFault::NoMemory)
            }
            Err(WriteFault::Failed) => {
                self.faults.note(call, copy);
                Err(WriteFault::Failed)
            }
        }
    }

    /// Takes out the file that is open, if it has this name; else closes it, and opens the file of
    /// this name to append to it.
    fn take_current(&mut self, name: &str) -> Result<OpenFile<R::File>, WriteFault>
        ensures named { IfOk result (λ opened. string_bytes opened.name ≡ name.now) }
        ensures same { IfSome self.old.current (λ opened.
            string_bytes opened.name ≡ name.now → result ≡ Ok opened) }
        ensures opened { IfOk result (λ opened.
            open_name self.old ≢ Some name.now → R.is_opened Append name.now opened.file) }
        ensures cause { WriteCause Append (host_shelf_faults self.old)
            (host_shelf_faults self.new) name.now result }
    {
        if let Some(current) = self.current.take() {
            if current.name.as_str() == name {
                return Ok(current);
            }
        }
        self.open_file(FaultKind::Append, name)
    }
}

/// Opens the file of this name and reads the whole of it.
fn read_file<R: Opener>(rt: &R, alloc: Global, name: &str, limit: u64) -> Result<Vec<u8>, ReadFault>
    ensures within { IfOk result (λ bytes. length bytes.items ≤ limit) }
    ensures whole { ReadsFile (R.is_opened Read name.now) R.File.remaining limit result }
{
    let mut file = rt.open_for(FaultKind::Read, name)?;
    read_up_to(&mut file, alloc, limit)
}

impl<R: Opener + Drop> Shelf for HostShelf<R> {
    ghost shows = { λ shelf. silent (host_shelf_faults shelf) };

    fn read(&mut self, alloc: Global, name: &str, limit: u64) -> Result<Vec<u8>, ReadFault>
        ensures within { IfOk result (λ bytes. length bytes.items ≤ limit) }
        ensures whole { ReadsFile (R.is_opened Read name.now) R.File.remaining limit result }
        ensures cause { ReadCause (host_shelf_faults self.old) (host_shelf_faults self.new) name.now result }
    {
        let copy = self.faults.served(String::from_str(alloc, name))?;
        let result = read_file(&self.rt, alloc, name, limit);
        match result {
            Err(ReadFault::Failed) => self.faults.note(FaultKind::Read, copy),
            Err(ReadFault::NoMemory) => self.faults.refuse(),
            Ok(_) | Err(ReadFault::TooLong) => {}
        }
        result
    }

    fn create(&mut self, name: &str) -> Result<(), WriteFault>
        ensures cause { WriteCause Create (host_shelf_faults self.old)
            (host_shelf_faults self.new) name.now result }
        ensures open { OnOk result (open_name self.new ≡ Some name.now) }
        ensures created { OnOk result (IfSome self.new.current (λ opened. R.is_opened Create name.now opened.file)) }
        ensures closed { OnErr result (open_name self.new ≡ None) }
    {
        self.current = None;
        let created = self.open_file(FaultKind::Create, name)?;
        self.current = Some(created);
        Ok(())
    }

    fn append(&mut self, name: &str, piece: &[u8]) -> Result<(), WriteFault>
        ensures cause { WriteCause Append (host_shelf_faults self.old)
            (host_shelf_faults self.new) name.now result }
        ensures open { OnOk result (open_name self.new ≡ Some name.now) }
        ensures whole { OnOk result (WasWritten (R.is_opened Append name.now) R.File.contents name.now piece.now
            self.old.current self.new.current) }
    {
        let mut current = self.take_current(name)?;
        let result = write_whole(&mut current.file, piece);
        match result {
            Err(WriteFault::Failed) => {
                self.faults.note(FaultKind::Append, current.name);
                return result;
            }
            Err(WriteFault::NoMemory) => self.faults.refuse(),
            Ok(()) => {}
        }
        self.current = Some(current);
        result
    }
}

/// The host's standard output. It tells nothing of what arrives there.
#[derive(Drop)]
pub struct HostSink<R> {
    rt: R,
    missed: Missed,
}

impl<R: Print + Drop> HostSink<R> {
    /// Writes by this runtime.
    pub fn new(rt: R) -> HostSink<R>
        ensures { host_sink_misses result ≡ no_misses }
    {
        HostSink {
            rt,
            missed: Missed::new(),
        }
    }
}

impl<R: Print + Drop> Sink for HostSink<R> {
    ghost hears = { λ sink. deaf (host_sink_misses sink) };

    fn put(&mut self, piece: &[u8]) -> Result<(), WriteFault> {
        let result = write_whole(&mut io::writer(&self.rt), piece);
        match result {
            Err(WriteFault::Failed) => self.missed.fail(),
            Err(WriteFault::NoMemory) => self.missed.refuse(),
            Ok(()) => {}
        }
        result
    }
}

/// The most bytes that one read asks for.
const CHUNK: usize = 65536;

/// Reads to the end, and takes at most `limit + 1` bytes to find it. A read that gives nothing is
/// the end.
fn read_up_to<I: io::Read>(from: &mut I, alloc: Global, limit: u64) -> Result<Vec<u8>, ReadFault>
    ensures within { IfOk result (λ bytes. length bytes.items ≤ limit) }
    ensures gives { IfSome (I.remaining from.old) (λ left. StreamGives left limit result) }
{
    let mut bytes = Vec::new(alloc);
    let mut chunk = [0; CHUNK];
    while bytes.len() as u64 <= limit {
        let room = (limit - bytes.len() as u64).saturating_add(1);
        let asked = room.min(CHUNK as u64) as usize;
        let count = read_part(from, &mut chunk[..asked])?;
        if count == 0 {
            return Ok(bytes);
        }
        bytes.extend_from_slice(&chunk[..count])?;
    }
    Err(ReadFault::TooLong)
}

/// Writes the whole piece. A write that takes nothing is a failure, and so is want of memory once
/// a part was written.
fn write_whole<W: io::Write>(to: &mut W, piece: &[u8]) -> Result<(), WriteFault>
    ensures { StreamTakes (W.contents to.old) (W.contents to.new) piece.now result }
{
    let mut written = 0;
    while written < piece.len() {
        match write_part(to, &piece[written..]) {
            Ok(0) => return Err(WriteFault::Failed),
            Ok(count) => written += count,
            Err(error) if written == 0 => return Err(WriteFault::from(error)),
            Err(_) => return Err(WriteFault::Failed),
        }
    }
    Ok(())
}

/// Reads a first part of what is left. An interrupted read is made again, up to 2^64 - 1 times.
/// Steps: one read, without those interrupted. Waits: as its reader. By: `bound`; read off.
pub fn read_part<I: io::Read>(from: &mut I, out: &mut [u8]) -> io::Result<usize>
    ensures bound { ReadsAtMost result out.new }
    ensures bytes { ReadConsumes (I.remaining from.old) (I.remaining from.new) result out.new }
{
    for _ in 0..u64::MAX {
        match from.read(out) {
            Err(error) if error.kind() == ErrorKind::Interrupted => {}
            answer => return answer,
        }
    }
    Err(io::Error::from(ErrorKind::Interrupted))
}

/// Writes a first part of the piece. An interrupted write is made again, up to 2^64 - 1 times.
fn write_part<W: io::Write>(to: &mut W, piece: &[u8]) -> io::Result<usize>
    ensures bound { WritesAtMost result piece.now }
    ensures bytes { WriteAppends (W.contents to.old) (W.contents to.new) result piece.now }
{
    for _ in 0..u64::MAX {
        match to.write(piece) {
            Err(error) if error.kind() == ErrorKind::Interrupted => {}
            answer => return answer,
        }
    }
    Err(io::Error::from(ErrorKind::Interrupted))
}
