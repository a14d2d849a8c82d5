//! The disk over a file of the host.

ghost use Rattle.std.specs.Prelude.{◌≡◌, length, Some, IfOk, IfSome, IsOk, OnOk};
ghost use Rattle.memory_disk.specs.Disks.{HasCause};
ghost use Rattle.memory_disk.specs.Hosts.{host_faults, padded, silent, BroughtTo, FillsFrom, TakesAt};

use crate::disk::{Disk, DiskFailed};
use ids_outside::read_part;
use std::fs::{File, OpenFile, OpenOptions};
use std::io::{self, ErrorKind, Read, Seek, SeekFrom, Write};
use std::rt::Files;

/// A disk over a file of the host, by its path. It tells nothing of what it holds.
///
/// The first call opens the file, or makes it. A file that cannot be opened to be written to is opened to be read
/// alone, as on a read-only medium. Bytes past its end read as 0. A call that fails closes it, and the next one opens
/// it again.
#[derive(Drop)]
pub struct HostDisk<R: Files> {
    rt: R,
    name: String,
    file: Option<R::File>,
    /// The file was opened to be written to. From then on it is not opened otherwise, and a sync is needed.
    is_writable: bool,
    faults: u64,
}

impl<R: Files + Drop> HostDisk<R> {
    /// The disk in the file of this name, which is not looked at yet.
    pub fn new(rt: R, name: String) -> HostDisk<R>
        ensures { host_faults result ≡ 0 }
    {
        HostDisk {
            rt,
            name,
            file: None,
            is_writable: false,
            faults: 0,
        }
    }

    /// Keeps a file open, or counts a failure, up to 2^64 - 1.
    fn keep(&mut self, answer: io::Result<R::File>) -> Result<(), DiskFailed>
        ensures cause { HasCause (host_faults self.old) (host_faults self.new) result }
        ensures ok { OnOk result (IsOk answer) }
        ensures keeps { IfOk answer (λ file. self.new.file ≡ Some file) }
    {
        match answer {
            Ok(file) => {
                self.file = Some(file);
                Ok(())
            }
            Err(_) => {
                self.faults = self.faults.saturating_add(1);
                Err(DiskFailed)
            }
        }
    }

    /// Opens the file to be read and written, or makes it; else opens it to be read alone.
    fn open(&mut self) -> io::Result<R::File>
        ensures { host_faults self.new ≡ host_faults self.old }
    {
        let mut how = OpenOptions::new();
        let opened = match how.read(true).write(true).open(&self.rt, &self.name) {
            Err(error) if error.kind() == ErrorKind::NotFound => self.make(how),
            opened => opened,
        };
        self.is_writable |= opened.is_ok();
        match opened {
            Err(_) if !self.is_writable => File::open(&self.rt, &self.name),
            opened => opened,
        }
    }

    /// Makes the file, and syncs the folder of its name, so that a power failure leaves the name.
    fn make(&self, mut how: OpenOptions) -> io::Result<R::File> {
        let file = how.create(true).open(&self.rt, &self.name)?;
        File::open(&self.rt, folder_of(self.name.as_str()))?.sync_all()?;
        Ok(file)
    }

    /// Takes the file out that is open, else opens it, and goes to this place.
    fn open_at(&mut self, at: u32) -> io::Result<R::File>
        ensures faults { host_faults self.new ≡ host_faults self.old }
        ensures there { IfOk result (λ file. BroughtTo R.File.stream_position at file) }
    {
        let mut file = match self.file.take() {
            Some(file) => file,
            None => self.open()?,
        };
        file.seek(SeekFrom::Start(u64::from(at)))?;
        Ok(file)
    }

    /// Reads from this place on, and gives the file back.
    fn read_at(&mut self, at: u32, out: &mut [u8]) -> io::Result<R::File>
        ensures faults { host_faults self.new ≡ host_faults self.old }
        ensures fills { OnOk result (FillsFrom R.File.stream_position R.File.remaining at out.new) }
    {
        let mut file = self.open_at(at)?;
        fill(&mut file, out)?;
        Ok(file)
    }

    /// Writes the whole piece from this place on, and gives the file back.
    fn write_at(&mut self, at: u32, piece: &[u8]) -> io::Result<R::File>
        ensures faults { host_faults self.new ≡ host_faults self.old }
        ensures takes { IfOk result (TakesAt R.File.stream_position R.File.contents at piece.now) }
    {
        let mut file = self.open_at(at)?;
        file.write_all(piece)?;
        Ok(file)
    }

    /// Syncs all that was written, and gives the file back. To a file that is read alone nothing was.
    fn sync_file(&mut self) -> io::Result<R::File>
        ensures { host_faults self.new ≡ host_faults self.old }
    {
        let file = self.open_at(0)?;
        if self.is_writable {
            file.sync_all()?;
        }
        Ok(file)
    }
}

impl<R: Files + Drop> Disk for HostDisk<R> {
    ghost shows = { λ disk. silent (host_faults disk) };

    fn read(&mut self, at: u32, out: &mut [u8]) -> Result<(), DiskFailed>
        ensures cause { HasCause (host_faults self.old) (host_faults self.new) result }
        ensures fills { OnOk result (FillsFrom R.File.stream_position R.File.remaining at out.new) }
    {
        let file = self.read_at(at, out);
        self.keep(file)
    }

    fn write(&mut self, at: u32, piece: &[u8]) -> Result<(), DiskFailed>
        ensures cause { HasCause (host_faults self.old) (host_faults self.new) result }
        ensures takes { OnOk result (IfSome self.new.file
            (TakesAt R.File.stream_position R.File.contents at piece.now)) }
    {
        let file = self.write_at(at, piece);
        self.keep(file)
    }

    fn sync(&mut self) -> Result<(), DiskFailed> {
        let file = self.sync_file();
        self.keep(file)
    }
}

/// The folder that a file of this name is in.
fn folder_of(name: &str) -> &str {
    match name.rsplit_once('/') {
        Some(("", _)) => "/",
        Some((folder, _)) => folder,
        None => ".",
    }
}

/// Reads until `out` is full. What lies past the end reads as 0.
fn fill<I: Read>(from: &mut I, out: &mut [u8]) -> io::Result<()>
    ensures { OnOk result (IfSome (I.remaining from.old) (λ left. out.new ≡ padded (length out.old) left)) }
{
    let mut filled = 0;
    while filled < out.len() {
        let count = read_part(from, &mut out[filled..])?;
        if count == 0 {
            out[filled..].fill(0);
            return Ok(());
        }
        filled += count;
    }
    Ok(())
}
