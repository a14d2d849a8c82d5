//! A host of one file and of standard output, which notes each call, gives and takes a few bytes at a time, and fails or
//! interrupts the call of one number.
ghost use Rattle.std.specs.Prelude.{◌≡◌, ◌≤◌, length, IfOk};

use std::alloc::{Allocator, Global};
use std::cell::{RefCell, RefMut};
use std::fmt::{Display, Write as _};
use std::fs::{Metadata, OpenFile, OpenOptions};
use std::io::{self, ErrorKind, Read, Seek, SeekFrom, Write};
use std::rc::Rc;
use std::rt::Files;

/// What the host has, and what it was called for.
#[derive(Drop)]
pub struct Noted {
    /// The bytes of the file, or of standard output.
    pub bytes: Vec<u8>,
    /// A word for each call. `r`, `a`, `c`, `d` or `m` opens the file of the name behind it to read, to append, to create,
    /// as a disk, or to make one. `@N` seeks, `R` reads, `W` writes, `S` syncs.
    pub notes: String,
    /// How many calls were made, and how many of them were reads and writes.
    pub calls: u64,
    pub moves: u64,
    fault: Fault,
    /// The most bytes that a call gives or takes.
    most: usize,
    /// Why the file cannot be opened as a disk.
    no_disk: ErrorKind,
}

/// What befalls the host's calls.
#[derive(Clone, Copy, PartialEq)]
pub enum Fault {
    Nothing,
    /// The call of this number fails, from 0.
    Call(u64),
    /// The read or write of this number is interrupted, from 0.
    Interrupt(u64),
}

impl Noted {
    pub fn new(
        alloc: Global,
        bytes: Vec<u8>,
        no_disk: ErrorKind,
        fault: Fault,
        most: usize,
    ) -> Noted {
        Noted {
            bytes,
            notes: String::new(alloc),
            calls: 0,
            moves: 0,
            fault,
            most,
            no_disk,
        }
    }

    /// Notes a call, and fails where it has the number.
    fn note<D: Display + Drop>(&mut self, call: D) -> io::Result<()> {
        let fails = self.fault == Fault::Call(self.calls);
        self.calls = self.calls.saturating_add(1);
        if write!(self.notes, "{call}").is_err() || fails {
            return refused();
        }
        Ok(())
    }

    /// Notes a read or a write, and interrupts it where it has the number.
    fn note_move(&mut self, call: &str) -> io::Result<()> {
        let is_interrupted = self.fault == Fault::Interrupt(self.moves);
        self.moves = self.moves.saturating_add(1);
        self.note(call)?;
        if is_interrupted {
            return Err(io::Error::from(ErrorKind::Interrupted));
        }
        Ok(())
    }

    /// Puts a first part of the piece at a place, and answers its length.
    fn put(&mut self, at: usize, piece: &[u8]) -> io::Result<usize>
        ensures { IfOk result (λ count. count ≤ length piece.now) }
    {
        self.note_move("W ")?;
        let count = piece.len().min(self.most);
        let end = at.saturating_add(count);
        if self.bytes.len() < end {
            self.bytes.resize(end, 0)?;
        }
        if at <= self.bytes.len() && count <= self.bytes.len() - at {
            self.bytes[at..at + count].copy_from_slice(&piece[..count]);
        }
        Ok(count)
    }
}

/// A runtime, or the file that it opened, with its place.
#[derive(Drop)]
pub struct Host {
    noted: Rc<RefCell<Noted>>,
    at: usize,
    appends: bool,
    writes: bool,
}

fn refused<T>() -> io::Result<T> {
    Err(io::Error::from(ErrorKind::Unsupported))
}

impl Host {
    /// What is written to it itself, as to standard output, goes after all bytes.
    pub fn of(noted: Rc<RefCell<Noted>>) -> Host {
        Host {
            noted,
            at: 0,
            appends: true,
            writes: true,
        }
    }

    fn noted(&self) -> io::Result<RefMut<'_, Noted>> {
        match self.noted.try_borrow_mut() {
            Ok(noted) => Ok(noted),
            Err(_) => refused(),
        }
    }

    /// Notes how the file is opened, and empties it where that is asked.
    fn note_open(&self, how: &OpenOptions, path: &str) -> io::Result<()> {
        let word = match (how.asks_read(), how.asks_write(), how.asks_append()) {
            (true, false, false) => "r",
            (false, true, false) => "c",
            (false, false, true) => "a",
            _ if how.asks_create() => "m",
            _ => "d",
        };
        let mut noted = self.noted()?;
        noted.note(format_args!("{word}:{path} "))?;
        if how.asks_truncate() {
            noted.bytes.clear();
        }
        if word == "d" {
            return Err(io::Error::from(noted.no_disk));
        }
        Ok(())
    }

    /// Reads a first part of what is left at the place.
    fn get(&self, buf: &mut [u8]) -> io::Result<usize>
        ensures { IfOk result (λ count. count ≤ length buf.old) }
    {
        let mut noted = self.noted()?;
        noted.note_move("R ")?;
        let left = noted.bytes.get(self.at..).unwrap_or(&[]);
        let count = left.len().min(buf.len()).min(noted.most);
        buf[..count].copy_from_slice(&left[..count]);
        Ok(count)
    }

    /// Puts a first part of the piece at the place, or after all bytes.
    fn put(&self, piece: &[u8]) -> io::Result<usize>
        ensures { IfOk result (λ count. count ≤ length piece.now) }
    {
        if !self.writes {
            return Err(io::Error::from(ErrorKind::Unsupported));
        }
        let mut noted = self.noted()?;
        let at = if self.appends {
            noted.bytes.len()
        } else {
            self.at
        };
        noted.put(at, piece)
    }
}

impl Read for Host {
    fn read(&mut self, buf: &mut [u8]) -> io::Result<usize> {
        let count = self.get(buf)?;
        self.at = self.at.saturating_add(count);
        Ok(count)
    }
}

impl Write for Host {
    fn write(&mut self, buf: &[u8]) -> io::Result<usize> {
        let count = self.put(buf)?;
        self.at = self.at.saturating_add(count);
        Ok(count)
    }

    fn flush(&mut self) -> io::Result<()> {
        Ok(())
    }
}

impl Seek for Host {
    fn seek(&mut self, to: SeekFrom) -> io::Result<u64> {
        let SeekFrom::Start(at) = to else {
            return refused();
        };
        self.noted()?.note(format_args!("@{at} "))?;
        self.at = at as usize;
        Ok(at)
    }
}

impl OpenFile for Host {
    fn metadata(&self) -> io::Result<Metadata> {
        refused()
    }

    fn set_len(&self, _size: u64) -> io::Result<()> {
        refused()
    }

    fn sync_all(&self) -> io::Result<()> {
        self.noted()?.note("S ")
    }

    fn sync_data(&self) -> io::Result<()> {
        refused()
    }
}

impl Files for Host {
    type File = Host;

    type Dir = Host;

    fn open_file(&self, how: &OpenOptions, path: &str) -> io::Result<Host> {
        how.check()?;
        self.note_open(how, path)?;
        let Ok(noted) = self.noted.clone() else {
            return refused();
        };
        Ok(Host {
            noted,
            at: 0,
            appends: how.asks_append(),
            writes: how.asks_write() || how.asks_append(),
        })
    }

    fn open_dir(&self, _path: &str) -> io::Result<Host> {
        refused()
    }

    fn metadata(&self, _path: &str) -> io::Result<Metadata> {
        refused()
    }

    fn symlink_metadata(&self, _path: &str) -> io::Result<Metadata> {
        refused()
    }

    fn copy(&self, _from: &str, _to: &str) -> io::Result<u64> {
        refused()
    }

    fn rename(&self, _from: &str, _to: &str) -> io::Result<()> {
        refused()
    }

    fn remove_file(&self, _path: &str) -> io::Result<()> {
        refused()
    }

    fn create_dir(&self, _path: &str) -> io::Result<()> {
        refused()
    }

    fn remove_dir(&self, _path: &str) -> io::Result<()> {
        refused()
    }

    fn remove_dir_all<B: Allocator>(&self, _alloc: B, _path: &str) -> io::Result<()> {
        refused()
    }
}

impl Print for Host {
    fn print<D: Display + Drop>(&self, _value: D) -> io::Result<()> {
        refused()
    }

    fn println<D: Display + Drop>(&self, _value: D) -> io::Result<()> {
        refused()
    }

    fn write_all(&self, _bytes: &[u8]) -> io::Result<()> {
        refused()
    }

    fn write_some(&self, bytes: &[u8]) -> io::Result<usize> {
        self.put(bytes)
    }
}
