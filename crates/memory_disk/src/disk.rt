//! The trait of a disk: reads, writes and syncs that may fail.

ghost use Rattle.std.specs.Prelude.{◌≡◌, ◌+◌, ◌≤◌, length, IsTrue};
ghost use Rattle.memory_disk.specs.Disks.{HasCause, Reads, Shown, Syncs, Writes};

/// A call of a disk failed.
#[derive(Clone, Copy, Debug, PartialEq, Eq)]
pub struct DiskFailed;

/// A range of a disk: `count` bytes from `at` on.
#[derive(Clone, Copy, Debug, PartialEq, Eq)]
pub struct Span {
    pub at: u32,
    pub count: u32,
}

/// A disk of 541,728 bytes. A crash leaves each byte that was written since the last successful sync with any
/// value, and every other byte as it is.
pub trait Disk {
    /// What the disk shows: whether it tells what it holds, its states so far, and how many calls failed. Where
    /// it does not tell, no clause says what it holds.
    ghost shows: { Self → Shown };

    /// Reads as many bytes as `out` has. Where it fails, `out` holds any bytes.
    /// Steps: the bytes of `out`. Memory: none; `HostDisk`: the host's own. Waits: `HostDisk`: as the host's file.
    /// By: `reads`; read off.
    fn read(&mut self, at: u32, out: &mut [u8]) -> Result<(), DiskFailed>
        requires { at + length out.old ≤ 541728 }
        ensures tells { (shows self.new).tells ≡ (shows self.old).tells }
        ensures reads { IsTrue (shows self.old).tells → Reads (shows self.old).run (shows self.new).run at out.new result }
        ensures cause { HasCause (shows self.old).faults (shows self.new).faults result };

    /// Writes the piece. Until the next sync that succeeds, its range counts as written, also where it failed.
    /// Steps: the bytes of the piece. Memory: none, in `MemoryDisk` the room of `make`. Waits: `HostDisk`: as the
    /// host's file. By: `writes`; read off.
    fn write(&mut self, at: u32, piece: &[u8]) -> Result<(), DiskFailed>
        requires { at + length piece.now ≤ 541728 }
        ensures tells { (shows self.new).tells ≡ (shows self.old).tells }
        ensures writes { IsTrue (shows self.old).tells → Writes (shows self.old).run (shows self.new).run at piece.now result }
        ensures cause { HasCause (shows self.old).faults (shows self.new).faults result };

    /// Brings all that was written to where a crash leaves it.
    /// Steps: `MemoryDisk`: constant. Waits: `HostDisk`: as the host's file. By: `syncs`; read off.
    fn sync(&mut self) -> Result<(), DiskFailed>
        ensures tells { (shows self.new).tells ≡ (shows self.old).tells }
        ensures syncs { IsTrue (shows self.old).tells → Syncs (shows self.old).run (shows self.new).run result }
        ensures cause { HasCause (shows self.old).faults (shows self.new).faults result };
}
