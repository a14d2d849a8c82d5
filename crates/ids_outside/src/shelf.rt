//! The traits of whatever keeps files, and of whatever takes the text of a run.

ghost use Rattle.std.specs.Prelude.{◌≡◌, ◌≤◌, length, IfOk, IsTrue};
ghost use Rattle.ids_outside.specs.Faults.{ReadCause, WriteCause};
ghost use Rattle.ids_outside.specs.Files.{SameFiles, ReadGives, CreateMakes, AppendMakes};
ghost use Rattle.ids_outside.specs.Shelved.{Shelved};
ghost use Rattle.ids_outside.specs.Sinks.{Heard, PutTakes, PutCause};
ghost use Rattle.ids_outside.specs.declared.faults.FaultKind.TheVariants.{Create, Append};

use crate::faults::{ReadFault, WriteFault};
use std::alloc::Global;

/// Keeps files by name. Over the host a name is a path.
pub trait Shelf {
    /// What the shelf shows: whether it tells its contents, the bytes of each file by name, and its
    /// faults. Where it does not tell its contents, no clause says what a file holds.
    ghost shows: { Self → Shelved };

    /// Reads the whole file of this name, if it has at most `limit` bytes. A name that is not there
    /// is a failure.
    /// Steps: `HostShelf`: one opening, 64 KiB cleared, and at most `limit` + 1 reads of the host, of at most 64 KiB
    /// each. `MemoryShelf`, `SteadyShelf`: the name among the files (log), and the file's bytes. `MemoryShelf` also the
    /// numbers listed to fail. Memory: may answer want of memory (`ReadFault`): the bytes, and but for `SteadyShelf` a
    /// copy of the name; `HostShelf` has 64 KiB more on the stack. Waits: as its shelf; `HostShelf` for the host.
    /// By: `within`: at most `limit` bytes; read off; `cause` (`ReadCause`).
    fn read(&mut self, alloc: Global, name: &str, limit: u64) -> Result<Vec<u8>, ReadFault>
        ensures tells { (shows self.new).tells ≡ (shows self.old).tells }
        ensures same { IsTrue (shows self.old).tells →
            SameFiles (shows self.old).files (shows self.new).files }
        ensures gives { IsTrue (shows self.old).tells →
            ReadGives (shows self.old).files name.now limit result }
        ensures within { IfOk result (λ bytes. length bytes.items ≤ limit) }
        ensures cause { ReadCause (shows self.old).faults (shows self.new).faults name.now result };

    /// Makes the file of this name empty, whether it was there or not.
    /// Steps: `HostShelf`: one opening; `MemoryShelf`, `SteadyShelf`: the name among the files (log); `MemoryShelf`
    /// also the numbers listed to fail. Memory: may answer want of memory (`WriteFault`): a copy of the name; the old
    /// bytes are given back. Waits: as its shelf; `HostShelf` for the host. By: read off; `cause` (`WriteCause`).
    fn create(&mut self, name: &str) -> Result<(), WriteFault>
        ensures tells { (shows self.new).tells ≡ (shows self.old).tells }
        ensures makes { IsTrue (shows self.old).tells →
            CreateMakes (shows self.old).files (shows self.new).files name.now result }
        ensures cause { WriteCause Create (shows self.old).faults (shows self.new).faults
            name.now result };

    /// Adds the piece to the end of the file of this name, which it makes where it is not there.
    /// Steps: `HostShelf`: at most one opening, and as many writes of the host as bytes. `MemoryShelf`, `SteadyShelf`:
    /// the name among the files (log), and the bytes. `MemoryShelf` also the numbers listed to fail. Memory: may answer
    /// want of memory (`WriteFault`): a copy of the name, but for the file that `HostShelf` has open. Waits: as its
    /// shelf; `HostShelf` for the host. By: read off; `cause` (`WriteCause`).
    fn append(&mut self, name: &str, piece: &[u8]) -> Result<(), WriteFault>
        ensures tells { (shows self.new).tells ≡ (shows self.old).tells }
        ensures makes { IsTrue (shows self.old).tells →
            AppendMakes (shows self.old).files (shows self.new).files name.now piece.now result }
        ensures cause { WriteCause Append (shows self.old).faults (shows self.new).faults
            name.now result };
}

/// Takes bytes, each piece after those before it.
pub trait Sink {
    /// What the sink shows: whether it tells what it took, what it took, and which puts it missed.
    /// Where it does not tell, no clause says which bytes arrive.
    ghost hears: { Self → Heard };

    /// Takes the whole piece.
    /// Steps: `HostSink`: at most as many writes of the host as bytes; `MemorySink`: the bytes, and the numbers listed
    /// to fail. Memory: may answer want of memory (`WriteFault`). Waits: as its sink; `HostSink` for the host. By: read
    /// off; `cause` (`PutCause`).
    fn put(&mut self, piece: &[u8]) -> Result<(), WriteFault>
        ensures tells { (hears self.new).tells ≡ (hears self.old).tells }
        ensures takes { IsTrue (hears self.old).tells →
            PutTakes (hears self.old).taken (hears self.new).taken piece.now result }
        ensures cause { PutCause (hears self.old).misses (hears self.new).misses result };
}
