//! Files in memory by name, and a shelf of them, whose calls can be made to fail.

ghost use Rattle.std.specs.Prelude.{◌≡◌, ◌≤◌, length, option_map, Some, string_bytes, IfOk, OnOk, OnErr, IsTrue};
ghost use Rattle.ids_outside.specs.{no_faults, ReadCause, WriteCause, SameFiles, ReadGives, CreateMakes, AppendMakes, Changes, Adds, given_files, files_in, names_differ, Create, Append, CountsCall, ReadFollows, WriteFollows, telling};
ghost use Rattle.ids_outside.specs.Bodies.{shelf_files, shelf_faults, shelf_plan};

use crate::fault_log::{FaultLog, Script};
use crate::faults::{FaultKind, ReadFault, WriteFault};
use crate::shelf::Shelf;
use ids_types::NoMemory;
use std::alloc::{AllocError, Global};
use std::collections::BTreeMap;

/// Files by name.
pub(crate) type Kept = BTreeMap<String, Vec<u8>>;

/// Keeps all these files, by name. Of those of one name the last one stays.
pub(crate) fn keep_all(alloc: Global, files: Vec<(String, Vec<u8>)>) -> Result<Kept, AllocError>
    ensures { IfOk result (λ kept. SameFiles (given_files files.items) (files_in kept)) }
{
    let mut kept = BTreeMap::new(alloc);
    for (name, bytes) in files {
        keep(&mut kept, name, bytes)?;
    }
    Ok(kept)
}

/// Keeps these bytes as the file of this name.
pub(crate) fn keep(files: &mut Kept, name: String, bytes: Vec<u8>) -> Result<(), AllocError>
    ensures ok { OnOk result (Changes (files_in files.old) (files_in files.new)
        (string_bytes name) (Some bytes.items)) }
    ensures err { OnErr result (SameFiles (files_in files.old) (files_in files.new)) }
{
    files.insert(name, bytes)?;
    Ok(())
}

/// Adds the piece to the file of this name, under `key`, a copy of the name, where it is not there.
pub(crate) fn add_piece(
    alloc: Global,
    files: &mut Kept,
    name: &str,
    key: String,
    piece: &[u8],
) -> Result<(), AllocError>
    requires { string_bytes key ≡ name.now }
    ensures { Adds (files_in files.old) (files_in files.new) name.now piece.now result }
{
    if let Some(bytes) = files.get_mut(name) {
        return bytes.extend_from_slice(piece);
    }
    keep(files, key, piece.to_vec(alloc)?)
}

/// A shelf that keeps its files in memory, for tests. The calls whose numbers are listed fail.
#[derive(Debug, Drop)]
pub struct MemoryShelf {
    alloc: Global,
    files: Kept,
    script: Script,
    faults: FaultLog,
}

impl MemoryShelf {
    /// A shelf of these files, no two of one name. Its calls of `read`, `create` and `append` are
    /// numbered from 0, and those in `fails` fail.
    /// Steps: each file's name among those before: files × log. Memory: may answer want of memory; its files grow
    /// later. By: read off.
    pub fn make(
        alloc: Global,
        files: Vec<(String, Vec<u8>)>,
        fails: Vec<u64>,
    ) -> Result<MemoryShelf, NoMemory>
        requires { IsTrue (names_differ files.items) }
        ensures files { IfOk result (λ shelf.
            SameFiles (given_files files.items) (shelf_files shelf)) }
        ensures plan { IfOk result (λ shelf.
            shelf_plan shelf ≡ record { fails = fails.items; calls = 0 }) }
        ensures faults { IfOk result (λ shelf. shelf_faults shelf ≡ no_faults) }
    {
        Ok(MemoryShelf {
            alloc,
            files: keep_all(alloc, files)?,
            script: Script { fails, calls: 0 },
            faults: FaultLog::new(),
        })
    }

    /// The bytes of the file of this name, `None` exactly where it is not there. Counts as no call.
    /// Steps: the name among the files: log. By: read off.
    pub fn contents(&self, name: &str) -> Option<&[u8]>
        ensures { option_map (λ bytes. bytes.now) result ≡ shelf_files self.now name.now }
    {
        self.files.get(name).map(|bytes| bytes.as_slice())
    }

    /// How many calls have failed, up to 2^64 - 1.
    pub fn fault_count(&self) -> u64
        ensures { result ≡ (shelf_faults self.now).count }
    {
        self.faults.count
    }

    /// Which call failed last, and the name that it was given.
    pub fn last_fault(&self) -> Option<(FaultKind, &str)>
        ensures { option_map (λ p. record { kind = p.0; name = p.1.now }) result
            ≡ (shelf_faults self.now).last }
    {
        match &self.faults.last {
            Some((kind, name)) => Some((*kind, name.as_str())),
            None => None,
        }
    }
}

impl Shelf for MemoryShelf {
    ghost shows = { λ shelf. telling (shelf_files shelf) (shelf_faults shelf) };

    /// A read that is not listed fails only where the name is not there.
    fn read(&mut self, alloc: Global, name: &str, limit: u64) -> Result<Vec<u8>, ReadFault>
        ensures same { SameFiles (shelf_files self.old) (shelf_files self.new) }
        ensures gives { ReadGives (shelf_files self.old) name.now limit result }
        ensures within { IfOk result (λ bytes. length bytes.items ≤ limit) }
        ensures cause { ReadCause (shelf_faults self.old) (shelf_faults self.new) name.now result }
        ensures follows { ReadFollows (shelf_plan self.old) (shelf_files self.old name.now) result }
        ensures counts { CountsCall (shelf_plan self.old) (shelf_plan self.new) }
    {
        let is_to_fail = self.script.next_fails();
        let copy = self.faults.served(String::from_str(alloc, name))?;
        if !is_to_fail && let Some(bytes) = self.files.get(name) {
            if bytes.len() as u64 > limit {
                return Err(ReadFault::TooLong);
            }
            return Ok(self.faults.served(bytes.as_slice().to_vec(alloc))?);
        }
        self.faults.note(FaultKind::Read, copy);
        Err(ReadFault::Failed)
    }

    /// A creation that fails changes no file.
    fn create(&mut self, name: &str) -> Result<(), WriteFault>
        ensures makes { CreateMakes (shelf_files self.old) (shelf_files self.new) name.now result }
        ensures cause { WriteCause Create (shelf_faults self.old)
            (shelf_faults self.new) name.now result }
        ensures err { OnErr result (SameFiles (shelf_files self.old) (shelf_files self.new)) }
        ensures follows { WriteFollows (shelf_plan self.old) result }
        ensures counts { CountsCall (shelf_plan self.old) (shelf_plan self.new) }
    {
        let is_to_fail = self.script.next_fails();
        let copy = self.faults.served(String::from_str(self.alloc, name))?;
        if is_to_fail {
            self.faults.note(FaultKind::Create, copy);
            return Err(WriteFault::Failed);
        }
        let kept = keep(&mut self.files, copy, Vec::new(self.alloc));
        Ok(self.faults.served(kept)?)
    }

    /// An append that fails changes no file.
    fn append(&mut self, name: &str, piece: &[u8]) -> Result<(), WriteFault>
        ensures makes { AppendMakes (shelf_files self.old)
            (shelf_files self.new) name.now piece.now result }
        ensures cause { WriteCause Append (shelf_faults self.old)
            (shelf_faults self.new) name.now result }
        ensures err { OnErr result (SameFiles (shelf_files self.old) (shelf_files self.new)) }
        ensures follows { WriteFollows (shelf_plan self.old) result }
        ensures counts { CountsCall (shelf_plan self.old) (shelf_plan self.new) }
    {
        let is_to_fail = self.script.next_fails();
        let copy = self.faults.served(String::from_str(self.alloc, name))?;
        if is_to_fail {
            self.faults.note(FaultKind::Append, copy);
            return Err(WriteFault::Failed);
        }
        let added = add_piece(self.alloc, &mut self.files, name, copy, piece);
        Ok(self.faults.served(added)?)
    }
}
