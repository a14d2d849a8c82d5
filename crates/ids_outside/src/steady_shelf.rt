//! A shelf in memory that never fails.

ghost use Rattle.std.specs.Prelude.{◌≡◌, ◌≢◌, ◌≤◌, length, option_map, IfOk, Err};
ghost use Rattle.ids_outside.specs.{ReadCause, WriteCause, SameFiles, ReadGives, CreateMakes, AppendMakes, empty_elsewhere, given_files, Create, Append, telling};
ghost use Rattle.ids_outside.specs.Bodies.{steady_files, steady_faults};
ghost use Rattle.ids_outside.specs.declared.faults.ReadFault.TheVariants as read;
ghost use Rattle.ids_outside.specs.declared.faults.WriteFault.TheVariants as write;

use crate::fault_log::FaultLog;
use crate::faults::{ReadFault, WriteFault};
use crate::memory_shelf::{Kept, add_piece, keep, keep_all};
use crate::shelf::Shelf;
use ids_types::NoMemory;
use std::alloc::Global;

/// A shelf that keeps its files in memory and never fails. To a reader every name is there: one
/// that has no file is empty.
#[derive(Debug, Drop)]
pub struct SteadyShelf {
    alloc: Global,
    files: Kept,
    faults: FaultLog,
}

impl SteadyShelf {
    /// A shelf of these files. Of those of one name the last one stays.
    /// Steps: each file's name among those before: files × log. Memory: may answer want of memory; its files grow
    /// later. By: read off.
    pub fn make(alloc: Global, files: Vec<(String, Vec<u8>)>) -> Result<SteadyShelf, NoMemory>
        ensures { IfOk result (λ shelf. SameFiles (given_files files.items) (steady_files shelf)) }
    {
        Ok(SteadyShelf {
            alloc,
            files: keep_all(alloc, files)?,
            faults: FaultLog::new(),
        })
    }

    /// The bytes of the file of this name, `None` exactly where there is no such file.
    /// Steps: the name among the files: log. By: read off.
    pub fn contents(&self, name: &str) -> Option<&[u8]>
        ensures { option_map (λ bytes. bytes.now) result ≡ steady_files self.now name.now }
    {
        self.files.get(name).map(|bytes| bytes.as_slice())
    }
}

impl Shelf for SteadyShelf {
    ghost shows = { λ shelf. telling (empty_elsewhere (steady_files shelf)) (steady_faults shelf) };

    /// A name that is not there reads as empty, and stays absent.
    fn read(&mut self, alloc: Global, name: &str, limit: u64) -> Result<Vec<u8>, ReadFault>
        ensures same { SameFiles (steady_files self.old) (steady_files self.new) }
        ensures gives { ReadGives (empty_elsewhere (steady_files self.old)) name.now limit result }
        ensures within { IfOk result (λ bytes. length bytes.items ≤ limit) }
        ensures steady { result ≢ Err read.Failed }
        ensures cause { ReadCause (steady_faults self.old) (steady_faults self.new) name.now result }
    {
        let bytes = self.contents(name).unwrap_or(&[]);
        if bytes.len() as u64 > limit {
            return Err(ReadFault::TooLong);
        }
        let copy = bytes.to_vec(alloc);
        Ok(self.faults.served(copy)?)
    }

    fn create(&mut self, name: &str) -> Result<(), WriteFault>
        ensures makes { CreateMakes (steady_files self.old) (steady_files self.new) name.now result }
        ensures steady { result ≢ Err write.Failed }
        ensures cause { WriteCause Create (steady_faults self.old)
            (steady_faults self.new) name.now result }
    {
        let copy = self.faults.served(String::from_str(self.alloc, name))?;
        let kept = keep(&mut self.files, copy, Vec::new(self.alloc));
        Ok(self.faults.served(kept)?)
    }

    fn append(&mut self, name: &str, piece: &[u8]) -> Result<(), WriteFault>
        ensures makes { AppendMakes (steady_files self.old)
            (steady_files self.new) name.now piece.now result }
        ensures steady { result ≢ Err write.Failed }
        ensures cause { WriteCause Append (steady_faults self.old)
            (steady_faults self.new) name.now result }
    {
        let copy = self.faults.served(String::from_str(self.alloc, name))?;
        let added = add_piece(self.alloc, &mut self.files, name, copy, piece);
        Ok(self.faults.served(added)?)
    }
}
