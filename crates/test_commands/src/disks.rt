//! Runs over a disk in memory, and how tables write them.
//!
//! Given are the words and the files of a run, and after `over` the first bytes of the two slots of a disk, in digits
//! around a `+`; all others are zero. Wanted is how the run ended, and after `then` how a `recall` of the disk that it
//! handed back ended, over the same shelf.

use crate::shelves::{shelf_of, sink_of, words_of};
use crate::telling::push_end;
use crate::written::numbers;
use ids_outside::MemoryShelf;
use idsm_run::run_keep;
use memory_disk::MemoryDisk;
use std::alloc::Global;
use std::test::Fail;

/// A disk that a table writes so, with room for 1,000 calls and 4,194,304 bytes. The call of this number fails.
pub(crate) fn disk_of(alloc: Global, written: &str, fails: &str) -> Result<MemoryDisk, Fail> {
    let (first, second) = written.split_once("+").ok_or("a plus")?;
    let mut bytes = hex::decode(alloc, first)?;
    bytes.resize(270_864, 0)?;
    bytes.extend_from_slice(&hex::decode(alloc, second)?)?;
    bytes.resize(541_728, 0)?;
    let fails = numbers(alloc, fails)?;
    Ok(MemoryDisk::make(alloc, bytes, fails, 1000, 4_194_304)?)
}

/// Runs the words over a disk, and appends how the run ended. Hands the disk back.
pub(crate) fn run_over(
    alloc: Global,
    given: &str,
    shelf: &mut MemoryShelf,
    put: &str,
    disk: MemoryDisk,
    told: &mut Vec<u8>,
) -> Result<MemoryDisk, Fail> {
    let words = words_of(alloc, given)?;
    let mut out = sink_of(alloc, put)?;
    let (status, disk) = run_keep(alloc, &words, shelf, &mut out, disk);
    push_end(told, status, shelf, &out)?;
    Ok(disk)
}

/// Appends how a run over a disk ends in which these calls fail, and then how a `recall` of the disk does.
pub(crate) fn tell_over_disk(
    alloc: Global,
    given: &str,
    fails: &str,
    told: &mut Vec<u8>,
) -> Result<(), Fail> {
    let (given, written) = given.split_once(" over ").ok_or("a disk")?;
    let (call, fails) = fails.split_once(" ").ok_or("three numbers")?;
    let (put, fails) = fails.split_once(" ").ok_or("three numbers")?;
    let mut shelf = shelf_of(alloc, given, call)?;
    let disk = disk_of(alloc, written, fails)?;
    let disk = run_over(alloc, given, &mut shelf, put, disk, told)?;
    told.extend_from_slice(b" then ")?;
    run_over(alloc, "recall d r", &mut shelf, "-", disk, told)?;
    Ok(())
}
