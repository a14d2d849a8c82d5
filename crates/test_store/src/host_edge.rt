//! The host's disk, its shelf and its standard output, over a host that notes their calls. Each byte is handed on
//! once and in order, each write of a save is synced before the next, an interrupted read or write is made again, and
//! each call that fails is a fault.

ghost use Rattle.std.specs.Prelude.{IfOk, reverse};
ghost use Rattle.memory_image.specs.Images.{AreKeepable};

use crate::host_calls::{Fault, Host, Noted};
use event_memory::Memory;
use ids_outside::{HostShelf, HostSink, Shelf, Sink};
use memory_disk::HostDisk;
use memory_image::restore;
use memory_store::{BeginFault, SaveFault, Store};
use std::alloc::Global;
use std::cell::RefCell;
use std::io::ErrorKind;
use std::rc::Rc;
use std::test::*;

/// Two records, `S 0 42 3 2 5 6 - -` and `S 1 7 0 2 9 9 8000000100000a00 a1b2`, as the 70 bytes of an image.
const IMAGE: &str =
    "0000002a0300020000000000000005000000000000000600000000000000000000000001000700000200000000000000090000000000000009018000000100000a000002a1b2";

/// The gate, the sequence and the length of the first save of them.
const FIRST_HEAD: [u8; 13] = [1, 0, 0, 0, 0, 0, 0, 0, 1, 0, 0, 0, 70];

/// What is run over a host.
#[derive(Clone, Copy)]
enum Edge {
    /// A save on a disk that is not there.
    Disk,
    /// A look at a disk that cannot be written to.
    Recall,
    Shelf,
    Sink,
}

/// A memory of the two records.
fn memory(alloc: Global) -> Result<Memory, Fail>
    ensures { IfOk result (λ memory. AreKeepable (reverse memory.rows)) }
{
    let mut memory = Memory::make(alloc, 256)?;
    if !restore(&mut memory, &hex::decode(alloc, IMAGE)?) {
        return Err("an image".into());
    }
    Ok(memory)
}

/// Begins the disk of a host, and answers it with how many records it keeps.
fn begun(alloc: Global, host: Host) -> Result<Option<(Store<HostDisk<Host>>, u16)>, Fail> {
    let disk = HostDisk::new(host, String::from_str(alloc, "k/d")?);
    match Store::begin(alloc, disk) {
        Ok((store, records)) => Ok(Some((store, records.len()))),
        Err(
            BeginFault::Failed(_)
            | BeginFault::NoMemory(_)
            | BeginFault::Damaged { slot: _, disk: _ },
        ) => Ok(None),
    }
}

/// Begins a disk that keeps nothing, and saves the records.
fn saves(alloc: Global, host: Host) -> Result<bool, Fail> {
    let memory = memory(alloc)?;
    let (store, _) = match begun(alloc, host)? {
        Some(begun) => begun,
        None => return Ok(false),
    };
    match store.save(&memory) {
        Ok(store) => {
            store.finish();
            Ok(true)
        }
        Err(SaveFault::Failed(_)) => Ok(false),
        Err(SaveFault::Worn(store)) => {
            store.finish();
            Ok(false)
        }
    }
}

/// Begins a disk that keeps the records.
fn recalls(alloc: Global, host: Host) -> Result<bool, Fail> {
    match begun(alloc, host)? {
        Some((store, count)) => {
            store.finish();
            Ok(count == 2)
        }
        None => Ok(false),
    }
}

/// Whether the bytes of a disk hold a first save of the records in the first slot, and zeros elsewhere.
fn holds_first(alloc: Global, bytes: &[u8]) -> Result<bool, Fail> {
    let rest = bytes.strip_prefix(&FIRST_HEAD).ok_or("a head")?;
    let image = hex::decode(alloc, IMAGE)?;
    let rest = rest.strip_prefix(image.as_slice()).ok_or("an image")?;
    Ok(rest.iter().all(|byte| *byte == 0))
}

/// Makes a file of two pieces, reads it, and appends to another.
fn keeps(alloc: Global, host: Host, piece: &[u8]) -> bool {
    let mut shelf = HostShelf::new(host, alloc);
    shelf.create("f").is_ok()
        && shelf.append("f", piece).is_ok()
        && shelf.append("f", b"end").is_ok()
        && shelf
            .read(alloc, "f", 70_003)
            .is_ok_and(|bytes| bytes.strip_prefix(piece) == Some(b"end"))
        && shelf.append("g", b"!").is_ok()
}

/// 70,000 bytes, of which 251 in a row differ.
fn piece(alloc: Global) -> Result<Vec<u8>, Fail> {
    let mut piece = Vec::new(alloc);
    for at in 0u32..70_000 {
        piece.push((at % 251) as u8)?;
    }
    Ok(piece)
}

/// A host before a run over it.
fn host_for(alloc: Global, edge: Edge, fault: Fault, most: usize) -> Result<Noted, Fail> {
    let mut bytes = Vec::new(alloc);
    let no_disk = match edge {
        Edge::Recall => {
            bytes.extend_from_slice(&FIRST_HEAD)?;
            bytes.extend_from_slice(&hex::decode(alloc, IMAGE)?)?;
            ErrorKind::ReadOnlyFilesystem
        }
        Edge::Disk | Edge::Shelf | Edge::Sink => ErrorKind::NotFound,
    };
    Ok(Noted::new(alloc, bytes, no_disk, fault, most))
}

/// The host after a run over it, if the run went well and left the bytes that it should.
fn behind(alloc: Global, edge: Edge, fault: Fault, most: usize) -> Result<Option<Noted>, Fail> {
    let noted = host_for(alloc, edge, fault, most)?;
    let noted = Rc::new(alloc, RefCell::new(noted)).ok();
    let noted = noted.ok_or("memory")?;
    let host = Host::of(noted.clone()?);
    let is_well = match edge {
        Edge::Disk => saves(alloc, host)?,
        Edge::Recall => recalls(alloc, host)?,
        Edge::Shelf => keeps(alloc, host, &piece(alloc)?),
        Edge::Sink => HostSink::new(host).put(&piece(alloc)?).is_ok(),
    };
    if !is_well {
        return Ok(None);
    }
    let noted = Rc::into_inner(noted).ok_or("no other host")?.into_inner();
    let is_whole = match edge {
        Edge::Disk | Edge::Recall => holds_first(alloc, &noted.bytes)?,
        Edge::Shelf => noted.bytes.strip_prefix(piece(alloc)?.as_slice()) == Some(b"end!"),
        Edge::Sink => noted.bytes == piece(alloc)?,
    };
    Ok(is_whole.then_some(noted))
}

/// What is run, the most bytes that a call takes, the first call that has to be served, and the calls. A first save makes
/// the disk and syncs its folder. It syncs the disk and reads both slots; then it writes the body, and after a sync the
/// gate, which is synced, too. A disk that is open to be read alone needs no sync.
const ROWS: [(Edge, usize, u64, &str); 4] = [
    (
        Edge::Disk,
        20,
        0,
        "d:k/d m:k/d r:k S @0 S @0 R @270864 R @1 W W W W W @0 S @0 W @0 S ",
    ),
    (
        Edge::Recall,
        20,
        1,
        "d:k/d r:k/d @0 @0 R R R R R R @270864 R ",
    ),
    (Edge::Shelf, 20_000, 0, "c:f W W W W W r:f R R R R R a:g W "),
    (Edge::Sink, 20_000, 0, "W W W W "),
];

/// Whether each read or write of a run that is interrupted is made once more, and each call from the first on that fails
/// ends it.
fn are_told(alloc: Global, edge: Edge, most: usize, first: u64, run: &Noted) -> Result<bool, Fail> {
    for at in 0..run.moves {
        match behind(alloc, edge, Fault::Interrupt(at), most)? {
            Some(again) if again.moves.checked_sub(run.moves) == Some(1) => {}
            _ => return Ok(false),
        }
    }
    for at in first..run.calls {
        if behind(alloc, edge, Fault::Call(at), most)?.is_some() {
            return Ok(false);
        }
    }
    Ok(true)
}

/// Whether a run makes these calls, tells each fault from the first on, and does not go well if a write takes nothing.
fn is_as_noted(
    alloc: Global,
    edge: Edge,
    most: usize,
    first: u64,
    notes: &str,
) -> Result<bool, Fail> {
    let run = behind(alloc, edge, Fault::Nothing, most)?.ok_or("it did not go well")?;
    Ok(
        run.notes.as_str() == notes
            && are_told(alloc, edge, most, first, &run)?
            && behind(alloc, edge, Fault::Nothing, 0)?.is_none(),
    )
}

#[test]
fn each_byte_is_handed_on_once_and_each_fault_is_told(rt: HostRuntime) -> Result<(), Fail> {
    for (edge, most, first, notes) in ROWS {
        assert!(rt;
            is_as_noted(rt.alloc(), edge, most, first, notes)?,
            "{notes}"
        );
    }
    Ok(())
}
