//! Messages packed into units.

ghost use Rattle.std.specs.Prelude.{◌≡◌, ◌≤◌, ◌++◌, ◌∷◌, ◌↔◌, ℕ, List, Result, length, drop, IfOk, IfErr};
ghost use Rattle.ids_frame.specs.{AreBytes, MessageParts};
ghost use Rattle.ids_bundle.specs.Units.{Run, load, unit, units};
ghost use Rattle.ids_bundle.specs.Cuts.{IsCutFor, IsPacked};
ghost use Rattle.ids_bundle.specs.FirstUnit.{IsFirstRun, Puts};
ghost use Rattle.ids_bundle.specs.Packing.{ArePacked, BeginsLong, MayStop, Packs, StopsAt};

use crate::fault::{PackFault, UnitFault};
use crate::unit::{HEAD, UnitPut, push_unit, write_unit};
use ids_frame::{BadMessage, decode};
use std::alloc::Global;

/// Packs messages whole into as few units as can be, each with at most `size` bytes of messages. A message joins the
/// unit before it where it fits. Messages are judged in their order, and the first that cannot be read, or does not
/// fit into a unit, is the fault.
/// Steps: each message read once, and one that begins a unit twice; their bytes copied once. Memory: may answer want of
/// memory. By: read off.
pub fn pack(alloc: Global, size: u16, messages: &[u8]) -> Result<Vec<u8>, PackFault>
    requires { 64 ≤ size }
    ensures packed { IfOk result (λ out.
        (runs : List Run) × ArePacked size messages.now runs × (out.items ≡ units runs)) }
    ensures stops { IfErr result (MayStop size messages.now) }
{
    if messages.is_empty() {
        return Ok(Vec::new(alloc));
    }
    // Two units that follow each other have more than 64 bytes of messages.
    let mut out = Vec::with_capacity(alloc, messages.len() + messages.len() / 8 + HEAD)?;
    let mut rest = messages;
    while !rest.is_empty() {
        let (number, load) = first_run(size, rest, messages.len() - rest.len())?;
        let (run, behind) = rest.split_at(load as usize);
        push_unit(&mut out, number, run)?;
        rest = behind;
    }
    Ok(out)
}

/// Puts the first unit that `pack` makes of the messages to the front of a buffer, and tells how many bytes of messages
/// it took: the next call is for those behind them. It looks at the messages of the unit and at the one that follows.
/// The bytes of the buffer behind the unit stay, and where it answers a fault all do. It takes no memory.
/// Steps: the messages of the unit and the one behind read once, and the unit's bytes copied once. By: read off.
pub fn put_unit(size: u16, messages: &[u8], buffer: &mut [u8]) -> Result<UnitPut, UnitFault>
    ensures put { IfOk result (λ put. (run : Run) × Puts size (length buffer.old) messages.now (Ok run)
        × (put.unit ≡ length (unit run)) × (put.taken ≡ load run) × (buffer.new ≡ unit run ++ drop put.unit buffer.old)) }
    ensures lacks { IfErr result (λ fault. Puts size (length buffer.old) messages.now (Err fault)) }
    ensures nothing { IfErr result (λ _. buffer.new ≡ buffer.old) }
{
    if size < 64 {
        return Err(UnitFault::SmallSize);
    }
    if messages.is_empty() {
        return Err(UnitFault::NoMessages);
    }
    let (number, load) = first_run(size, messages, 0)?;
    let taken = load as usize;
    let wanted = HEAD + taken;
    if buffer.len() < wanted {
        return Err(UnitFault::Short { wanted });
    }
    write_unit(buffer, number, &messages[..taken]);
    Ok(UnitPut {
        unit: wanted,
        taken,
    })
}

/// How many messages the first run of the greedy cut of bytes, which begin at this place, has, and how many bytes.
fn first_run(size: u16, bytes: &[u8], at: usize) -> Result<(u16, u16), PackFault>
    ensures first { IfOk result (λ x. (run : Run) × IsFirstRun size bytes.now run × (x.0 ≡ length run) × (x.1 ≡ load run)) }
    ensures stops { IfErr result (λ fault. StopsAt size fault at bytes.now) }
{
    let mut load = fitting(size, bytes, at)?;
    let mut number = 1;
    while let Ok(len) = fitting(size - load, &bytes[load as usize..], at) {
        number += 1;
        load += len;
    }
    Ok((number, load))
}

/// The length of the message at the front of the bytes, which begin at this place, where it fits.
fn fitting(size: u16, bytes: &[u8], at: usize) -> Result<u16, PackFault>
    ensures begins { IfOk result (λ len. BeginsLong bytes.now len) }
    ensures few { IfOk result (λ len. len ≤ size) }
    ensures stops { IfErr result (λ fault. StopsAt size fault at bytes.now) }
{
    match decode(bytes) {
        Ok((_, len)) if len <= size as usize => Ok(len as u16),
        Ok(_) => Err(PackFault::TooLarge { at }),
        Err(fault) => Err(PackFault::Bad(BadMessage { at, fault })),
    }
}

/// No cut into runs of that size has fewer runs than the greedy one.
#[tactic(auto, using(crate::proofs::PackLemmas::fewest_lem))]
pub fn fewest_runs()
    ensures { (size : ℕ) (messages : List MessageParts) (packed runs : List Run) → IsPacked size messages packed
        → IsCutFor size messages runs → length packed ≤ length runs }
{}

/// There is one greedy cut.
#[tactic(auto, using(crate::proofs::PackLemmas::one_packing_lem))]
pub fn one_packing()
    ensures { (size : ℕ) (messages : List MessageParts) (packed others : List Run) → IsPacked size messages packed
        → IsPacked size messages others → packed ≡ others }
{}

/// Bytes are packed in one way, or stop at one place for one reason: each answer of `pack` but want of memory comes
/// exactly where it is due.
#[tactic(auto, using(crate::proofs::PackLemmas::one_pack_answer_lem))]
pub fn one_pack_answer()
    ensures { (size : ℕ) (bytes : List ℕ) (one other : Result (List Run) PackFault) → AreBytes bytes
        → Packs size bytes one → Packs size bytes other → one ≡ other }
{}

/// Messages are packed to a run and others exactly where the run is their first and what stands behind it is packed to
/// the others, and there is one first run. So calls of `put_unit` in a row give what `pack` gives.
pub fn first_of_packed()
    ensures first { (size : ℕ) (bytes : List ℕ) (run : Run) (runs : List Run) → ArePacked size bytes (run ∷ runs)
        ↔ (IsFirstRun size bytes run × ArePacked size (drop (load run) bytes) runs) }
    ensures one { (size : ℕ) (bytes : List ℕ) (run other : Run) → IsFirstRun size bytes run
        → IsFirstRun size bytes other → run ≡ other }
{}

/// Of bytes one first unit is put, or none for one reason: each answer of `put_unit` comes exactly where it is due.
#[tactic(auto, using(crate::proofs::PackLemmas::one_unit_answer_lem))]
pub fn one_unit_answer()
    ensures { (size room : ℕ) (bytes : List ℕ) (one other : Result Run UnitFault) → AreBytes bytes
        → Puts size room bytes one → Puts size room bytes other → one ≡ other }
{}
