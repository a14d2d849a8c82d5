//! Messages taken out of units, and units counted.

ghost use Rattle.std.specs.Prelude.{◌≡◌, ◌<◌, ◌^◌, ◌++◌, ℕ, List, Result, IfOk, IfErr, IfSome, length};
ghost use Rattle.std.specs.List.{AllByRecursion};
ghost use Rattle.std.specs.Option.{IsSomeAnd};
ghost use Rattle.ids_frame.specs.Messages.{joined};
ghost use Rattle.ids_bundle.specs.Units.{Run, all_of, unit, units, FitsUnit};
ghost use Rattle.ids_bundle.specs.Packing.{ArePacked};
ghost use Rattle.ids_bundle.specs.Unpacking.{MayStop, Unpacks};

use crate::fault::UnpackFault;
use crate::unit::{Count, HEAD, is_unit, unit_size};
use std::alloc::Global;

/// The messages of units that stand one after the other, joined. The first place where no whole unit stands is the
/// fault.
/// Steps: each unit and its messages read once, and their bytes copied once. Memory: may answer want of memory.
/// By: read off.
pub fn unpack(alloc: Global, units: &[u8]) -> Result<Vec<u8>, UnpackFault>
    ensures unpacked { IfOk result (λ out.
        (runs : List Run) × Unpacks units.now (Ok runs) × (out.items ≡ joined (all_of runs))) }
    ensures stops { IfErr result (MayStop units.now) }
{
    let mut out = Vec::with_capacity(alloc, units.len())?;
    let mut rest = units;
    while !rest.is_empty() {
        let at = units.len() - rest.len();
        let size = unit_size(rest);
        if rest.len() < size {
            return Err(UnpackFault::Cut { at });
        }
        let (unit, behind) = rest.split_at(size);
        if !is_unit(unit) {
            return Err(UnpackFault::Bad { at });
        }
        out.extend_from_slice(&unit[HEAD..])?;
        rest = behind;
    }
    Ok(out)
}

/// Bytes are units in one way, or stop to be units at one place for one reason: each answer of `unpack` but want of
/// memory comes exactly where it is due.
#[tactic(auto, using(crate::proofs::UnpackLemmas::one_unpack_answer_lem))]
pub fn one_unpack_answer()
    ensures { (bytes : List ℕ) (one other : Result (List Run) UnpackFault) → Unpacks bytes one → Unpacks bytes other
        → one ≡ other }
{}

/// What was packed is unpacked to the same runs, and so to the same bytes.
pub fn unpacks_again()
    ensures { (size : ℕ) (bytes : List ℕ) (runs : List Run) (answer : Result (List Run) UnpackFault) → size < 2 ^ 16
        → ArePacked size bytes runs → Unpacks (units runs) answer
        → (answer ≡ Ok runs) × (bytes ≡ joined (all_of runs)) }
{}

/// Counts units and their messages by the heads alone. Of bytes that are no units it counts those before the first
/// place where no head stands, or one that says more bytes than follow.
/// Steps: the heads of the units. By: read off.
#[tactic(auto, using(crate::proofs::UnpackLemmas::none_left))]
pub fn count(bytes: &[u8]) -> Count
    ensures { (runs : List Run) → AllByRecursion FitsUnit runs → bytes.now ≡ units runs
        → result ≡ record { units = length runs; messages = length (all_of runs) } }
{
    let mut found = Count {
        units: 0,
        messages: 0,
    };
    let mut rest = bytes;
    while let Some((messages, behind)) = first_unit(rest) {
        found.units += 1;
        found.messages = found.messages.saturating_add(messages.into());
        rest = behind;
    }
    found
}

/// How many messages the head at the front says, and what stands after the bytes that it says.
#[tactic(auto, using(std::proofs::lemmas::Grind::common_steps, crate::proofs::UnitLemmas::head_says))]
fn first_unit(bytes: &[u8]) -> Option<(u16, &[u8])>
    ensures less { IfSome result (λ x. length x.1.now < length bytes.now) }
    ensures told { (run : Run) (more : List ℕ) → FitsUnit run → bytes.now ≡ unit run ++ more
        → IsSomeAnd result (λ x. (x.0 ≡ length run) × (x.1.now ≡ more)) }
{
    let [a, b, c, d, body @ ..] = bytes else {
        return None;
    };
    let behind = body.get(usize::from(u16::from_be_bytes([*c, *d]))..)?;
    Some((u16::from_be_bytes([*a, *b]), behind))
}
