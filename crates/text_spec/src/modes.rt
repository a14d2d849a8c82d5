//! The names of reporting modes in a text.

ghost use Rattle.std.specs.Prelude.{◌≡◌, ◌++◌, ◌+◌, ◌<◌};
ghost use Rattle.text_spec.specs.{Appends, ℕ, List, Some, length, vec_len, vec_capacity, OnOk, OnErr, mode_name, mode_named};

use ids_types::{Mode, NoMemory};

/// Appends the name of the mode.
/// Steps: at most 26 bytes. Memory: may answer want of memory, only where the room is short. By: `added`; read off.
pub fn push_mode(out: &mut Vec<u8>, mode: Mode) -> Result<(), NoMemory>
    ensures added { Appends out.old out.new result (mode_name mode) }
    ensures err { OnErr result (out.new.items ≡ out.old.items) }
{
    Ok(out.extend_from_slice(mode.name().as_bytes())?)
}

/// A mode has one name, which is read as it.
#[tactic(auto, using(crate::proofs::ContextsLaws::mode_again, crate::proofs::ContextsLaws::named_takes))]
pub fn one_name_for_a_mode()
    ensures read { (mode : Mode) → mode_named (mode_name mode) ≡ Some mode }
    ensures only { (word : List ℕ) (mode : Mode) → mode_named word ≡ Some mode → mode_name mode ≡ word }
{}
