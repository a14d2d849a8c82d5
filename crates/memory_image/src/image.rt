//! The image of a memory, written and read, and two laws: functions with a law as their contract, and no body.
ghost use Rattle.std.specs.Prelude.{◌≡◌, ◌+◌, ◌≤◌, ◌++◌, ℕ, List, length, reverse, take, vec_capacity, vec_len};
ghost use Rattle.std.specs.Bool.{OnTrue, OnFalse};
ghost use Rattle.chain_spec.specs.Memory.{Stored};
ghost use Rattle.event_memory.specs.{Stands, no_rows, plain_row};
ghost use Rattle.filter_chain.specs.History.{rows_of};
ghost use Rattle.ids_config.specs.Parts.{Parts};
ghost use Rattle.ids_config.specs.Valid.{IsValid};
ghost use Rattle.ids_types.specs.MemoryRow.{Row as MemoryRow};
ghost use Rattle.memory_image.specs.Images.{AreKeepable, IsImageOf, IsKeepable, joined};
ghost use Rattle.memory_image.specs.Reading.{Adds};
ghost use Rattle.text_spec.specs.{Fits, Told};

use crate::fields::{put_row, row_of};
use event_memory::{Memory, Row};

/// How many bytes an image has of a record without context data.
const ROW_LEN: u32 = 34;

/// How many bytes the image of the memory has.
/// Steps: each record. By: read off.
pub fn image_len(memory: &Memory) -> u32
    requires { AreKeepable (reverse memory.now.rows) }
    ensures { result ≡ length (joined (reverse memory.now.rows)) }
{
    let mut len = 0;
    for i in 0..memory.len() {
        len += ROW_LEN + memory.row(i).context.len() as u32;
    }
    len
}

/// Appends the image of the memory, for which there is room.
/// Steps: each record and its context once. Memory: none, in the room that is there. By: `capacity`; read off.
pub fn put_image(out: &mut Vec<u8>, memory: &Memory)
    requires keepable { AreKeepable (reverse memory.now.rows) }
    requires room { vec_len out.old + length (joined (reverse memory.now.rows)) ≤ vec_capacity out.old }
    ensures items { out.new.items ≡ out.old.items ++ joined (reverse memory.now.rows) }
    ensures capacity { vec_capacity out.old ≤ vec_capacity out.new }
{
    for i in 0..memory.len() {
        put_row(out, &memory.row(i));
    }
}

/// Fills an empty memory with the records of an image. Answers whether it is one; else the memory has any records.
/// Steps: each record of the image once, and looked for among those before, at most 256. Memory: none, in the memory's
/// room. By: read off.
pub fn restore(memory: &mut Memory, image: &[u8]) -> bool
    requires { memory.old ≡ no_rows 256 }
    ensures found { OnTrue result (IsImageOf (reverse memory.new.rows) image.now) }
    ensures none { OnFalse result ((rows : List MemoryRow) → IsImageOf rows image.now → ⊥) }
{
    let mut rest = image;
    while !rest.is_empty() {
        let Some((row, after)) = row_of(rest) else {
            return false;
        };
        if !add(memory, &row) {
            return false;
        }
        rest = after;
    }
    true
}

/// Bytes are the image of one list of records at most.
#[tactic(auto, using(crate::proofs::ImageLemmas::one_list))]
pub fn one_list_for_an_image()
    ensures { (a b : List MemoryRow) (image : List ℕ) → IsImageOf a image → IsImageOf b image → a ≡ b }
{}

/// The records of the event memory after the first turns of a fitting history, however many turns these are, can
/// be kept in an image.
#[tactic(auto, using(crate::proofs::JournalLemmas::rows_kept))]
pub fn the_records_of_a_history_can_be_kept()
    ensures { (config : Parts) (told : Told) (k : ℕ) → IsValid config → Fits config told →
        AreKeepable (rows_of config (take k told.turns)) }
{}

/// Adds a record as the newest one, and answers true; or there was no room, or one of its event.
fn add(memory: &mut Memory, row: &Row<'_>) -> bool
    requires { IsKeepable (plain_row row.now) }
    ensures { (items : List Stored) → Stands memory.old items → Adds memory.old memory.new (plain_row row.now) result }
{
    let before = memory.len();
    memory.store(row.first, row.key, row.occurrences, row.stamp, row.context);
    if memory.len() == before {
        return false;
    }
    // The ticks of a record are those of its first item and of its last one.
    memory.store(row.last, row.key, 0, row.stamp, row.context);
    true
}
