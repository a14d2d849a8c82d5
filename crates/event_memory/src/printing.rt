//! The text of the memory.

ghost use Rattle.std.specs.Prelude.{◌≡◌, ◌++◌, ◌∷◌, [], IfOk, OnOk, codes, decimal, reverse};
ghost use Rattle.event_memory.specs.Views.{plain_row};
ghost use Rattle.text_spec.specs.{bytes_word, memory_text, row_line, stamp_text, line_feed, space};

use crate::memory::Memory;
use crate::row::Row;
use ids_types::{Key, NoMemory};
use std::alloc::Global;
use text_spec::{push_bytes, push_field, push_stamp};

impl Memory {
    /// The text of the records, the one stored longest ago first.
    /// Steps: the bytes of the text, at most 256 lines. Memory: may answer want of memory. By: read off.
    #[tactic(auto, using(crate::proofs::PlaceLemmas::printing))]
    pub fn print(&self, alloc: Global) -> Result<Vec<u8>, NoMemory>
        ensures { IfOk result (λ text. text.items ≡ memory_text (reverse self.now.rows)) }
    {
        let mut text = Vec::new(alloc);
        for i in 0..self.len() {
            push_row(&mut text, &self.row(i))?;
        }
        Ok(text)
    }
}

/// Appends `S INDEX ID SENSOR OCCURRENCES FIRST LAST STAMP CONTEXT` as a line.
fn push_row(out: &mut Vec<u8>, row: &Row<'_>) -> Result<(), NoMemory>
    ensures { OnOk result (out.new.items ≡ out.old.items ++ (row_line (plain_row row.now) ++ line_feed ∷ [])) }
{
    push_key(out, &row.key)?;
    push_sums(out, row)?;
    push_last(out, row)?;
    Ok(out.push(b'\n')?)
}

/// Appends `S INDEX ID SENSOR`.
fn push_key(out: &mut Vec<u8>, key: &Key) -> Result<(), NoMemory>
    ensures { OnOk result (out.new.items ≡ out.old.items ++ (codes "S"
        ++ ((space ∷ decimal key.now.event.0) ++ ((space ∷ decimal key.now.id)
        ++ (space ∷ decimal key.now.sensor))))) }
{
    out.push(b'S')?;
    push_field(out, u64::from(key.event.0))?;
    push_field(out, u64::from(key.id))?;
    push_field(out, u64::from(key.sensor))
}

/// Appends ` OCCURRENCES FIRST LAST`.
fn push_sums(out: &mut Vec<u8>, row: &Row<'_>) -> Result<(), NoMemory>
    ensures { OnOk result (out.new.items ≡ out.old.items ++ ((space ∷ decimal row.now.occurrences)
        ++ ((space ∷ decimal row.now.first) ++ (space ∷ decimal row.now.last)))) }
{
    push_field(out, u64::from(row.occurrences))?;
    push_field(out, row.first)?;
    push_field(out, row.last)
}

/// Appends ` STAMP CONTEXT`.
fn push_last(out: &mut Vec<u8>, row: &Row<'_>) -> Result<(), NoMemory>
    ensures { OnOk result (out.new.items ≡ out.old.items
        ++ ((space ∷ stamp_text row.now.stamp) ++ (space ∷ bytes_word row.now.context.now))) }
{
    out.push(b' ')?;
    push_stamp(out, row.stamp)?;
    out.push(b' ')?;
    push_bytes(out, row.context)
}
