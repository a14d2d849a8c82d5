//! How a run ended, as a table writes it: `STATUS | TEXT | FILE ..`, the text where it is not empty, and as `NAME=BYTES`
//! the file `k` where it is not empty, and each of `m`, `r` and `o` that is there. Of a file of more than 200 bytes the name
//! stands alone.

use ids_outside::{MemoryShelf, MemorySink};
use idsm_run::USAGE;
use std::alloc::Global;
use std::test::Fail;
use text_spec::{push_hex, push_number};

/// Appends a text with a `/` for each line feed.
fn push_text(told: &mut Vec<u8>, text: &[u8]) -> Result<(), Fail> {
    for &byte in text {
        told.push(if byte == b'\n' { b'/' } else { byte })?;
    }
    Ok(())
}

/// Appends a file: the messages `k` and `m` in digits, and each other as text.
fn push_file(told: &mut Vec<u8>, name: &str, bytes: &[u8]) -> Result<(), Fail> {
    told.extend_from_slice(b" | ")?;
    told.extend_from_slice(name.as_bytes())?;
    if bytes.len() > 200 {
        return Ok(());
    }
    told.push(b'=')?;
    if name == "r" || name == "o" {
        return push_text(told, bytes);
    }
    told.push(b'#')?;
    Ok(push_hex(told, bytes)?)
}

/// Appends how a run ended.
pub(crate) fn push_end(
    told: &mut Vec<u8>,
    status: u8,
    shelf: &MemoryShelf,
    out: &MemorySink,
) -> Result<(), Fail> {
    push_number(told, status as u64)?;
    if out.taken() == USAGE {
        told.extend_from_slice(b" | usage")?;
    } else if !out.taken().is_empty() {
        told.extend_from_slice(b" | ")?;
        push_text(told, out.taken())?;
    }
    for name in ["k", "m", "r", "o"] {
        if let Some(bytes) = shelf.contents(name)
            && (name != "k" || !bytes.is_empty())
        {
            push_file(told, name, bytes)?;
        }
    }
    Ok(())
}
