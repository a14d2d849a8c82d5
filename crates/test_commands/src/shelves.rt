//! Shelves and sinks in memory of what a table gives: `WORDS | C | J | K`, the words of a run and the files `c`, `j` and
//! `k`. Where they are left out, `c` is the configuration of one event, and the others are empty.

use crate::written::{bytes_of, numbers, split_words};
use ids_outside::{MemoryShelf, MemorySink};
use std::alloc::Global;
use std::test::Fail;

/// The words that are given.
pub(crate) fn words_of(alloc: Global, given: &str) -> Result<Vec<String>, Fail> {
    split_words(alloc, given.split(" | ").next().unwrap_or(""))
}

/// A shelf of the files that are given, whose call of this number fails.
pub(crate) fn shelf_of(alloc: Global, given: &str, fails: &str) -> Result<MemoryShelf, Fail> {
    let mut columns = given.split(" | ").skip(1);
    let c = bytes_of(alloc, columns.next().unwrap_or("."))?;
    let j = bytes_of(alloc, columns.next().unwrap_or(""))?;
    let k = bytes_of(alloc, columns.next().unwrap_or(""))?;
    let files = vec![in alloc;
        (String::from_str(alloc, "c")?, c),
        (String::from_str(alloc, "j")?, j),
        (String::from_str(alloc, "k")?, k),
    ]?;
    Ok(MemoryShelf::make(alloc, files, numbers(alloc, fails)?)?)
}

/// A sink whose put of this number fails.
pub(crate) fn sink_of(alloc: Global, fails: &str) -> Result<MemorySink, Fail> {
    Ok(MemorySink::make(alloc, numbers(alloc, fails)?)?)
}
