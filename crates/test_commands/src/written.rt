//! What a table writes, and the bytes, words and numbers that it is.

use std::alloc::Global;
use std::test::Fail;

/// One event, with id 42 and sensor 3, of instance 18. A table writes it `.`.
const ONE_EVENT: &str = r#"{"form":1,"instance":18,"events":[{"id":42,"sensor":3}]}"#;

/// The bytes that a table writes so.
pub(crate) fn bytes_of(alloc: Global, written: &str) -> Result<Vec<u8>, Fail> {
    if let Some(digits) = written.strip_prefix("#") {
        return Ok(hex::decode(alloc, digits)?);
    }
    let text = if written == "." { ONE_EVENT } else { written };
    let mut bytes = Vec::new(alloc);
    for &byte in text.as_bytes() {
        bytes.push(if byte == b'/' { b'\n' } else { byte })?;
    }
    Ok(bytes)
}

/// The words of a line, between single spaces; no words of an empty line.
pub(crate) fn split_words(alloc: Global, line: &str) -> Result<Vec<String>, Fail> {
    let mut words = Vec::new(alloc);
    if !line.is_empty() {
        for word in line.split(" ") {
            words.push(String::from_str(alloc, word)?)?;
        }
    }
    Ok(words)
}

/// The number that is written, alone; none of `-`.
pub(crate) fn numbers(alloc: Global, written: &str) -> Result<Vec<u64>, Fail> {
    let mut numbers = Vec::new(alloc);
    if let Ok(number) = written.parse::<u64>() {
        numbers.push(number)?;
    }
    Ok(numbers)
}
