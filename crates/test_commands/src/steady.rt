//! A run over a shelf that has each file.

use crate::shelves::{sink_of, words_of};
use crate::written::bytes_of;
use ids_outside::SteadyShelf;
use idsm_run::run_plain;
use std::alloc::Global;
use std::test::Fail;

/// Whether a fold of a journal that is not there ends as that of an empty one.
fn is_folded(alloc: Global) -> Result<bool, Fail> {
    let words = words_of(alloc, "fold c j m r")?;
    let mut out = sink_of(alloc, "-")?;
    let files = vec![in alloc; (String::from_str(alloc, "c")?, bytes_of(alloc, ".")?)]?;
    let mut shelf = SteadyShelf::make(alloc, files)?;
    let status = run_plain(alloc, &words, &mut shelf, &mut out);
    let is_told = status == 0
        && out.taken() == b"turns 0 entries 0 messages 0 records 0\n".as_slice();
    let is_sent = shelf.contents("m") == Some([].as_slice());
    let is_stored = shelf.contents("r") == Some([].as_slice());
    Ok(is_told && is_sent && is_stored && shelf.contents("j").is_none())
}

#[test]
fn a_journal_that_is_not_there_reads_as_empty_on_a_steady_shelf(
    rt: HostRuntime,
) -> Result<(), Fail> {
    assert!(rt; is_folded(rt.alloc())?);
    Ok(())
}
