//! Files that are written one after another, each piece by piece.

ghost use Rattle.std.specs.Prelude.{◌≤◌, ◌∷◌, [], length, map};
ghost use Rattle.cmd_files.specs.Writing.{Adds, CanWrite, IsCut, Writes, output_of};

use ids_outside::{Shelf, WriteFault};

/// A file that is to be written: its bytes, and where they are cut into pieces.
#[derive(Clone, Copy, Debug)]
pub struct NewFile<'a> {
    pub name: &'a str,
    pub bytes: &'a [u8],
    /// Where each piece ends but the last one, which goes to the end.
    pub cuts: &'a [u64],
}

/// Makes each file and appends its bytes, by one append for each piece that is not empty.
/// Steps: for each file one creation, and an append for each piece that is not empty. Waits: as its shelf.
/// By: `Writes`; read off.
pub fn write_files<H: Shelf>(files: &[NewFile<'_>], shelf: &mut H) -> Result<(), WriteFault>
    requires { CanWrite files.now }
    ensures { Writes (map output_of files.now) result (H.shows shelf.old) (H.shows shelf.new) }
{
    for &file in files {
        write_file(file, shelf)?;
    }
    Ok(())
}

/// Makes the file and appends its pieces.
#[tactic(auto, using(crate::proofs::WritingLemmas::file_written))]
fn write_file<H: Shelf>(file: NewFile<'_>, shelf: &mut H) -> Result<(), WriteFault>
    requires { IsCut file }
    ensures { Writes (output_of file.entry ∷ []) result (H.shows shelf.old) (H.shows shelf.new) }
{
    shelf.create(file.name)?;
    append_pieces(file, shelf)
}

/// Appends the pieces to a file that is there and empty.
fn append_pieces<H: Shelf>(file: NewFile<'_>, shelf: &mut H) -> Result<(), WriteFault>
    requires { IsCut file }
    ensures { Adds (output_of file.entry) 0 (length file.entry.bytes.now) result (H.shows shelf.old) (H.shows shelf.new) }
{
    let mut start = 0;
    for &end in file.cuts {
        append_piece(file, start, end, shelf)?;
        start = end;
    }
    append_piece(file, start, file.bytes.len() as u64, shelf)
}

/// Appends the bytes from `start` to `end` to those before, where there are any.
#[tactic(auto, using(crate::proofs::WritingLemmas::piece_appended))]
fn append_piece<H: Shelf>(
    file: NewFile<'_>,
    start: u64,
    end: u64,
    shelf: &mut H,
) -> Result<(), WriteFault>
    requires ordered { start ≤ end }
    requires within { end ≤ length file.bytes.now }
    ensures { Adds (output_of file.entry) start end result (H.shows shelf.old) (H.shows shelf.new) }
{
    if start == end {
        return Ok(());
    }
    shelf.append(file.name, &file.bytes[start as usize..end as usize])
}
