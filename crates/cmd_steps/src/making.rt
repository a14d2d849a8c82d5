//! The files of a command, made of what was read, and its line.

ghost use Rattle.std.specs.Prelude.{◌∷◌, ◌≡◌};
ghost use Rattle.cmd_steps.specs.Words.{AreWritten, CanWrite, Command, Does, EndsAs, HasCome, IfOk, IsTrue, Makes, OnOk, Shelved, Task, [], map, names_of, output_of, plain_end, work_of};

use cmd_files::{NewFile, Stop, write_files};
use ids_outside::Shelf;

/// What a command made of the files that it read.
#[derive(Debug, Drop)]
pub struct Made {
    /// The bytes of the file that it writes.
    pub bytes: Vec<u8>,
    /// The line that tells what was done.
    pub line: Vec<u8>,
}

/// Writes what was made, if anything was, by one append, and hands on the line.
/// Steps: one creation, and one append where there are bytes. Waits: as its shelf. By: `EndsAs`; no loop.
pub fn write_made<'a, H: Shelf>(
    target: &str,
    made: Result<Made, Stop<&'a str>>,
    shelf: &mut H,
) -> Result<Vec<u8>, Stop<&'a str>>
    // Each command that came to write this, and has only read files before, ends so.
    ensures { (command : Command) (task : Task) (first : Shelved)
        → HasCome command task (target.now ∷ []) first (H.shows shelf.old) → Makes task target.now made.entry
        → EndsAs command (plain_end result) first (H.shows shelf.new) }
{
    let Made { bytes, line } = made?;
    let file = NewFile {
        name: target,
        bytes: &bytes,
        cuts: &[],
    };
    write_work(&[file], line, shelf)
}

/// Writes the files, and hands on the line that tells what was done.
/// Steps: as `cmd_files::write_files`. Waits: as its shelf. By: `ends`, `written`; no loop.
#[tactic(auto, using(cmd_spec::proofs::EndLemmas::work_done))]
pub fn write_work<'a, H: Shelf>(
    files: &[NewFile<'_>],
    line: Vec<u8>,
    shelf: &mut H,
) -> Result<Vec<u8>, Stop<&'a str>>
    requires { CanWrite files.now }
    ensures line { IfOk result (λ said. said.items ≡ line.items) }
    ensures written { IsTrue (H.shows shelf.old).tells →
        OnOk result (AreWritten (map output_of files.now) (H.shows shelf.new).files) }
    // Each command that came to write them, and has only read files before, ends so.
    ensures ends { (command : Command) (task : Task) (first : Shelved)
        → HasCome command task (names_of (map output_of files.now)) first (H.shows shelf.old)
        → Does task (work_of files.now line.items)
        → EndsAs command (plain_end result) first (H.shows shelf.new) }
{
    write_files(files, shelf)?;
    Ok(line)
}
