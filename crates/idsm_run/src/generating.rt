//! The command `gen`: a generated configuration, trace and journal.

ghost use Rattle.std.specs.Prelude.{◌≡◌};
ghost use Rattle.cmd_steps.specs.Words.{CanWrite, EndsAs, IsTrue, WritesApart, gen as gen_command, gen_work, map, output_of, plain_end};
ghost use Rattle.gen_options.specs.{given_of, is_in_range};
ghost use Rattle.gen_recording.specs.Generated.{config_for, journal_for, trace_for};

use crate::fold::new_file;
use cmd_files::{NewFile, Stop};
use cmd_steps::write_work;
use gen_options::Given;
use gen_recording::{Generated, generate};
use ids_outside::Shelf;
use std::alloc::Global;

/// Generates a recording, writes its three files, each by one append, and returns the line that tells of it. All memory is
/// taken before the first file is made.
pub(crate) fn generate_files<'a, H: Shelf>(
    alloc: Global,
    given: Given<'a>,
    shelf: &mut H,
) -> Result<Vec<u8>, Stop<&'a str>>
    requires range { IsTrue (is_in_range given.options) }
    requires apart { WritesApart (gen_command (given_of given)) }
    ensures { EndsAs (gen_command (given_of given.entry)) (plain_end result) (H.shows shelf.old) (H.shows shelf.new) }
{
    let Generated {
        config,
        trace,
        journal,
        line,
    } = generate(alloc, &given.options)?;
    write_work(&new_files(given, &config, &trace, &journal), line, shelf)
}

/// The three files, each of one piece.
fn new_files<'f>(
    given: Given<'f>,
    config: &'f str,
    trace: &'f [u8],
    journal: &'f [u8],
) -> [NewFile<'f>; 3]
    requires config { config.now ≡ config_for given.options }
    requires trace { trace.now ≡ trace_for given.options }
    requires journal { journal.now ≡ journal_for given.options }
    requires apart { WritesApart (gen_command (given_of given)) }
    ensures can { CanWrite result }
    ensures files { map output_of result ≡ (gen_work (given_of given.entry)).outputs }
{
    [
        new_file(given.config, config.as_bytes(), &[]),
        new_file(given.trace, trace, &[]),
        new_file(given.journal, journal, &[]),
    ]
}
