//! The command `migrate`: the text of a configuration in the second form.

ghost use Rattle.std.specs.Prelude.{◌≡◌};
ghost use Rattle.cmd_steps.specs.Words.{EndsAs, IfOk, Ok, codes, config_text, configuration, migrate as migrate_command, pair_of, plain_end};

use cmd_files::Stop;
use cmd_steps::{Made, read_config, write_made};
use cmd_words::PairNames;
use ids_config::Config;
use ids_outside::Shelf;
use ids_types::NoMemory;
use std::alloc::Global;

/// Writes the text of a configuration of either form in the second form, by one append, and returns the
/// line that tells so. All memory is taken before the new file is made.
pub(crate) fn migrate<'a, H: Shelf>(
    alloc: Global,
    names: PairNames<'a>,
    shelf: &mut H,
) -> Result<Vec<u8>, Stop<&'a str>>
    ensures { EndsAs (migrate_command (pair_of names.entry)) (plain_end result) (H.shows shelf.old) (H.shows shelf.new) }
{
    let config = read_config(alloc, names.source, shelf)?;
    let made = make_text(alloc, &config)?;
    write_made(names.target, Ok(made), shelf)
}

/// The text of a configuration in the second form, and the line that says so.
fn make_text(alloc: Global, config: &Config) -> Result<Made, NoMemory>
    ensures { IfOk result (λ made. (made.bytes.items ≡ config_text config.now)
        × (configuration made.bytes.items ≡ Ok config.now) × (made.line.items ≡ codes "form 2\n")) }
{
    let text = config_json::print(alloc, config)?;
    let line = format!(in alloc; "form 2\n")?;
    Ok(Made {
        bytes: text.into_bytes(),
        line: line.into_bytes(),
    })
}
