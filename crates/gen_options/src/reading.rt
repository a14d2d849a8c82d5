//! Words, read.

ghost use Rattle.std.specs.Prelude.{◌≡◌, IfOk, IfSome, IsTrue, map, option_map, string_bytes, codes};
ghost use Rattle.clap.specs.Words.{first_of, found_of, rows_of};
ghost use Rattle.gen_options.specs.{given_of, is_in_range, given_by, number_by, options_by, words_give};

use crate::command::command;
use crate::options::{Given, Options};
use clap::ArgMatches;
use clap::error::ErrorKind;
use std::alloc::{AllocError, Global};

/// What the words give, the first of which is the command's own; `None` where clap refuses them, or a number
/// is out of its range.
/// Steps: what clap makes of the words, against a command of seven arguments. Memory: may answer want of memory
/// (`AllocError`). By: proved to end; clap's loops are not read off.
pub fn read<'a>(alloc: Global, words: &'a [String]) -> Result<Option<Given<'a>>, AllocError>
    ensures given { IfOk result (λ given. option_map given_of given ≡ words_give (map string_bytes words.entry.now)) }
    ensures range { IfOk result (λ given. IfSome given (λ g. IsTrue (is_in_range g.options))) }
{
    match command(alloc)?.try_get_matches_from(words) {
        Ok(matches) => Ok(given(&matches)),
        Err(refusal) => match refusal.kind() {
            ErrorKind::OutOfMemory => Err(AllocError),
            _ => Ok(None),
        },
    }
}

/// What the matches give, if the numbers are in their ranges.
fn given<'a>(matches: &ArgMatches<'a>) -> Option<Given<'a>>
    ensures given { option_map given_of result ≡ given_by (rows_of (found_of matches.now)) }
    ensures range { IfSome result (λ g. IsTrue (is_in_range g.options)) }
{
    Some(Given {
        options: options(matches)?,
        config: name(matches, "CONFIG")?,
        trace: name(matches, "TRACE")?,
        journal: name(matches, "JOURNAL")?,
    })
}

/// The numbers, if they are in their ranges.
fn options(matches: &ArgMatches<'_>) -> Option<Options>
    ensures options { result ≡ options_by (rows_of (found_of matches.now)) }
    ensures range { IfSome result (λ o. IsTrue (is_in_range o)) }
{
    let options = Options {
        start: number(matches, "start")?,
        callers: number(matches, "callers")?,
        rounds: number(matches, "rounds")?,
        events: number(matches, "events")?,
    };
    options.is_in_range().then_some(options)
}

/// The number of an option.
fn number(matches: &ArgMatches<'_>, id: &str) -> Option<u64>
    ensures { result ≡ number_by id.now (rows_of (found_of matches.now)) }
{
    matches.get_one::<u64>(id)
}

/// The name of a file.
#[tactic(auto, using(crate::proofs::ReadingLemmas::first_found))]
fn name<'a>(matches: &ArgMatches<'a>, id: &str) -> Option<&'a str>
    ensures { option_map (λ name. name.now) result ≡ first_of id.now (rows_of (found_of matches.now)) }
{
    matches.get_str(id)
}
