//! The command line that clap reads.

ghost use Rattle.std.specs.Prelude.{◌≡◌, IfOk, false, codes};
ghost use Rattle.clap.specs.Words.{app_of, rule_of};
ghost use Rattle.gen_options.specs.CommandLine.{command_line, a_name, a_number};

use clap::{Arg, Command, value_parser};
use std::alloc::{AllocError, Global};

/// The command `gen` with its four numbers and three names.
pub(crate) fn command<'a>(alloc: Global) -> Result<Command<'a>, AllocError>
    ensures { IfOk result (λ command. app_of command ≡ command_line) }
{
    Command::new(alloc, "gen")
        .arg(number(alloc, "start", "1"))?
        .arg(number(alloc, "callers", "6"))?
        .arg(number(alloc, "rounds", "2000"))?
        .arg(number(alloc, "events", "40"))?
        .arg(name(alloc, "CONFIG"))?
        .arg(name(alloc, "TRACE"))?
        .arg(name(alloc, "JOURNAL"))
}

/// An option that takes a whole number.
fn number<'a>(alloc: Global, name: &'a str, default: &'a str) -> Arg<'a>
    ensures rule { rule_of result ≡ a_number name.entry.now default.entry.now }
    ensures local { result.global ≡ false }
{
    Arg::new(alloc, name)
        .long(name)
        .value_parser(value_parser!(u64))
        .default_value(default)
}

/// The name of a file, which has to be there.
fn name<'a>(alloc: Global, name: &'a str) -> Arg<'a>
    ensures rule { rule_of result ≡ a_name name.entry.now }
    ensures local { result.global ≡ false }
{
    Arg::new(alloc, name).required(true)
}
