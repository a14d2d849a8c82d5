//! The words after the program's name: the one reading of them, for every run.

ghost use Rattle.std.specs.Prelude.{◌≡◌, ◌∷◌, [], codes, map, option_map, string_bytes, IfOk, IfSome, OnErr, IsTrue};
ghost use Rattle.gen_options.specs.{given_of, is_in_range};
ghost use Rattle.cmd_words.specs.Command.{command_of, gen_of, gen_into, are_read_by_clap, are_names, fold, fold_in, named, of_few, replay, replay_in, report_in};
ghost use Rattle.cmd_words.specs.CommandView.{asked, files_of, five_of, report_files_of, CanReport, CanRun, WritesApart};

use crate::differing::names_differ;
use crate::files::{
    CheckNames, ExportNames, FoldNames, KeepNames, KeyedNames, PairNames, RecordingNames,
    ReplayNames, ReportNames, SizedNames,
};
use crate::message_words::{exported, keyed, sized};
use gen_options::Given;
use ids_types::NoMemory;
use std::alloc::Global;

/// The usage, with the commands that are built.
pub const USAGE: &[u8] = b"usage: idsm replay CONFIG TRACE MESSAGES MEMORY JOURNAL
       idsm fold CONFIG JOURNAL MESSAGES MEMORY
       idsm check CONFIG JOURNAL MESSAGES
       idsm decode MESSAGES
       idsm gen [--start N] [--callers N] [--rounds N] [--events N] CONFIG TRACE JOURNAL
       idsm migrate CONFIG NEW
       idsm report OUT FILE ..
       idsm keep DISK CONFIG JOURNAL
       idsm recall DISK MEMORY
       idsm sign KEY START MESSAGES SIGNED
       idsm verify KEY START SIGNED MESSAGES
       idsm bundle SIZE MESSAGES UNITS
       idsm unbundle UNITS MESSAGES
       idsm explain CONFIG JOURNAL
       idsm export FORMAT MESSAGES
";

/// What a run is asked to do.
#[derive(Clone, Copy, Debug)]
pub enum Request<'a> {
    Fold(FoldNames<'a>),
    Check(CheckNames<'a>),
    /// Prints the messages of a file.
    Decode(&'a str),
    /// Generates a recording. The options are in their ranges.
    Gen(Given<'a>),
    Migrate(PairNames<'a>),
    Replay(ReplayNames<'a>),
    Sign(KeyedNames<'a>),
    Verify(KeyedNames<'a>),
    Bundle(SizedNames<'a>),
    Unbundle(PairNames<'a>),
    Report(ReportNames<'a>),
    Keep(KeepNames<'a>),
    /// Writes what a disk keeps, the source, into a file.
    Recall(PairNames<'a>),
    Explain(RecordingNames<'a>),
    Export(ExportNames<'a>),
}

/// The command that the words ask for, `None` where they are not in form. Only the words of `gen` take
/// memory.
/// Steps: each name compared with each other, at most nine; the words of `gen` as clap reads them. Memory: may answer
/// want of memory, for the words of `gen` alone. By: `asked`, `memory`; read off, clap's part not read.
pub fn parse(alloc: Global, words: &[String]) -> Result<Option<Request<'_>>, NoMemory>
    ensures asked { IfOk result (λ request. option_map asked request ≡ command_of (map string_bytes words.now)) }
    ensures can { IfOk result (λ request. IfSome request CanRun) }
    ensures memory { OnErr result (IsTrue (are_read_by_clap (map string_bytes words.now))) }
{
    let Some((word, names)) = words.split_first() else {
        return Ok(None);
    };
    match word.as_str() {
        "gen" => parse_gen(alloc, words),
        "sign" => Ok(keyed(names).map(Request::Sign)),
        "verify" => Ok(keyed(names).map(Request::Verify)),
        "bundle" => Ok(sized(names).map(Request::Bundle)),
        "export" => Ok(exported(names).map(Request::Export)),
        word => Ok(named(word, names)),
    }
}

fn parse_gen(alloc: Global, words: &[String]) -> Result<Option<Request<'_>>, NoMemory>
    ensures asked { IfOk result (λ request. option_map asked request ≡ gen_of (map string_bytes words.now)) }
    ensures can { IfOk result (λ request. IfSome request CanRun) }
{
    match gen_options::read(alloc, words)? {
        Some(given) => Ok(into_files(given)),
        None => Ok(None),
    }
}

/// The generation, if its files are not empty names that differ.
fn into_files(given: Given<'_>) -> Option<Request<'_>>
    requires { IsTrue (is_in_range given.options) }
    ensures asked { option_map asked result ≡ gen_into (given_of given.entry) }
    ensures can { IfSome result CanRun }
{
    let Given {
        config,
        trace,
        journal,
        ..
    } = given;
    let are_names = !config.is_empty() && !trace.is_empty() && !journal.is_empty();
    if are_names && config != trace && config != journal && trace != journal {
        Some(Request::Gen(given))
    } else {
        None
    }
}

/// The command whose words are all names of files, if they differ.
#[tactic(auto, unfolding(crate::specs::Command::named))]
fn named<'a>(word: &str, names: &'a [String]) -> Option<Request<'a>>
    ensures asked { option_map asked result ≡ named word.now (map string_bytes names.now) }
    ensures can { IfSome result CanRun }
{
    if !names_differ(names) {
        return None;
    }
    match word {
        "fold" => folded(names).map(Request::Fold),
        "replay" => replayed(names).map(Request::Replay),
        "report" => reported(names).map(Request::Report),
        _ => of_few(word, names),
    }
}

/// The files of the command `fold`.
fn folded(names: &[String]) -> Option<FoldNames<'_>>
    requires { IsTrue (are_names (map string_bytes names.now)) }
    ensures asked { option_map files_of result ≡ fold_in (map string_bytes names.now) }
    ensures can { IfSome result (λ files. WritesApart (fold (files_of files))) }
{
    let [config, journal, messages, memory] = names else {
        return None;
    };
    Some(FoldNames {
        from: RecordingNames {
            config: config.as_str(),
            journal: journal.as_str(),
        },
        messages: messages.as_str(),
        memory: memory.as_str(),
    })
}

/// The files of a replay.
fn replayed(names: &[String]) -> Option<ReplayNames<'_>>
    requires { IsTrue (are_names (map string_bytes names.now)) }
    ensures asked { option_map five_of result ≡ replay_in (map string_bytes names.now) }
    ensures can { IfSome result (λ files. WritesApart (replay (five_of files))) }
{
    let [config, trace, messages, memory, journal] = names else {
        return None;
    };
    Some(ReplayNames {
        config: config.as_str(),
        trace: trace.as_str(),
        messages: messages.as_str(),
        memory: memory.as_str(),
        journal: journal.as_str(),
    })
}

/// The files of a report: one that is written, and 1 to 8 of managers.
fn reported(names: &[String]) -> Option<ReportNames<'_>>
    ensures asked { option_map report_files_of result ≡ report_in (map string_bytes names.now) }
    ensures can { IfSome result CanReport }
{
    let (target, sources) = names.split_first()?;
    (!sources.is_empty() && sources.len() <= 8).then_some(ReportNames {
        target: target.as_str(),
        sources,
    })
}

/// The command of a word and at most three names.
fn of_few<'a>(word: &str, names: &'a [String]) -> Option<Request<'a>>
    ensures asked { option_map asked result ≡ of_few word.now (map string_bytes names.now) }
    ensures can { IfSome result CanRun }
{
    match names {
        [messages] => (word == "decode").then_some(Request::Decode(messages.as_str())),
        [first, second] => of_two(word, first.as_str(), second.as_str()),
        [first, second, third] => of_three(word, first.as_str(), second.as_str(), third.as_str()),
        _ => None,
    }
}

/// The command of a word and two names.
fn of_two<'a>(word: &str, first: &'a str, second: &'a str) -> Option<Request<'a>>
    ensures asked { option_map asked result ≡ of_few word.now (first.now ∷ second.now ∷ []) }
    ensures can { IfSome result CanRun }
{
    let files = PairNames {
        source: first,
        target: second,
    };
    match word {
        "migrate" => Some(Request::Migrate(files)),
        "unbundle" => Some(Request::Unbundle(files)),
        "recall" => Some(Request::Recall(files)),
        "explain" => Some(Request::Explain(RecordingNames {
            config: first,
            journal: second,
        })),
        _ => None,
    }
}

/// The command of a word and three names.
fn of_three<'a>(word: &str, first: &'a str, second: &'a str, third: &'a str) -> Option<Request<'a>>
    ensures asked { option_map asked result ≡ of_few word.now (first.now ∷ second.now ∷ third.now ∷ []) }
    ensures can { IfSome result CanRun }
{
    match word {
        "check" => Some(Request::Check(CheckNames {
            from: RecordingNames {
                config: first,
                journal: second,
            },
            messages: third,
        })),
        "keep" => Some(Request::Keep(KeepNames {
            disk: first,
            from: RecordingNames {
                config: second,
                journal: third,
            },
        })),
        _ => None,
    }
}
