//! The words of commands of which not every word names a file.

ghost use Rattle.std.specs.Prelude.{◌≡◌, ◌≤◌, ◌^◌, map, option_map, string_bytes, IfSome};
ghost use Rattle.cmd_words.specs.Command.{export_in, format_of, keyed_in, number_between, pair_in, sized_in};
ghost use Rattle.text_spec.specs.Numbers.{capped, number_in};
ghost use Rattle.cmd_words.specs.CommandView.{exported_of, keyed_of, pair_of, sized_of};

use crate::differing::{may_precede, names_differ};
use crate::files::{ExportNames, KeyedNames, PairNames, SizedNames};
use message_export::Format;
use text_spec::Words;

/// The greatest counter with which a file of messages may begin.
const LAST_START: u64 = 1 << 62;

/// How many bytes of messages a unit may have, at least and at most.
const LEAST_SIZE: u64 = 64;

const MOST_SIZE: u64 = 65_535;

/// Two names that differ.
fn pair(words: &[String]) -> Option<PairNames<'_>>
    ensures { option_map pair_of result ≡ pair_in (map string_bytes words.now) }
{
    let [source, target] = words else {
        return None;
    };
    if !names_differ(words) {
        return None;
    }
    Some(PairNames {
        source: source.as_str(),
        target: target.as_str(),
    })
}

/// A key, a counter and two more files.
pub(crate) fn keyed(words: &[String]) -> Option<KeyedNames<'_>>
    ensures asked { option_map keyed_of result ≡ keyed_in (map string_bytes words.now) }
    ensures can { IfSome result (λ names. names.start ≤ 2 ^ 62) }
{
    let [key, start, names @ ..] = words else {
        return None;
    };
    let start = number(start.as_str(), 0, LAST_START)?;
    let files = pair(names)?;
    if !may_precede(key.as_str(), names) {
        return None;
    }
    Some(KeyedNames {
        key: key.as_str(),
        start,
        files,
    })
}

/// A size and two files.
pub(crate) fn sized(words: &[String]) -> Option<SizedNames<'_>>
    ensures asked { option_map sized_of result ≡ sized_in (map string_bytes words.now) }
    ensures can { IfSome result (λ names. 64 ≤ names.size) }
{
    let (size, names) = words.split_first()?;
    Some(SizedNames {
        size: number(size.as_str(), LEAST_SIZE, MOST_SIZE)? as u16,
        files: pair(names)?,
    })
}

/// A format and a file.
pub(crate) fn exported(words: &[String]) -> Option<ExportNames<'_>>
    ensures { option_map exported_of result ≡ export_in (map string_bytes words.now) }
{
    let [format, messages] = words else {
        return None;
    };
    let format = format_of(format.as_str())?;
    if messages.is_empty() {
        return None;
    }
    Some(ExportNames {
        format,
        messages: messages.as_str(),
    })
}

fn format_of(word: &str) -> Option<Format>
    ensures { result ≡ format_of word.now }
{
    match word {
        "json" => Some(Format::Json),
        "pcap" => Some(Format::Pcap),
        _ => None,
    }
}

/// The number of a word, from the least to the most: `0`, or a digit 1 to 9 followed by digits.
#[tactic(auto, using(crate::proofs::NumberLemmas::ranged))]
fn number(word: &str, least: u64, most: u64) -> Option<u64>
    requires { most ≤ 2 ^ 62 }
    ensures { result ≡ number_between least most word.now }
{
    let number = any_number(word)?;
    (least <= number && number <= most).then_some(number)
}

/// The number of a word, 2^64 - 1 where it is greater.
fn any_number(word: &str) -> Option<u64>
    ensures { result ≡ option_map capped (number_in word.now) }
{
    let (number, behind) = Words::of(word.as_bytes()).any_number()?;
    behind.ended(number)
}
