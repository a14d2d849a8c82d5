//! Whether words are names of different files.

ghost use Rattle.std.specs.Prelude.{◌≡◌, ◌&&◌, not, map, string_bytes, bytes_eq};
ghost use Rattle.std.specs.List.{list_any};
ghost use Rattle.cmd_words.specs.Command.{is_name, are_names};

/// No word is empty, and no two are the same.
pub(crate) fn names_differ(words: &[String]) -> bool
    ensures { result ≡ are_names (map string_bytes words.now) }
{
    let mut left = words;
    while let Some((word, rest)) = left.split_first() {
        if !may_precede(word.as_str(), rest) {
            return false;
        }
        left = rest;
    }
    true
}

/// The word is not empty, and none of these.
#[tactic(auto, using(crate::proofs::CommandLemmas::any_of_mapped))]
pub(crate) fn may_precede(word: &str, names: &[String]) -> bool
    ensures { result ≡ (is_name word.now
        && not (list_any (bytes_eq word.now) (map string_bytes names.now))) }
{
    !word.is_empty() && !is_among(word, names)
}

fn is_among(name: &str, names: &[String]) -> bool
    ensures { result ≡ list_any (λ other. bytes_eq name.now (string_bytes other)) names.now }
{
    names.iter().any(|other| name == other.as_str())
}
