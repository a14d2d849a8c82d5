//! What the first word asks for.

ghost use Rattle.std.specs.Prelude.{◌≡◌, ◌||◌, codes, map, string_bytes};
ghost use Rattle.cmd_words.specs.Command.{asks};

/// Whether the words after the program's name ask for a replay: the first of them is `replay`.
/// Steps: one word compared with `replay`. By: read off.
pub fn is_replay(words: &[String]) -> bool
    ensures { result ≡ asks (codes "replay") (map string_bytes words.now) }
{
    asks("replay", words)
}

/// Whether the words after the program's name ask for a report: the first of them is `report`.
/// Steps: one word compared with `report`. By: read off.
pub fn is_report(words: &[String]) -> bool
    ensures { result ≡ asks (codes "report") (map string_bytes words.now) }
{
    asks("report", words)
}

/// Whether the words after the program's name ask for work on a disk: the first of them is `keep` or `recall`.
/// Steps: one word compared with `keep` and `recall`. By: read off.
pub fn is_keep(words: &[String]) -> bool
    ensures { result ≡ asks (codes "keep") (map string_bytes words.now) || asks (codes "recall") (map string_bytes words.now) }
{
    asks("keep", words) || asks("recall", words)
}

/// Whether there is a first word, and it is this one.
fn asks(own: &str, words: &[String]) -> bool
    ensures { result ≡ asks own.now (map string_bytes words.now) }
{
    match words.first() {
        Some(word) => word.as_str() == own,
        None => false,
    }
}
