//! The journal's text.

ghost use Rattle.std.specs.Prelude.{◌≡◌, ◌≤◌, ◌∷◌, ◌++◌};
ghost use Rattle.text_spec.specs.{AllByRecursion, ℕ, List, true, Some, None, Ok, Err, length, Parts, HasForm, is_in_ranges, line_forms, told_by, BadLine, Fits, Follows, IsJournal, journal_in, Told, Line, lines_told};

/// A text is the journal of one history with its losses at most, and is read as them; a text with a
/// bad line is no journal. A configuration has at most 256 events.
#[tactic(auto, using(crate::proofs::JournalLaws::journal_laws))]
pub fn one_journal_for_a_text()
    ensures one { (config : Parts) (text : List ℕ) (a b : Told) → length config.events ≤ 256 →
        IsJournal config text a → IsJournal config text b → a ≡ b }
    ensures read { (config : Parts) (text : List ℕ) (told : Told) → length config.events ≤ 256 →
        IsJournal config text told → journal_in config text ≡ Ok told }
    ensures only { (config : Parts) (text : List ℕ) (told : Told) → length config.events ≤ 256 →
        journal_in config text ≡ Ok told → IsJournal config text told }
    ensures bad { (config : Parts) (text : List ℕ) (bad : BadLine) → length config.events ≤ 256 →
        journal_in config text ≡ Err bad → (told : Told) → IsJournal config text told → ⊥ }
{}

/// The words of a line tell something exactly where they are those of one of the five forms: a number
/// of any length, a timestamp, a context and so on, each at its place. So fault 1 is a line without a
/// form, and no other.
pub fn which_lines_have_a_form()
    ensures told { (words : List (List ℕ)) (line : Line) → told_by words ≡ Some line →
        HasForm line_forms words }
    ensures none { (words : List (List ℕ)) → told_by words ≡ None → HasForm line_forms words → ⊥ }
{}

/// What turns and losses that fit a configuration keep. Every number is in its range and every event may stand there.
/// Of any two lines the later one follows the earlier, and a turn has at most 1,024 entries.
#[tactic(auto, using(crate::proofs::JournalFits::all_in_ranges, crate::proofs::JournalFits::in_order, crate::proofs::JournalFits::turns_few))]
pub fn what_a_fitting_journal_keeps()
    ensures ranges { (config : Parts) (told : Told) → Fits config told →
        AllByRecursion (λ line. is_in_ranges config line ≡ true) (lines_told told) }
    ensures order { (config : Parts) (told : Told) (before middle behind : List Line)
        (first last : Line) → Fits config told →
        lines_told told ≡ before ++ first ∷ (middle ++ last ∷ behind) → Follows first last }
    ensures few { (config : Parts) (told : Told) → Fits config told →
        AllByRecursion (λ turn. length turn.entries ≤ 1024) told.turns }
{}
