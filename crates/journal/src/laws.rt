//! Which journals there are, and how they grow.

ghost use Rattle.std.specs.Prelude.{◌≡◌, ◌≤◌, ℕ, List, [], ◌∷◌, ◌++◌, length, take, true, ◌↔◌};
ghost use Rattle.history_spec.specs.{RiseFrom, calls_of};
ghost use Rattle.ids_config.specs.Parts.{Parts};
ghost use Rattle.ids_types.specs.{Turn, entries_of};
ghost use Rattle.ids_types.specs.declared.loss.Loss.{Loss};
ghost use Rattle.text_spec.specs.{Fits, Line, Told, ended_line, fields_of, is_in_ranges, journal_text};
ghost use Rattle.journal.specs.Answers.{told};
ghost use Rattle.journal.specs.Fitting.{AreInRange, IsInOrder};
ghost use Rattle.journal.specs.Printing.{losses_text, most_bytes, turn_text, turns_text};

/// Turns and losses fit a configuration exactly where each of their lines is in range, of any two the later one follows
/// the earlier, and no turn has more than 1,024 entries. So nothing else is asked of a journal.
#[tactic(auto, using(crate::proofs::FittingLemmas::fits_in_order))]
pub fn which_journals_fit()
    ensures { (config : Parts) (told : Told) → Fits config told ↔ IsInOrder config told }
{}

/// The first turns of a journal that fits are one by themselves. Turns that are in range, and in which each caller's
/// calls rise, are one without losses.
pub fn which_turns_fit()
    ensures beginnings { (config : Parts) (turns : List Turn) (losses : List Loss) (k : ℕ) →
        Fits config (told turns losses) → Fits config (told (take k turns) []) }
    ensures in_range { (config : Parts) (turns : List Turn) → AreInRange config turns →
        ((caller : ℕ) → RiseFrom 0 (calls_of caller (entries_of turns))) → Fits config (told turns []) }
{}

/// A journal is the texts of its turns one after another, and then that of its losses.
#[tactic(auto, using(crate::proofs::PrintingLemmas::by_turns))]
pub fn a_journal_is_printed_turn_by_turn()
    ensures whole { (turns : List Turn) (losses : List Loss) →
        journal_text (told turns losses) ≡ turns_text turns ++ losses_text losses }
    ensures more { (turns : List Turn) (turn : Turn) →
        turns_text (turns ++ turn ∷ []) ≡ turns_text turns ++ turn_text turn }
{}

/// How many bytes a line has at most whose numbers are in their ranges. A configuration has at most 256 events.
#[tactic(auto, using(crate::proofs::LengthLemmas::line_is_short))]
pub fn how_long_a_line_is()
    ensures { (config : Parts) (line : Line) → length config.events ≤ 256 → is_in_ranges config line ≡ true →
        length (ended_line (fields_of line)) ≤ most_bytes line }
{}
