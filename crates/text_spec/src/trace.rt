//! The trace's text.

ghost use Rattle.std.specs.Prelude.{◌≡◌, ◌≤◌};
ghost use Rattle.text_spec.specs.{ℕ, List, Ok, length, Parts, AreRounds, trace_in, Round, trace_text};

/// The text of rounds that fit a configuration is read as them, and the rounds that a text is read as fit. Each
/// caller has its lines, with every number in its range and every event where it may stand. No tick is below the one
/// before it. A configuration has at most 32 callers and 256 events.
pub fn a_trace_is_read_as_its_rounds()
    ensures read { (config : Parts) (rounds : List Round) → config.callers ≤ 32 →
        length config.events ≤ 256 → AreRounds config rounds →
        trace_in config (trace_text rounds) ≡ Ok rounds }
    ensures fits { (config : Parts) (text : List ℕ) (rounds : List Round) →
        trace_in config text ≡ Ok rounds → AreRounds config rounds }
{}
