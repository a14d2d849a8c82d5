//! Laws: the forms of a trace's lines, and what a merge gives as a text. Each function has a law as its contract, and no
//! body.

ghost use Rattle.std.specs.Prelude.{◌≡◌, ℕ, List, None, Some};
ghost use Rattle.ids_types.specs.Turns.{Turn};
ghost use Rattle.ids_types.specs.declared.loss.Loss.{Loss};
ghost use Rattle.ids_config.specs.Parts.{Parts};
ghost use Rattle.ids_config.specs.Valid.{IsValid};
ghost use Rattle.history_spec.specs.{IsMerge, Round};
ghost use Rattle.text_spec.specs.{AreExact, AreHeld, AreRounds, Fits, words_of_fields, trace_told_by, TraceLine, trace_fields};
ghost use Rattle.trace_text.specs.Forms.{HasTraceForm};
ghost use Rattle.trace_text.specs.Small.{AreSmall};

/// The words of a line tell something exactly where they are those of one of the five forms: a number of any length,
/// a timestamp, a context and so on, each at its place. So fault 1 of a line is that it has no form, and no other.
/// They are the words that are printed for what they tell, but for a number that is too great. What can be held is
/// read from the words that are printed for it.
pub fn which_lines_of_a_trace_have_a_form()
    ensures told { (words : List (List ℕ)) (line : TraceLine) → trace_told_by words ≡ Some line → HasTraceForm words }
    ensures none { (words : List (List ℕ)) → trace_told_by words ≡ None → HasTraceForm words → ⊥ }
    ensures printed { (words : List (List ℕ)) (line : TraceLine) → trace_told_by words ≡ Some line
        → AreExact (trace_fields line) → words ≡ words_of_fields (trace_fields line) }
    ensures again { (line : TraceLine) → AreHeld (trace_fields line) → AreExact (trace_fields line)
        → trace_told_by (words_of_fields (trace_fields line)) ≡ Some line }
{}

/// Turns and losses that are one merge of a trace's lines are a journal under its configuration: what each of their
/// lines tells can be held, and no line has a fault. The run has to be small enough for a journal's numbers.
pub fn a_merge_fits_its_configuration()
    ensures { (config : Parts) (rounds : List Round) (turns : List Turn) (losses : List Loss) →
        IsValid config → AreRounds config rounds → AreSmall rounds turns → IsMerge config rounds turns losses →
        Fits config (record { turns = turns; losses = losses }) }
{}
