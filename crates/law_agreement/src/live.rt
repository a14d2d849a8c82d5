//! What a manager wrote while it ran: the function has a law as its contract, and no body.

ghost use Rattle.std.specs.Prelude.{[], ◌≡◌, ◌≤◌, ◌∷◌, ◌++◌, take};
ghost use Rattle.chain_spec.specs.Chain.{IsCausal};
ghost use Rattle.chain_spec.specs.Quiet.{HaveIntervals, IsQuiet, TellTheSame};
ghost use Rattle.cmd_spec.specs.Names.{told};
ghost use Rattle.cmd_steps.specs.Words.{EndsWith, Heard, List, Ok, Parts, RanCommand, Shelved, Turn, check, folded_in, length, reverse, ℕ};
ghost use Rattle.cmd_words.specs.Command.{CheckFiles};
ghost use Rattle.journal.specs.Fitting.{AreInRange};
ghost use Rattle.journal.specs.Printing.{turns_text};
ghost use Rattle.law_agreement.specs.Live.{HoldTurns, MakeAJournal};
ghost use Rattle.law_closing.specs.Calls.{HaveAllCalls};
ghost use Rattle.report_api.specs.Names.{PassMemo};

/// The turns of a manager that was closed make a journal, and what it wrote turn by turn is the journal's text. So is each
/// beginning of it by turns: `fold` reads just them, without losses, and `check` finds the messages that they sent the same.
/// Want of memory, a read or a put that fails can end `check` with another status, and nothing else can. A quiet turn may be
/// left out: the others make a journal, too, and tell the same.
pub fn what_a_closed_manager_wrote_is_its_journal()
    ensures closed { (config : Parts) (passes : List PassMemo) (turns : List Turn) → length config.events ≤ 256 →
        AreInRange config turns → IsCausal config (reverse turns) → HaveAllCalls config passes turns → MakeAJournal config turns }
    ensures whole { (config : Parts) (turns : List Turn) → MakeAJournal config turns →
        folded_in config (turns_text turns) ≡ Ok (told turns []) }
    ensures cut { (config : Parts) (turns : List Turn) (k : ℕ) → MakeAJournal config turns →
        folded_in config (turns_text (take k turns)) ≡ Ok (told (take k turns) []) }
    ensures checks { (config : Parts) (turns : List Turn) (k : ℕ) (names : CheckFiles)
        (found new : Shelved) (status : ℕ) (before after : Heard) → MakeAJournal config turns →
        HoldTurns names config (take k turns) found → RanCommand (check names) status found new before after →
        EndsWith 0 (check names) status found new before after }
    ensures quiet { (config : Parts) (front back : List Turn) (turn : Turn) → HaveIntervals config →
        MakeAJournal config (front ++ turn ∷ back) → IsQuiet config (reverse front) turn →
        MakeAJournal config (front ++ back) × TellTheSame config (reverse (front ++ turn ∷ back)) (reverse (front ++ back)) }
{}
