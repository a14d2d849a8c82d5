//! Which journals `fold` takes.

ghost use Rattle.std.specs.Prelude.{◌↔◌, ◌≡◌, ◌≤◌};
ghost use Rattle.cmd_steps.specs.Words.{Err, IsCausal, IsJournal, List, Ok, Parts, Told, folded_in, length, reverse, ℕ};
ghost use Rattle.law_agreement.specs.Causal.{IsFirstUncausal};

/// `fold` takes exactly the journals of causal histories. Of any other journal it tells fault 8, at the line of the first
/// turn that begins with another number than the one before it handed on. The configuration has at most 256 events, as each
/// that is valid has.
pub fn fold_takes_what_is_causal()
    ensures takes { (config : Parts) (text : List ℕ) (told : Told) → length config.events ≤ 256
        → (folded_in config text ≡ Ok told) ↔ (IsJournal config text told × IsCausal config (reverse told.turns)) }
    ensures refuses { (config : Parts) (text : List ℕ) (told : Told) (line : ℕ) → length config.events ≤ 256 → IsJournal config text told
        → (folded_in config text ≡ Err (record { line = line; fault = 8 })) ↔ IsFirstUncausal config told.turns line }
{}
