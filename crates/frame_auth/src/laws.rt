//! What sealing and unsealing give is decided by the key, the start and the bytes. So an answer comes
//! exactly where its definition holds, want of memory aside.
ghost use Rattle.std.specs.Prelude.{◌≡◌, ◌≢◌, ◌↔◌, ℕ, ◌+◌, ◌<◌, ◌^◌, List, length, AllPairs, Result, Ok};
ghost use Rattle.ids_frame.specs.{AreBytes, MessageParts, joined};
ghost use Rattle.frame_auth.specs.{SealFault, SealIntoFault, UnsealFault, GivesSealed, PutsSealed, GivesUnsealed, AreOf, AnswersInOrder, ArePlain, sealed_from};

/// What was sealed unseals to the same bytes.
#[tactic(auto, using(crate::proofs::OneAnswer::sealed_opens_lem))]
pub fn sealed_opens()
    ensures { (key : List ℕ) (start : ℕ) (bytes out : List ℕ) → GivesSealed key start bytes (Ok out) → GivesUnsealed key start out (Ok bytes) }
{}

/// Sealing gives one answer.
#[tactic(auto, using(crate::proofs::OneAnswer::one_sealing_lem))]
pub fn one_sealing()
    ensures { (key : List ℕ) (start : ℕ) (bytes : List ℕ) (a b : Result (List ℕ) SealFault)
        → AreBytes bytes → GivesSealed key start bytes a → GivesSealed key start bytes b → a ≡ b }
{}

/// Sealing into a buffer puts one thing, or nothing for one reason.
#[tactic(auto, using(crate::proofs::IntoLemmas::one_sealing_into_lem))]
pub fn one_sealing_into()
    ensures { (key : List ℕ) (start room : ℕ) (bytes : List ℕ) (a b : Result (List ℕ) SealIntoFault)
        → AreBytes bytes → PutsSealed key start room bytes a → PutsSealed key start room bytes b → a ≡ b }
{}

/// Unsealing gives one answer.
#[tactic(auto, using(crate::proofs::OneAnswer::one_unsealing_lem))]
pub fn one_unsealing()
    ensures { (key : List ℕ) (start : ℕ) (bytes : List ℕ) (a b : Result (List ℕ) UnsealFault)
        → AreBytes bytes → GivesUnsealed key start bytes a → GivesUnsealed key start bytes b → a ≡ b }
{}

/// A sealed message that is left out, repeated or moved within its list is refused, and by its counter.
/// Only messages left out at the end are not seen. `apart`: no message of a sealed list is another.
#[tactic(auto, using(crate::proofs::OrderLemmas::in_order_lem, crate::proofs::OrderLemmas::apart_lem))]
pub fn only_the_first_of_a_sealed_list_are_taken()
    ensures answers { (key : List ℕ) (start : ℕ) (signed messages : List MessageParts) (answer : Result (List ℕ) UnsealFault)
        → ArePlain signed → start + length signed < 2 ^ 64 → AreOf (sealed_from key start signed) messages
        → GivesUnsealed key start (joined messages) answer ↔ AnswersInOrder key start signed messages answer }
    ensures apart { (key : List ℕ) (start : ℕ) (signed : List MessageParts) → ArePlain signed → start + length signed < 2 ^ 64
        → AllPairs (◌≢◌) (sealed_from key start signed) }
{}
