//! What messages weigh: each function has a law as its contract, and no body.

ghost use Rattle.std.specs.Prelude.{◌*◌, ◌≤◌};
ghost use Rattle.cmd_steps.specs.Words.{IsJournal, List, Parts, Told, journal_text, length, messages, reverse, sum_by, ℕ};
ghost use Rattle.ids_frame.specs.Spelling.{spelling};
ghost use Rattle.chain_spec.specs.{sent, Item, message_of, spelled, Moment};
ghost use Rattle.law_agreement.specs.Weights.{weight, moment_weight};

/// The message of an item has at most as many bytes as the item weighs.
#[tactic(auto, using(crate::proofs::ChainLemmas::message_weighs))]
pub fn what_a_message_weighs()
    ensures { (config : Parts) (item : Item) → length (spelling (message_of config item)) ≤ weight item }
{}

/// Whatever the configuration and the ticks, the messages that are sent have at most as many bytes as the items weigh
/// that came. Each item goes into one of them at most, alone or together with others of its event.
#[tactic(auto, using(crate::proofs::ChainLemmas::sent_weighs))]
pub fn the_chain_adds_no_weight()
    ensures { (config : Parts) (moments : List Moment) →
        length (spelled config (sent config moments)) ≤ sum_by moment_weight moments }
{}

/// The messages of turns have at most four times as many bytes as the journal that tells the turns, whatever the
/// losses are that it tells beside them, and whether or not they fit the configuration. A journal has its turns with
/// the oldest first, and `messages` with the newest first.
#[tactic(auto, using(crate::proofs::JournalLemmas::messages_are_short))]
pub fn messages_are_at_most_four_times_their_journal()
    ensures told { (config : Parts) (told : Told) →
        length (messages config (reverse told.turns)) ≤ 4 * length (journal_text told) }
    ensures read { (config : Parts) (text : List ℕ) (told : Told) → IsJournal config text told →
        length (messages config (reverse told.turns)) ≤ 4 * length text }
{}
