//! What became of each item of a recorded history, and the account of each event, as a text.
//!
//! Layer 7, the chain. Over `ids_types`, `ids_config`, `text_spec`, `journal`, `chain_spec`, `event_chain` and
//! `chain_plain`; the command `explain` puts the text. A chain takes the history turn by turn, and a listener hears
//! what became of each item (`specs/Hearing.antt`); the text is that of the definitions (`specs/ExplainedText.antt`).
//! Memory is taken for what is heard, for the accounts and the text, and once for the largest turn.
#![tactic(auto)]

mod account;
mod explaining;
mod lines;
mod turns;

pub use explaining::explain;
