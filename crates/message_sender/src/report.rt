//! An item of a turn, with its context data lent.

ghost use Rattle.std.specs.Prelude.{◌≡◌, IfSome};
ghost use Rattle.ids_config.specs.Parts.{Parts};
ghost use Rattle.chain_spec.specs.{weighed};
ghost use Rattle.message_sender.specs.{IsShort};

use ids_types::{EventIndex, Stamp};
use std::marker::Model;

/// An item of a turn, with context data that are lent for the time of a call.
#[derive(Debug, Drop)]
pub struct Report<'a> {
    pub tick: u64,
    pub event: EventIndex,
    pub count: u16,
    pub stamp: Option<Stamp>,
    pub context: Option<&'a [u8]>,
}

impl<'a> Model for Report<'a> {
    ghost use Rattle.chain_spec.specs.Items.{Item};

    ghost Value = { Item };

    ghost use Rattle.message_sender.specs.ReportView.{item_of};

    ghost view = { item_of };
}

impl Report<'_> {
    /// How many bytes its message has, which hang on its stamp and its context data alone: 8 to 1,044.
    #[tactic(auto, using(crate::proofs::MessageLemmas::length_is))]
    pub fn message_len(&self) -> u32
        requires { IfSome self.now.context IsShort }
        ensures { (config : Parts) → result ≡ (weighed config self.now).bytes }
    {
        let event_len = if self.stamp.is_some() { 16 } else { 8 };
        match self.context {
            Some(bytes) if bytes.len() <= 127 => event_len + 1 + bytes.len() as u32,
            Some(bytes) => event_len + 4 + bytes.len() as u32,
            None => event_len,
        }
    }
}
