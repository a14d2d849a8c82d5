//! The messages that are sent, and how many items are held back.

ghost use Rattle.std.specs.Prelude.{◌≡◌, ◌<◌, ◌≤◌, ◌-◌, ◌^◌, length, option_copied, option_map, IfSome};
ghost use Rattle.ids_types.specs.Output.{has_sent};
ghost use Rattle.ids_config.specs.Parts.{Parts, event_at};
ghost use Rattle.ids_frame.specs.{context_of, spelling};
ghost use Rattle.chain_spec.specs.{byte_7, message_of};
ghost use Rattle.message_sender.specs.{HasSixBits, IsSenderOf, IsShort, message_by, most_message, source_of, with_held, with_held_back, TakesOne};

use crate::report::Report;
use crate::sources::Source;
use ids_config::Config;
use ids_frame::{Context, Message, spell};
use ids_types::{EventIndex, TurnOut};
use std::marker::Model;

/// What sends: it knows what all messages say of their source, and counts what the limits held back since a turn began.
#[derive(Debug, Drop)]
pub struct Sender {
    /// The version of the message's layout, 1 or 2.
    profile: u8,
    /// 0 to 1,023.
    instance: u16,
    /// The event that reports what was held back, which itself does not count.
    limited: Option<u64>,
    /// At most 2^45.
    held: u64,
}

impl Model for Sender {
    ghost use Rattle.message_sender.specs.Sender.{SenderParts};

    ghost Value = { SenderParts };

    ghost use Rattle.message_sender.specs.SenderView.{sender_of, IsSoundSender};

    ghost view = { sender_of };

    ghost invariant = { IsSoundSender };
}

impl Sender {
    /// The sender of a configuration, before any item. Takes no memory.
    pub fn make(config: &Config) -> Sender
        ensures is { IsSenderOf config.now result }
        ensures none { result.held ≡ 0 }
    {
        let parts = config.parts();
        Sender {
            profile: parts.profile as u8,
            instance: parts.instance as u16,
            limited: parts.limited,
            held: 0,
        }
    }

    /// A turn begins: nothing is held back in it yet.
    pub fn begin(&mut self)
        ensures { self.new ≡ with_held 0 self.old }
    {
        self.held = 0;
    }

    /// Sends the message of an item.
    /// Steps: the bytes of the message, at most 1,044, copied once. By: read off.
    pub fn send(&self, source: Source, report: &Report<'_>, out: &mut TurnOut)
        requires source { HasSixBits source }
        requires context { IfSome report.now.context IsShort }
        requires room { most_message report.now.context ≤ out.old.sent_left }
        requires few_messages { out.old.messages < 2 ^ 32 - 1 }
        ensures sent { (config : Parts) → IsSenderOf config self.now → source ≡ source_of (event_at config report.now.event)
            → out.new ≡ has_sent (spelling (message_of config report.now)) out.old }
        ensures one { TakesOne (most_message report.now.context) out.old out.new }
    {
        let message = self.message(source, report);
        spell(&message, out);
        out.end_message();
    }

    /// Counts an item of the event that a limit held back, unless the event is the one that reports these.
    pub fn hold_back(&mut self, event: EventIndex)
        requires { self.old.held < 2 ^ 45 }
        ensures { self.new ≡ with_held_back event.0 self.old }
    {
        if self.limited != Some(u64::from(event.0)) {
            self.held += 1;
        }
    }

    /// How many items the limits held back since the turn began: what it hands on to the next.
    pub fn limited(&self) -> u64
        ensures value { result ≡ self.now.held }
        ensures bound { result ≤ 2 ^ 45 }
    {
        self.held
    }

    // The message of an item.
    #[tactic(auto, using(crate::proofs::MessageLemmas::message_is_short))]
    fn message<'a>(&self, source: Source, report: &Report<'a>) -> Message<'a>
        requires source { HasSixBits source }
        requires context { IfSome report.now.context IsShort }
        ensures parts { result ≡ message_by self.now source report.now }
        ensures short { length (spelling result) ≤ most_message report.now.context }
    {
        Message::make(
            self.profile,
            self.instance,
            source.sensor,
            source.id,
            report.count,
            byte_7(self.profile, source.version, &report.context),
            report.stamp,
            context_of(report.context),
            None,
        )
        .unwrap()
    }
}

// The context that a message takes along.
fn context_of<'a>(context: Option<&'a [u8]>) -> Option<Context<'a>>
    requires { IfSome (option_copied context) IsShort }
    ensures { result ≡ option_map context_of (option_copied context.entry) }
{
    match context {
        Some(bytes) => Some(Context::of(bytes)),
        None => None,
    }
}

// The message's byte 7: the version of the context data, if the second profile is configured and there is a context.
fn byte_7(profile: u8, version: u8, context: &Option<&[u8]>) -> u8
    ensures { result ≡ byte_7 profile version (option_copied context.now) }
{
    match context {
        Some(_) if profile == 2 => version,
        _ => 0,
    }
}
