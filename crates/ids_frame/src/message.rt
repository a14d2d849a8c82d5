//! A message that the manager sends for a security event.
ghost use Rattle.std.specs.Prelude.{◌≡◌, ◌≤◌, ◌↔◌, length, IsTrue, IsSome, IfSome, option_copied};
ghost use Rattle.ids_frame.specs.{AreBytes, FitsContext, IsKnown, HasRoom, FitsMessage, has_layout};

use crate::context::Context;
use ids_types::Stamp;
use std::marker::Model;

/// The event message: the event's names and count, and its stamp, context and signature where it
/// has them. The bytes of the context and of the signature stay where they lie.
#[derive(Debug, Drop)]
pub struct Message<'a> {
    version: u8,
    instance: u16,
    sensor: u8,
    event: u16,
    count: u16,
    reserved: u8,
    stamp: Option<Stamp>,
    context: Option<Context<'a>>,
    signature: Option<&'a [u8]>,
}

impl<'a> Model for Message<'a> {
    ghost use Rattle.ids_frame.specs.Message.{MessageParts, FitsMessage};

    ghost Value = { MessageParts };

    ghost use Rattle.ids_frame.specs.MessageView.{parts_of};

    ghost view = { parts_of };

    ghost invariant = { λ m. FitsMessage (parts_of m) };
}

impl<'a> Message<'a> {
    /// A message. `version` is 1 or 2, `instance` 0 to 1,023 and `sensor` 0 to 63, or else the answer is
    /// `None`, as it is for a signature of more than 65,535 bytes. `reserved` is any byte.
    /// By: no loop; context and signature are lent.
    pub fn make(
        version: u8,
        instance: u16,
        sensor: u8,
        event: u16,
        count: u16,
        reserved: u8,
        stamp: Option<Stamp>,
        context: Option<Context<'a>>,
        signature: Option<&'a [u8]>,
    ) -> Option<Message<'a>>
        ensures room { IsSome result
            ↔ IsKnown version × HasRoom instance sensor (option_copied signature.entry) }
        ensures made { IfSome result (λ m. m ≡ record {
          version = version;
          instance = instance;
          sensor = sensor;
          event = event;
          count = count;
          reserved = reserved;
          stamp = stamp;
          context = context.entry;
          signature = option_copied signature.entry;
        }) }
        ensures fits { IfSome result FitsMessage }
    {
        if !is_known(version) || instance > 1023 || sensor > 63 || !has_room(&signature) {
            return None;
        }
        Some(Message {
            version,
            instance,
            sensor,
            event,
            count,
            reserved,
            stamp,
            context,
            signature,
        })
    }

    /// The version of the layout that spells the message, 1 or 2.
    pub fn version(&self) -> u8
        ensures value { result ≡ self.now.version }
        ensures fits { FitsMessage self.now }
    {
        self.version
    }

    /// The number of the manager's instance, 0 to 1,023.
    pub fn instance(&self) -> u16
        ensures value { result ≡ self.now.instance }
        ensures ten_bits { result ≤ 1023 }
    {
        self.instance
    }

    /// The number of the sensor that reported the event, 0 to 63.
    pub fn sensor(&self) -> u8
        ensures value { result ≡ self.now.sensor }
        ensures six_bits { result ≤ 63 }
    {
        self.sensor
    }

    /// The event's definition id.
    pub fn event(&self) -> u16
        ensures { result ≡ self.now.event }
    {
        self.event
    }

    /// How often the event was seen.
    pub fn count(&self) -> u16
        ensures { result ≡ self.now.count }
    {
        self.count
    }

    /// The last byte of the event part: the reserved byte under version 1, which the manager sends as
    /// 0, and the version of the context data under version 2.
    pub fn reserved(&self) -> u8
        ensures { result ≡ self.now.reserved }
    {
        self.reserved
    }

    /// When the event was seen.
    pub fn stamp(&self) -> Option<Stamp>
        ensures { result ≡ self.now.stamp }
    {
        self.stamp
    }

    /// The context, over the same bytes as the message's.
    pub fn context(&self) -> Option<Context<'a>>
        ensures value { result ≡ self.now.context }
        ensures fits { IfSome result FitsContext }
    {
        match &self.context {
            Some(context) => Some(context.again()),
            None => None,
        }
    }

    /// The signature's bytes, which this crate does not read.
    pub fn signature(&self) -> Option<&'a [u8]>
        ensures value { option_copied result ≡ self.now.signature }
        ensures short { IfSome result (λ bytes. length bytes.now ≤ 65535) }
    {
        self.signature
    }
}

/// There is a layout of this version.
pub(crate) fn is_known(version: u8) -> bool
    ensures value { result ≡ has_layout version }
    ensures known { IsTrue result ↔ IsKnown version }
{
    version == 1 || version == 2
}

fn has_room(signature: &Option<&[u8]>) -> bool
    ensures short { IsTrue result ↔ IfSome signature.now (λ bytes. length bytes.now ≤ 65535) }
    ensures bytes { IfSome (option_copied signature.now) AreBytes }
{
    match signature {
        Some(bytes) => is_short(bytes),
        None => true,
    }
}

fn is_short(bytes: &[u8]) -> bool
    ensures short { IsTrue result ↔ (length bytes.now ≤ 65535) }
    ensures bytes { AreBytes bytes.now }
{
    bytes.len() <= 65535
}
