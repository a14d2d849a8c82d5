//! What messages and records tell of each event.

ghost use Rattle.std.specs.Prelude.{◌≡◌, ◌<◌, length, map, All, IfOk};
ghost use Rattle.message_sender.specs.Sources.{HasSixBits, IsNamed, source_in, source_of};

use ids_config::{Config, EventParts};
use ids_types::{EventIndex, NoMemory};
use std::alloc::{AllocError, Global};
use std::marker::Model;

/// What messages and records tell of an event, and where it goes.
#[derive(Clone, Copy, Debug, PartialEq, Eq)]
pub struct Source {
    pub id: u16,
    /// 0 to 63.
    pub sensor: u8,
    /// The version of its context data.
    pub version: u8,
    /// Whether it is sent.
    pub send: bool,
    /// Whether the event memory stores it.
    pub store: bool,
}

/// The source of each event.
#[derive(Debug, Drop)]
pub struct Sources {
    sources: Vec<Source>,
}

impl Model for Sources {
    ghost use Rattle.std.specs.Prelude.{List, All};
    ghost use Rattle.message_sender.specs.declared.sources.Source.{Source};

    ghost Value = { List Source };

    ghost use Rattle.message_sender.specs.Sources.{HasSixBits};

    ghost view = { λ s. s.sources.items };

    ghost invariant = { λ s. All HasSixBits s.sources.items };
}

impl Sources {
    /// Those of a configuration.
    /// Steps: the events, at most 256. Memory: made once. By: read off.
    pub fn make(alloc: Global, config: &Config) -> Result<Sources, NoMemory>
        ensures { IfOk result (λ sources. sources ≡ map source_of config.now.events) }
    {
        let sources = sources_of(alloc, &config.parts().events)?;
        Ok(Sources { sources })
    }

    /// The source of an event.
    pub fn of(&self, event: EventIndex) -> Source
        requires { event.0 < length self.now }
        ensures source { result ≡ source_in self.now event.0 }
        ensures six_bits { HasSixBits result }
    {
        self.sources[usize::from(event.0)]
    }
}

fn sources_of(alloc: Global, events: &[EventParts]) -> Result<Vec<Source>, AllocError>
    requires { All IsNamed events.now }
    ensures events { IfOk result (λ sources. sources.items ≡ map source_of events.now) }
    ensures six_bits { IfOk result (λ sources. All HasSixBits sources.items) }
{
    events.iter().map(source_of).collect(alloc)
}

fn source_of(event: &EventParts) -> Source
    requires { IsNamed event.now }
    ensures { result ≡ source_of event.now }
{
    Source {
        id: event.id as u16,
        sensor: event.sensor as u8,
        version: event.version as u8,
        send: event.send,
        store: event.store,
    }
}
