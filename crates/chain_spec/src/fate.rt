//! Where the way of an item ends, and the words for it.

ghost use Rattle.std.specs.Prelude.{◌≡◌, ◌<◌};
ghost use Rattle.chain_spec.specs.Fates.{fate_name, is_qualified, place_of};

/// Where the way of an item ends: at the step that holds it, in the order of the steps (AUTOSAR SWS Intrusion Detection
/// System Manager, filter chain), or in a message.
#[derive(Clone, Copy, Debug, PartialEq, Eq)]
pub enum Fate {
    /// Its event's reporting mode is OFF.
    AtMode,
    /// The state blocks its event.
    AtBlock,
    /// It is not an nth one.
    AtNth,
    /// It joined its event's aggregation window.
    InWindow,
    /// Its event's threshold is not reached.
    AtThreshold,
    /// It is qualified, and its event is not to be sent.
    AtSend,
    /// The rate has no room for its message.
    AtRate,
    /// The rate has room for its message, and the traffic has none.
    AtTraffic,
    /// Its message is sent.
    Sent,
}

/// How many steps there are.
pub const STEPS: usize = 9;

/// Every fate, in the order of the steps.
pub const FATES: [Fate; STEPS] = [
    Fate::AtMode,
    Fate::AtBlock,
    Fate::AtNth,
    Fate::InWindow,
    Fate::AtThreshold,
    Fate::AtSend,
    Fate::AtRate,
    Fate::AtTraffic,
    Fate::Sent,
];

impl Fate {
    /// The place of its step on the way, from 0.
    pub fn place(self) -> usize
        ensures place { result ≡ place_of self }
        ensures below { result < 9 }
    {
        self as usize
    }

    /// The word for it in texts.
    pub fn name(self) -> &'static str
        ensures { result.now ≡ fate_name self }
    {
        match self {
            Fate::AtMode => "mode",
            Fate::AtBlock => "block",
            Fate::AtNth => "nth",
            Fate::InWindow => "aggregate",
            Fate::AtThreshold => "threshold",
            Fate::AtSend => "unsent",
            Fate::AtRate => "rate",
            Fate::AtTraffic => "traffic",
            Fate::Sent => "sent",
        }
    }

    /// Whether its item is qualified: it passed all filters, or bypassed them.
    pub fn is_qualified(self) -> bool
        ensures { result ≡ is_qualified self }
    {
        matches!(
            self,
            Fate::AtSend | Fate::AtRate | Fate::AtTraffic | Fate::Sent
        )
    }
}
