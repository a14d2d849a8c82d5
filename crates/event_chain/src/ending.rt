//! What became of an item.

ghost use Rattle.std.specs.Prelude.{◌≡◌};
ghost use Rattle.event_chain.specs.Names.{by_window, reaches};
ghost use Rattle.event_chain.specs.Told.{ending_of, told};

use chain_spec::Fate;
use ids_types::EventIndex;

/// An item with its fate: one that came, or one that a window gave when it closed.
#[derive(Clone, Copy, Debug, PartialEq, Eq)]
pub struct Ending {
    pub event: EventIndex,
    pub count: u16,
    /// Where its way began: at the mode if it came, at the sending if it bypasses the filters, and at the threshold if a
    /// window gave it.
    pub first: Fate,
    pub fate: Fate,
}

impl Ending {
    /// Whether a window gave its item: then its way began after the windows.
    pub fn by_window(&self) -> bool
        ensures { result ≡ by_window (ending_of self.now) }
    {
        self.first.place() == Fate::AtThreshold.place()
    }

    /// Whether its item came to a step.
    pub fn reached(&self, step: Fate) -> bool
        ensures { result ≡ reaches step (ending_of self.now) }
    {
        self.first.place() <= step.place() && step.place() <= self.fate.place()
    }
}

/// The ending of an item of which only its event and its count are told.
pub(crate) fn ended(event: EventIndex, count: u16, first: Fate, fate: Fate) -> Ending
    ensures { ending_of result ≡ told event.0 count first fate }
{
    Ending {
        event,
        count,
        first,
        fate,
    }
}
