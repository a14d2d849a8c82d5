//! What the gate says to an item.

use chain_spec::Fate;

/// What becomes of an item. `context` says whether it keeps its context data, as it does under a detailed
/// mode.
#[derive(Clone, Copy, Debug, PartialEq, Eq)]
pub enum Verdict {
    /// It goes no further: its fate is the first of the three steps that holds it.
    Held(Fate),
    /// It qualifies at once, and no other filter sees it.
    Bypass { context: bool },
    /// It goes on to the next filter.
    Pass { context: bool },
}
