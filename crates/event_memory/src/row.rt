use ids_types::{Key, Stamp};

/// A record of the memory: how often its event occurred, and what its last item told.
#[derive(Clone, Copy, Debug)]
pub struct Row<'a> {
    pub key: Key,
    /// The sum of the items' counts, saturating at 65,535.
    pub occurrences: u16,
    /// The tick of the first item.
    pub first: u64,
    /// The tick of the last item.
    pub last: u64,
    pub stamp: Option<Stamp>,
    /// No bytes where the last item had no context data.
    pub context: &'a [u8],
}
