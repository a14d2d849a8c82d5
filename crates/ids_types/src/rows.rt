use crate::entry::TurnHead;
use crate::mode::Mode;

/// A turn of a history: its head, and where its entries lie among all of them.
#[derive(Debug, Drop)]
pub(crate) struct TurnRow {
    pub(crate) head: TurnHead,
    pub(crate) start: usize,
    pub(crate) end: usize,
}

/// An entry of a history, in 24 bytes. What not every entry has stands in two lists beside the rows:
/// its stamp and the numbers of its context, and the context's bytes.
#[derive(Debug, Drop)]
pub(crate) struct EntryRow {
    pub(crate) call: u64,
    /// Where the numbers of its context begin. Its stamp is the number before them.
    pub(crate) place: usize,
    pub(crate) event: u16,
    pub(crate) count: u16,
    pub(crate) caller: u8,
    pub(crate) stamped: bool,
    pub(crate) kind: RowKind,
}

/// What a row tells, apart from its numbers.
#[derive(Clone, Copy, Debug)]
pub(crate) enum RowKind {
    /// A report without context.
    Bare,
    /// A report with context of this class. Three numbers: its claim, and where its bytes begin and end.
    Holding(u8),
    /// A report without a buffer for its context, with so many numbers.
    Lacking(u8),
    /// A change of the state.
    StateTo(u8),
    /// A setting of the event's mode.
    ModeTo(Mode),
}
