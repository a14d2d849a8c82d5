//! What a line in form tells, its numbers not yet in their ranges and its context still as text.

use crate::claims::Claims;
use ids_types::{Mode, Stamp};
use text_spec::HexText;

/// The context of a report.
#[derive(Debug, Drop)]
pub(crate) enum RawContext<'a> {
    Absent,
    Kept {
        class: u64,
        claim: u64,
        bytes: HexText<'a>,
    },
    Missing(Claims<'a>),
}

/// A report.
#[derive(Debug, Drop)]
pub(crate) struct RawReport<'a> {
    pub(crate) caller: u64,
    pub(crate) call: u64,
    pub(crate) event: u64,
    pub(crate) count: u64,
    pub(crate) stamp: Option<Stamp>,
    pub(crate) context: RawContext<'a>,
}

/// What a control asks for.
#[derive(Clone, Copy, Debug)]
pub(crate) enum RawChange {
    State(u64),
    SetMode { event: u64, mode: Mode },
}

/// A control.
#[derive(Clone, Copy, Debug)]
pub(crate) struct RawControl {
    pub(crate) caller: u64,
    pub(crate) call: u64,
    pub(crate) change: RawChange,
}

/// A call that found no event buffer.
#[derive(Clone, Copy, Debug)]
pub(crate) struct RawLoss {
    pub(crate) caller: u64,
    pub(crate) call: u64,
    pub(crate) given: u64,
}
