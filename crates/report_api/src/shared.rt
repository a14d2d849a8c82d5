//! What all passes and the desk share.

use crate::terms::ReportTerms;
use buffer_classes::{Classes, CtxBuf};
use ids_types::Act;
use report_queue::{Cargo, Queue};

/// What the queue of reports carries: acts in boxes that go round between the positions, the passes and the desk, so
/// that a call moves a pointer and not an act. It has no values.
pub struct Reports;

impl Cargo for Reports {
    ghost use Rattle.report_api.specs.Terms.{AdmitsAct};

    type Load = Box<Act<CtxBuf>>;

    type Terms = ReportTerms;

    type Note = Act<CtxBuf>;

    ghost note = { λ load. load.value };

    ghost admits_note = { AdmitsAct };
}

/// The event buffers and the context data buffers of one manager, which its passes and its desk share.
#[derive(Drop)]
pub struct Shared {
    pub(crate) queue: Queue<Reports>,
    pub(crate) classes: Classes,
    pub(crate) terms: ReportTerms,
}
