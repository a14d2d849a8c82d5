//! The calls by which sensors report security events and controls, from any thread and without a lock, and the
//! desk at which the one who takes them sits.
//!
//! Layer 8, reports. Over `report_queue`, `buffer_classes` and `ids_config`; the main function takes from the
//! desk. Contracts see a pass by its calls and what became of each (`specs/Passes.antt`), and say each answer with
//! its cause (`specs/Answers.antt`). What the calls asked of the classes of context data buffers stands on the
//! pass too: from it follows, once all passes are back, that every missing context was legal.
//! Only tests show that a report is accepted while buffers are free, and that threads run together.
#![tactic(auto)]

mod answer;
mod control;
mod desk;
mod making;
mod pass;
mod report;
mod shared;
mod sharing;
mod terms;

pub use answer::{Control, Report};
pub use buffer_classes::{CtxBuf, Look, Looks};
pub use desk::Desk;
pub use making::{Parts, make};
pub use pass::Pass;
pub use report_queue::{Item, Unready};
pub use shared::{Reports, Shared};
pub use sharing::parts_may_be_shared;
pub use terms::ReportTerms;
