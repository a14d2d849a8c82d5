//! The C interface of the intrusion detection system manager: handles and exported functions, over which
//! the files of `c/` have the calls of `c/idsm_c.h`.
//!
//! Layer 11, the library in use. Over `idsm_api`, whose roles the handles own, `ids_bundle` and `frame_auth`; built as a
//! static library, on which no crate may stand.
//! Contracts see a handle by its content: nothing, or a caller or a manager of which all holds that `idsm_api` says of
//! it between two calls. So no export requires anything: each answers by what the handle has (`specs/Calls.antt`).
//! What C has to keep is what C always keeps, and stands in `c/README.md`. Only `c/check` shows that the library links
//! and runs.
#![tactic(auto)]

mod calls;
mod closing;
mod handle;
mod loose;
mod making;
mod packing;
mod reading;
mod sealing;
mod status;
mod turning;

pub use handle::Handle;
pub use making::Fault;
pub use reading::Row;
pub use sealing::Sealer;
pub use status::Totals;
pub use turning::Sent;
