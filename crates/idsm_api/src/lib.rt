//! One manager and its callers, each as a value of its own that may be given to another thread.
//!
//! Layer 8, reports. Over `main_function` with `event_chain`, `report_api` and `config_json`; whoever uses the library
//! in Rattle begins here, as `first_report` does, and the C interface keeps one of these in each of its handles.
//! A caller and the manager bring what they share, so that no call names it and none can name another's. What a caller
//! did stands in `specs/Callers.antt`, what holds between two calls in `specs/Roles.antt`, and each answer with its cause
//! in `specs/Calls.antt`, `specs/Turning.antt`, `specs/Closing.antt` and `specs/Reading.antt`. Each answer has a number
//! (`specs/Answers.antt`).
//! No call but `Manager::make` takes memory. Only tests show that a manager is made while memory is ample (test_reports).
#![tactic(auto)]

mod answer;
mod caller;
mod closing;
mod laws;
mod making;
mod manager;
mod number;
mod reading;
mod role;
mod sharing;
mod text;
mod turning;
mod writing;

pub use answer::Answer;
pub use caller::Caller;
pub use closing::CloseAnswer;
pub use config_json::JsonFault;
pub use ids_config::Config;
pub use ids_types::{EventIndex, Mode, NoMemory, Stamp};
pub use laws::called_on;
pub use main_function::Totals;
pub use making::{Setup, With};
pub use manager::Manager;
pub use number::NumberAnswer;
pub use reading::{RowAnswer, RowTold, Status};
pub use role::Role;
pub use sharing::roles_may_be_given;
pub use turning::{Told, TurnAnswer};
