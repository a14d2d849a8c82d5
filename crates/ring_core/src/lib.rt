//! A ring of positions that many seats claim and one keeper offers again, as a machine of atomic steps.
//!
//! Layer 2, shared rings. Stands on nothing; the ring that threads share does the same steps on
//! atomic words and is proved against this machine. Contracts see a `RingState` as its numbers, a
//! step as an equation between two states, and what holds between any two steps as `IsRing`. No
//! clause says who makes the next step.
#![tactic(auto)]

mod fault;
mod laws;
mod loss;
mod memory;
mod running;
mod seat;
mod state;
mod step;
mod word;

pub use fault::RunFault;
pub use laws::{
    each_run_ends_in_a_ring, each_step_keeps_a_ring, none_free_means_all_claimed,
    one_ticket_a_position, tries_of_an_offer_are_bounded, words_can_be_packed,
};
pub use loss::LossWord;
pub use memory::NoMemory;
pub use running::run;
pub use seat::{SeatView, Ticket0};
pub use state::RingState;
pub use step::{NotPossible, Step};
pub use word::PermitWord;
