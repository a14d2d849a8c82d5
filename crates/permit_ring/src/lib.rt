//! A ring of positions that many seats claim and one keeper offers again, over atomic words and
//! without a lock: each call ends after a bounded number of its own steps, whatever the others do.
//!
//! Layer 2, shared rings. Stands on `ring_core`, whose machine its steps are, and on the kit's `atomic_table`. What a
//! slot carries is a [`Freight`]. The rule of a running ring (`Runs`) says that words, slots and all views are those
//! of a state of the machine, to which the moves of its seats and its keeper led. Each call's contract is an equation
//! on what its seat or the keeper remembers. The laws say what holds between any two steps, whoever makes them.
#![tactic(auto)]

mod answer;
mod freight;
mod keeper;
mod laws;
mod making;
mod memo;
mod ring;
mod seat;
mod sharing;
mod told;

pub use answer::{Look, Unready};
pub use freight::{Freight, Running};
pub use keeper::Keeper;
pub use laws::{
    an_offer_keeps_what_is_settled, calls_are_decided_or_open, each_loss_is_at_a_front,
    each_memo_has_its_moves, each_memo_shows_its_seat, each_note_is_its_tickets,
    each_number_is_one_seats, each_seat_has_one_port, each_ticket_has_one_place,
    logged_tickets_are_claimed, logs_are_in_order, notes_are_admitted, slots_follow_their_tickets,
    tickets_are_in_the_order_of_claims, values_at_home_are_admitted, what_a_lost_call_means,
    what_a_turn_leaves, what_is_settled_is_reaped, words_show_the_machine,
};
pub use making::{Made, make};
pub use memo::{KeeperMemo, Key, Move, Outcome, Rest, SeatMemo, Slot, View};
pub use ring::Ring;
pub use seat::Seat;
pub use sharing::parts_may_be_shared;
