//! Several managers, one stream: a reporter forwards what all of them send, each manager's messages in their order.
//!
//! Layer 9, traces and files. Over `ids_frame`, which reads the messages, and the bounded queue of the kit's
//! `crossbeam_queue`, whose rule (`specs/Rule.antt`) carries what feeders and drain know of each other. Contracts see
//! a `Source` as its list of messages, a `Feeder` as its number and how many pairs it put, and a `Drain` as the pairs
//! that it took (`specs/Relays.antt`). `specs/Forwarding.antt` says which bytes are forwarded. No clause says that
//! feeders run beside each other, that `Full` comes only of a full queue, and `Empty` only of an empty one while a
//! feeder is out. No clause says that a call which may wait returns, nor orders two sources.
#![tactic(auto)]

mod drain;
mod feeder;
mod forwarding;
mod index;
mod outlet;
mod presence;
mod relay;
mod rule;
mod source;

pub use drain::{Drain, Empty};
pub use feeder::{FeedGate, Feeder, Full, OpenFeed};
pub use forwarding::{Forwarded, forward};
pub use index::Instance;
pub use relay::{MadeRelay, Relay, make};
pub use rule::Taken;
pub use source::{Source, SourceFault};
