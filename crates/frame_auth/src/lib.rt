//! A counter and a tag in the signature part of messages: sealed, and checked and taken off again.
//!
//! Layer 4, messages and texts. Stands on `ids_frame` and the kit's `sha2`; the commands `sign` and `verify`, and the C
//! interface, stand on it.
//! A tag is HMAC with SHA-256, RFC 2104 (`specs/Tags.antt`); what it is put to here is this project's own.
//! `seal` and `unseal` go over a file message by message, and `seal_into` seals into a buffer. `specs/Sealing.antt` says
//! what sealed messages are, `specs/Faults.antt` where sealing and unsealing stop, by the same definitions, and
//! `specs/Into.antt` what becomes of a buffer. Contracts see a `Key` as its 64 bytes.
//! No clause says that a tag cannot be forged, how long a comparison takes, or that memory suffices.
#![tactic(auto)]

mod fault;
mod key;
mod laws;
mod sealing;
mod unsealing;

pub use fault::{SealFault, SealIntoFault, UnsealFault};
pub use key::{Key, tag};
pub use laws::{
    one_sealing, one_sealing_into, one_unsealing, only_the_first_of_a_sealed_list_are_taken,
    sealed_opens,
};
pub use sealing::{SealedPut, seal, seal_into};
pub use unsealing::unseal;
