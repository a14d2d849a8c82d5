//! The configuration from its JSON text, and back to it.
//!
//! Layer 3, configuration. Over `ids_config` and `serde_json`; the commands read a configuration by it, and the
//! generator prints one. `read` answers the configuration that the bytes have in either form, or the first fault
//! where they have none. `specs/Shape.antt` and `ids_config`'s `specs/Values.antt` are the two searches.
//! `specs/Members.antt` says which parts a tree has, `specs/Configured.antt` which configuration bytes have. What
//! `print` writes, in the second form, reads back as the same configuration. Only tests show that either succeeds
//! with ample memory.
#![tactic(auto)]

mod fault;
mod kind;
mod parts;
mod printing;
mod reading;
mod shape;
mod tables;

pub use fault::JsonFault;
pub use printing::print;
pub use reading::read;
