//! The looks of a claim that found no buffer free.
ghost use Rattle.std.specs.Prelude.{◌≡◌, ◌++◌, ◌∷◌, [], ◌<◌, ◌≤◌, length, option_map, slice_get};
ghost use Rattle.buffer_classes.specs.Buffers.{found_full};

use ids_types::Numbers;
use permit_ring::Look;
use std::marker::Model;

/// Looks of one claim, at most four: one for each class that was asked and had no buffer free, the smallest
/// first. Contracts see how many buffers of the class had been claimed at each; `free` is 0 in all of them.
#[derive(Debug, Drop)]
pub struct Looks {
    claimed: [u64; 4],
    len: usize,
}

impl Model for Looks {
    ghost use Rattle.std.specs.Prelude.{ℕ, List, take, ◌≤◌};

    ghost Value = { List ℕ };

    ghost view = { λ looks. take looks.len looks.claimed };

    ghost invariant = { λ looks. looks.len ≤ 4 };
}

impl Looks {
    /// No look yet.
    pub fn none() -> Looks
        ensures { result ≡ [] }
    {
        Looks {
            claimed: [0; 4],
            len: 0,
        }
    }

    /// One look more, when so many had been claimed.
    pub(crate) fn push(&mut self, claimed: u64)
        requires { length self.old < 4 }
        ensures { self.new ≡ self.old ++ claimed ∷ [] }
    {
        self.claimed[self.len] = claimed;
        self.len += 1;
    }

    /// By: `few`: at most 4.
    pub fn len(&self) -> usize
        ensures value { result ≡ length self.now }
        ensures few { result ≤ 4 }
    {
        self.len
    }

    /// The look at this place, `None` exactly past the end.
    pub fn get(&self, i: usize) -> Option<Look>
        ensures { result ≡ option_map found_full (slice_get self.now i) }
    {
        match self.claimed[..self.len].get(i) {
            Some(claimed) => Some(Look {
                claimed: *claimed,
                free: 0,
            }),
            None => None,
        }
    }

    /// How many buffers had been claimed at each look.
    /// Steps: at most 4 numbers. By: type `[u64; 4]`.
    pub fn claimed(&self) -> Numbers
        ensures { result ≡ self.now }
    {
        Numbers::make(&self.claimed[..self.len])
    }
}
