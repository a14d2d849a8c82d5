//! A short list of numbers, kept in place.

ghost use Rattle.std.specs.Prelude.{◌≡◌, ℕ, ◌<◌, ◌≤◌, List, length, take, slice_get};

use std::marker::Model;

/// A list of at most four numbers, kept in place: one for each class of context buffers.
#[derive(Debug, Drop)]
pub struct Numbers {
    values: [u64; 4],
    len: usize,
}

impl Model for Numbers {
    ghost Value = { List ℕ };

    ghost view = { λ n. take n.len n.values };

    ghost invariant = { λ n. n.len ≤ 4 };
}

impl Numbers {
    /// Holds these values, and takes no memory.
    /// Steps: at most 4 numbers. By: condition: at most 4.
    pub fn make(values: &[u64]) -> Numbers
        requires { length values.now ≤ 4 }
        ensures { result ≡ values.now }
    {
        let mut kept = [0; 4];
        kept[..values.len()].copy_from_slice(values);
        Numbers {
            values: kept,
            len: values.len(),
        }
    }

    pub fn len(&self) -> usize
        ensures { result ≡ length self.now }
    {
        self.len
    }

    /// By: `few`: at most 4.
    pub fn as_slice(&self) -> &[u64]
        ensures value { result.now ≡ self.now }
        ensures few { length result.now ≤ 4 }
    {
        &self.values[..self.len]
    }

    /// The same list once more.
    pub fn again(&self) -> Numbers
        ensures { result ≡ self.now }
    {
        Numbers {
            values: self.values,
            len: self.len,
        }
    }

    /// The number at this place, `None` exactly past the end.
    pub fn get(&self, i: usize) -> Option<u64>
        ensures { result ≡ slice_get self.now i }
    {
        self.values[..self.len].get(i).copied()
    }
}
