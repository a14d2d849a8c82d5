//! A context data buffer.
ghost use Rattle.std.specs.Prelude.{◌≡◌, ◌≤◌, length, take, vec_capacity, IfOk};
ghost use Rattle.buffer_classes.specs.Buffers.{filled_with, unused};

use ids_types::Parcel;
use std::alloc::{AllocError, Global};
use std::marker::Model;

/// A context data buffer of one class, with the number of the claim that got it. It is moved from its slot to
/// the report, the chain and back as a pointer; all that it holds stays where it is.
#[derive(Debug, Drop)]
pub struct CtxBuf {
    held: Box<Held>,
}

/// What a buffer holds.
#[derive(Debug, Drop)]
struct Held {
    claim: u64,
    size: u16,
    len: usize,
    class: u8,
    /// As many bytes as it can hold, of which the first `len` are those that it holds.
    room: Vec<u8>,
}

impl Model for CtxBuf {
    ghost use Rattle.buffer_classes.specs.Buffers.{Buffer, buffer_of, HasItsRoom};

    ghost Value = { Buffer };

    ghost view = { buffer_of };

    ghost invariant = { HasItsRoom };
}

impl CtxBuf {
    /// An empty buffer of a class, which nobody has claimed yet.
    pub(crate) fn make(alloc: Global, class: u8, size: u16) -> Result<CtxBuf, AllocError>
        ensures { IfOk result (λ buf. buf ≡ unused class size) }
    {
        let held = Held {
            claim: 0,
            size,
            len: 0,
            class,
            room: zeros(alloc, size as usize)?,
        };
        Ok(CtxBuf {
            held: Box::new(alloc, held)?,
        })
    }

    /// The place of its class among the classes, from 0: the smallest class is the first.
    pub fn class(&self) -> u8
        ensures { result ≡ self.now.class }
    {
        self.held.class
    }

    /// The number of the claim that got it, from 0 for each class.
    pub fn claim(&self) -> u64
        ensures { result ≡ self.now.claim }
    {
        self.held.claim
    }

    /// How many bytes it can hold.
    pub fn size(&self) -> u16
        ensures { result ≡ self.now.size }
    {
        self.held.size
    }

    /// Holds these bytes, and no others, from now on.
    /// Steps: the bytes, at most its size. By: condition: at most its size; invariant `HasItsRoom`; read off.
    pub fn fill(&mut self, bytes: &[u8])
        requires { length bytes.now ≤ self.old.size }
        ensures { self.new ≡ filled_with bytes.now self.old }
    {
        put(&mut self.held.room, bytes);
        self.held.len = bytes.len();
    }

    /// The claim of this number got it.
    pub(crate) fn set_claim(&mut self, claim: u64)
        ensures { self.new ≡ record self.old { claim = claim } }
    {
        self.held.claim = claim;
    }
}

// So many zeros, and room for no more.
fn zeros(alloc: Global, n: usize) -> Result<Vec<u8>, AllocError>
    ensures { IfOk result (λ v. (length v.items ≡ n) × (vec_capacity v ≡ n)) }
{
    let mut room = Vec::with_capacity(alloc, n)?;
    for _ in 0..n {
        room.push_reserved(0);
    }
    Ok(room)
}

// Puts these bytes in front.
fn put(room: &mut [u8], bytes: &[u8])
    requires { length bytes.now ≤ length room.old }
    ensures bytes { take (length bytes.now) room.new ≡ bytes.now }
    ensures len { length room.new ≡ length room.old }
{
    room[..bytes.len()].copy_from_slice(bytes);
}

impl Parcel for CtxBuf {
    ghost held = { λ b. b.bytes };

    fn bytes(&self) -> &[u8] {
        &self.held.room[..self.held.len]
    }
}
