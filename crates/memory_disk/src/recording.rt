//! The record of a disk in memory: the bytes that it was made with, its calls and their pieces.
ghost use Rattle.std.specs.Prelude.{◌≡◌, ◌+◌, ◌≤◌, ◌↔◌, ◌++◌, length, vec_capacity, vec_len, IfOk, IsTrue};
ghost use Rattle.memory_disk.specs.Recorded.{blank_record, noted, HasRoom, piece_len, state_after};

use crate::disk::Span;
use ids_types::NoMemory;
use std::alloc::Global;
use std::marker::Model;

/// A call of a disk. The pieces of the writes that succeeded stand elsewhere, one after the other.
#[derive(Clone, Copy, Debug)]
pub(crate) enum Call {
    Wrote(Span),
    Tore(Span),
    Synced,
    Passed,
}

/// The first bytes of a disk, and all its calls.
#[derive(Debug, Drop)]
pub(crate) struct Recording {
    first: Vec<u8>,
    calls: Vec<Call>,
    pieces: Vec<u8>,
    calls_room: usize,
    bytes_room: usize,
}

impl Model for Recording {
    ghost use Rattle.memory_disk.specs.Recorded.{Recorded};

    ghost Value = { Recorded };

    ghost use Rattle.memory_disk.specs.Kept.{recorded, IsSound};

    ghost view = { recorded };

    ghost invariant = { IsSound };
}

impl Recording {
    /// Of these bytes, with room for so many calls and bytes of their pieces.
    pub(crate) fn make(
        alloc: Global,
        bytes: &[u8],
        calls_room: usize,
        bytes_room: usize,
    ) -> Result<Recording, NoMemory>
        requires { length bytes.now ≡ 541728 }
        ensures { IfOk result (λ made. made ≡ blank_record bytes.now (record { calls = calls_room; bytes = bytes_room })) }
    {
        Ok(Recording {
            first: bytes.to_vec(alloc)?,
            calls: Vec::with_capacity(alloc, calls_room)?,
            pieces: Vec::with_capacity(alloc, bytes_room)?,
            calls_room,
            bytes_room,
        })
    }

    /// Whether there is room for a call with so many bytes of a piece.
    pub(crate) fn has_room(&self, count: usize) -> bool
        ensures { IsTrue result ↔ HasRoom self.now count }
    {
        self.calls.len() < self.calls_room && count <= self.bytes_room - self.pieces.len()
    }

    /// Notes a call of this piece, for which there is room.
    #[tactic(auto, using(crate::proofs::RunLemmas::one_more))]
    pub(crate) fn note(&mut self, call: Call, piece: &[u8])
        requires room { HasRoom self.old (length piece.now) }
        requires whole { piece_len call ≡ length piece.now }
        ensures { self.new ≡ noted self.old (state_after call self.old.run.now piece.now) (length piece.now) }
    {
        self.calls.push_reserved(call);
        self.pieces.extend_from_slice(piece).unwrap();
    }

    /// Forgets all calls, and begins again with these bytes.
    pub(crate) fn restart(&mut self, bytes: &[u8])
        requires { length bytes.now ≡ 541728 }
        ensures { self.new ≡ blank_record bytes.now self.old.room }
    {
        self.first.copy_from_slice(bytes);
        self.calls.clear();
        self.pieces.clear();
    }
}
