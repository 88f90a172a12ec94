//! What the levels of a tree tell one another.
ghost use Rattle.std.specs.Prelude.{◌≡◌, ◌≤◌, length, vec_len};
ghost use Rattle.prolly_entry.specs.Reference.{reference_of};

use crate::borrowed::BorrowedEvent;
use crate::chunk::Chunk;
use prolly_entry::Ref;
use std::marker::Model;

/// A closed chunk: its level, its greatest key, its reference, its bytes and how many pairs are
/// below it. Whoever takes it needs nothing else to write the chunk or to make the entry of a child
/// of it.
///
/// It may carry its reference, a hash of all its bytes. So that hash can be taken by another thread
/// than the one that closed the chunk. Nothing tells such an event from one that carries none.
#[derive(Drop)]
pub struct ChunkEvent {
    chunk: Chunk,
    // The greatest key where the event was made from its parts; else it lies in the chunk's bytes.
    key: Option<Vec<u8>>,
    reference: Option<Ref>,
}

impl Model for ChunkEvent {
    ghost use Rattle.std.specs.Prelude.{◌≡◌, ◌≤◌, IfSome, vec_len};
    ghost use Rattle.prolly_entry.specs.Reference.{reference_of};
    ghost use Rattle.prolly_tree.specs.Chunk.{Chunk as ChunkValue};
    ghost use Rattle.prolly_chunk.specs.Event.{key_or};

    ghost Value = { ChunkValue };

    ghost view = { λ e. record {
      level = e.chunk.level;
      key = key_or e.key e.chunk.key;
      count = e.chunk.count;
      bytes = e.chunk.bytes;
    } };

    ghost invariant = { λ e. IfSome e.key (λ key. vec_len key ≤ 1024) ×
        IfSome e.reference (λ reference. reference.0 ≡ reference_of e.chunk.bytes) };
}

impl ChunkEvent {
    /// The event of a chunk from its parts, for whoever has events that come from no level of this
    /// crate. Takes no hash, and no memory.
    pub fn new(level: u8, key: Vec<u8>, reference: Ref, bytes: Vec<u8>, count: u64) -> ChunkEvent
        requires short { vec_len key ≤ 1024 }
        requires reference { reference.0 ≡ reference_of bytes.items }
        ensures { result ≡ record
            { level = level; key = key.items; count = count; bytes = bytes.items } }
    {
        let chunk = Chunk::with_bytes(level, bytes, count);
        let (key, reference) = (Some(key), Some(reference));
        ChunkEvent {
            chunk,
            key,
            reference,
        }
    }

    /// The event of a chunk that closes. Takes no hash, and no memory.
    pub(crate) fn of(chunk: Chunk) -> ChunkEvent
        ensures { result ≡ chunk }
    {
        ChunkEvent {
            chunk,
            key: None,
            reference: None,
        }
    }

    /// The same event, which carries its reference from now on. Takes one hash of the bytes where
    /// it carried none, and no memory.
    pub fn with_reference(self) -> ChunkEvent
        ensures { result ≡ self }
    {
        let reference = Some(self.reference());
        ChunkEvent { reference, ..self }
    }

    /// The level: 0 for a leaf, and for a node one more than that of its children.
    pub fn level(&self) -> u8
        ensures { result ≡ self.now.level }
    {
        self.chunk.level()
    }

    /// The greatest key below the chunk, at most 1,024 bytes; empty for a leaf without pairs.
    pub fn key(&self) -> &[u8]
        ensures key { result.now ≡ self.now.key }
        ensures short { length self.now.key ≤ 1024 }
    {
        match &self.key {
            Some(key) => key,
            None => self.chunk.key(),
        }
    }

    /// The reference of the bytes. Takes one hash of them where the event does not carry it.
    pub fn reference(&self) -> Ref
        ensures { result.0 ≡ reference_of self.now.bytes }
    {
        match self.reference {
            Some(reference) => reference,
            None => Ref::of(self.bytes()),
        }
    }

    /// The bytes: the level, then the entries.
    pub fn bytes(&self) -> &[u8]
        ensures { result.now ≡ self.now.bytes }
    {
        self.chunk.bytes()
    }

    /// The number of pairs below the chunk; the greatest `u64` where there are more.
    pub fn count(&self) -> u64
        ensures { result ≡ self.now.count }
    {
        self.chunk.count()
    }

    /// What the event tells, without its reference. Takes no hash.
    pub fn as_borrowed(&self) -> BorrowedEvent<'_>
        ensures { result ≡ self.now }
    {
        BorrowedEvent::new(self.level(), self.key(), self.count(), self.bytes())
    }

    /// The bytes as a vector. Takes no memory, and copies nothing.
    pub fn into_bytes(self) -> Vec<u8>
        ensures { result.items ≡ self.bytes }
    {
        self.chunk.into_bytes()
    }
}
