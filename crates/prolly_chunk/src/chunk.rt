//! A chunk that is filled entry by entry.
ghost use Rattle.std.specs.Prelude.{◌≡◌, ◌<◌, ◌≤◌, ◌^◌, nat_le, length, OnOk, OnErr, IfOk};
ghost use Rattle.prolly_entry.specs.Reference.{reference_of};
ghost use Rattle.prolly_tree.specs.Events.{event_is_boundary};
ghost use Rattle.prolly_tree.specs.Tree.{pair_is_boundary};
ghost use Rattle.prolly_chunk.specs.Chunk.{empty_chunk, with_pair, with_child};

use crate::borrowed::BorrowedEvent;
use crate::event::ChunkEvent;
use prolly_entry::{Cut, KEY_START, Pair, Ref, Version, append_child_as, append_pair};
use std::alloc::{AllocError, Global};
use std::marker::Model;
use std::mem;

/// A chunk of the entries so far, as it would be if it closed now.
///
/// The key is that of the last entry, which lies in the bytes already. So it is kept as a place
/// there, and takes no memory of its own.
#[derive(Drop)]
pub(crate) struct Chunk {
    level: u8,
    bytes: Vec<u8>,
    key_start: usize,
    key_length: usize,
    count: u64,
}

impl Model for Chunk {
    ghost use Rattle.std.specs.Prelude.{◌+◌, ◌≤◌, slice_range, vec_len};
    ghost use Rattle.prolly_tree.specs.Chunk.{Chunk as ChunkValue};

    ghost Value = { ChunkValue };

    ghost view = { λ c. record {
      level = c.level;
      key = slice_range c.bytes.items c.key_start (c.key_start + c.key_length);
      count = c.count;
      bytes = c.bytes.items;
    } };

    ghost invariant = { λ c. (c.key_length ≤ 1024) ×
        (c.key_start + c.key_length ≤ vec_len c.bytes) };
}

impl Chunk {
    /// A chunk without entries. Takes memory for its first byte.
    pub(crate) fn new(alloc: Global, level: u8) -> Result<Chunk, AllocError>
        ensures { IfOk result (λ chunk. chunk ≡ empty_chunk level) }
    {
        let mut bytes = Vec::new(alloc);
        bytes.push(level)?;
        Ok(Chunk {
            level,
            bytes,
            key_start: 0,
            key_length: 0,
            count: 0,
        })
    }

    /// A chunk of these bytes, whose key is not known.
    pub(crate) fn with_bytes(level: u8, bytes: Vec<u8>, count: u64) -> Chunk
        ensures level { result.level ≡ level }
        ensures count { result.count ≡ count }
        ensures bytes { result.bytes ≡ bytes.items }
    {
        Chunk {
            level,
            bytes,
            key_start: 0,
            key_length: 0,
            count,
        }
    }

    /// Adds a pair. An `Err` leaves the chunk as it was.
    pub(crate) fn append(&mut self, pair: &Pair) -> Result<(), AllocError>
        ensures added { OnOk result (self.new ≡ with_pair self.old pair.now) }
        ensures room { OnOk result (length self.new.bytes < 2 ^ 64) }
        ensures err { OnErr result (self.new ≡ self.old) }
    {
        let start = self.bytes.len();
        append_pair(&mut self.bytes, pair)?;
        self.key_start = start + KEY_START;
        self.key_length = pair.key().len();
        self.count = self.count.saturating_add(1);
        Ok(())
    }

    /// Adds a pair, and says whether it is a boundary. An `Err` leaves the chunk as it was.
    pub(crate) fn add_pair<C: Cut>(&mut self, cut: &C, pair: &Pair) -> Result<bool, AllocError>
        ensures added { OnOk result (self.new ≡ with_pair self.old pair.now) }
        ensures boundary { IfOk result (λ is_boundary. is_boundary ≡ pair_is_boundary
            (C.cut cut.now) pair.now) }
        ensures room { OnOk result (length self.new.bytes < 2 ^ 64) }
        ensures err { OnErr result (self.new ≡ self.old) }
    {
        let start = self.bytes.len();
        self.append(pair)?;
        Ok(cut.is_boundary_pair(pair, &self.bytes[start..]))
    }

    /// Adds the child that an event stands for, whose chunk has this reference, and says whether
    /// its entry is a boundary. An `Err` leaves the chunk as it was.
    pub(crate) fn add_child<C: Cut>(
        &mut self,
        cut: &C,
        version: Version,
        event: &BorrowedEvent,
        reference: &Ref,
    ) -> Result<bool, AllocError>
        requires { reference.now.0 ≡ reference_of event.now.bytes }
        ensures added { OnOk result (self.new ≡ with_child version self.old event.now) }
        ensures boundary { IfOk result (λ is_boundary. is_boundary ≡ event_is_boundary
            (C.cut cut.now) version event.now) }
        ensures err { OnErr result (self.new ≡ self.old) }
    {
        let start = self.bytes.len();
        let key = event.key();
        append_child_as(&mut self.bytes, version, key, reference, event.count())?;
        self.key_start = start + KEY_START;
        self.key_length = key.len();
        // The count stays at the greatest number, since more pairs than that are not told apart.
        self.count = self.count.saturating_add(event.count());
        Ok(cut.is_boundary(&self.bytes[start..]))
    }

    /// Whether it has an entry.
    pub(crate) fn has_entries(&self) -> bool
        ensures { result ≡ nat_le 2 (length self.now.bytes) }
    {
        self.bytes.len() >= 2
    }

    /// Its event. A chunk without entries, of the same level, takes its place, with room for as
    /// many bytes as this one had, so that most chunks grow little; a short chunk behind a long one
    /// keeps the long one's room. An `Err` leaves the chunk as it was.
    pub(crate) fn take_event(&mut self, alloc: Global) -> Result<ChunkEvent, AllocError>
        ensures event { IfOk result (λ event. event ≡ self.old) }
        ensures begun { OnOk result (self.new ≡ empty_chunk self.old.level) }
        ensures err { OnErr result (self.new ≡ self.old) }
    {
        let mut next = Chunk::new(alloc, self.level)?;
        next.bytes.try_reserve_exact(self.bytes.len())?;
        Ok(ChunkEvent::of(mem::replace(self, next)))
    }

    pub(crate) fn level(&self) -> u8
        ensures { result ≡ self.now.level }
    {
        self.level
    }

    pub(crate) fn key(&self) -> &[u8]
        ensures key { result.now ≡ self.now.key }
        ensures short { length self.now.key ≤ 1024 }
    {
        &self.bytes[self.key_start..self.key_start + self.key_length]
    }

    pub(crate) fn count(&self) -> u64
        ensures { result ≡ self.now.count }
    {
        self.count
    }

    pub(crate) fn bytes(&self) -> &[u8]
        ensures { result.now ≡ self.now.bytes }
    {
        &self.bytes
    }

    pub(crate) fn into_bytes(self) -> Vec<u8>
        ensures { result.items ≡ self.bytes }
    {
        self.bytes
    }
}
