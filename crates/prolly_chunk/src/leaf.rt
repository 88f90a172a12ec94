//! The level of the leaves.
ghost use Rattle.std.specs.Prelude.{◌≡◌, true, false, not, nat_le, length, IfOk};
ghost use Rattle.prolly_tree.specs.Tree.{pair_is_boundary};
ghost use Rattle.prolly_chunk.specs.LeafLevel.{LeafBegins, LeafTakes, LeafPasses, LeafEnds};

use crate::chunk::Chunk;
use crate::event::ChunkEvent;
use prolly_entry::{Cut, Pair};
use std::alloc::{AllocError, Global};
use std::marker::Model;

/// The leaves of pairs that come one by one, in the order of their keys.
#[derive(Drop)]
pub struct LeafLevel<C: Cut> {
    cut: C,
    leaf: Chunk,
    has_pairs: bool,
}

impl<C: Cut> Model for LeafLevel<C> {
    ghost use Rattle.prolly_chunk.specs.LeafLevel.{LeafState};

    ghost Value = { LeafState C };

    ghost view = { λ l. record { cut = l.cut; leaf = l.leaf; has_pairs = l.has_pairs } };
}

impl<C: Cut> LeafLevel<C> {
    /// The level before the first pair. Takes memory for the first byte of a leaf.
    pub fn new(alloc: Global, cut: C) -> Result<LeafLevel<C>, AllocError>
        ensures { IfOk result (LeafBegins C.cut cut) }
    {
        let leaf = Chunk::new(alloc, 0)?;
        Ok(LeafLevel {
            cut,
            leaf,
            has_pairs: false,
        })
    }

    /// Takes a pair, and answers the leaf that it closes, if it closes one. The pair's key is to be
    /// greater than those before it, or else what is made is no leaf of a map's tree.
    ///
    /// Takes time in the pair's size and one look at the cut. A leaf that closes is not hashed here
    /// ([`ChunkEvent::reference`]). Keeps the bytes of one leaf. After an `Err` the level is of no
    /// use.
    pub fn push(&mut self, alloc: Global, pair: &Pair) -> Result<Option<ChunkEvent>, AllocError>
        ensures { IfOk result (λ closed. LeafTakes C.cut self.old self.new pair.now closed) }
    {
        self.has_pairs = true;
        if self.leaf.add_pair(&self.cut, pair)? {
            return Ok(Some(self.leaf.take_event(alloc)?));
        }
        Ok(None)
    }

    /// Takes a pair of which the caller knows whether it is a boundary, and answers as
    /// [`push`](LeafLevel::push) does. So it is not hashed.
    pub fn push_decided(
        &mut self,
        alloc: Global,
        pair: &Pair,
        is_boundary: bool,
    ) -> Result<Option<ChunkEvent>, AllocError>
        ensures { IfOk result (λ closed.
            pair_is_boundary (C.cut self.old.cut) pair.now ≡ is_boundary →
            LeafTakes C.cut self.old self.new pair.now closed) }
    {
        self.has_pairs = true;
        self.leaf.append(pair)?;
        if is_boundary {
            return Ok(Some(self.leaf.take_event(alloc)?));
        }
        Ok(None)
    }

    /// Lets a whole leaf pass where no leaf is open, and answers whether it did: the caller has the
    /// leaf's event, and sends it. Else the level is as it was.
    ///
    /// A leaf is whole where its last pair is a boundary and none before it is. Takes no time and
    /// no memory.
    pub fn pass(&mut self) -> bool
        ensures passes { result ≡ not (nat_le 2 (length self.old.leaf.bytes)) }
        ensures passed { result ≡ true → LeafPasses C.cut self.old self.new }
        ensures same { result ≡ false → self.new ≡ self.old }
    {
        if self.leaf.has_entries() {
            return false;
        }
        self.has_pairs = true;
        true
    }

    /// What is left at a clean end: the open leaf where it has pairs, or the leaf without pairs
    /// where no pair came at all. Takes no hash.
    pub fn finish(self) -> Option<ChunkEvent>
        ensures { LeafEnds C.cut self result }
    {
        if !self.has_pairs || self.leaf.has_entries() {
            return Some(ChunkEvent::of(self.leaf));
        }
        None
    }
}
