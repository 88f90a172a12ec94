//! A leaf of an old tree.
ghost use Rattle.std.specs.Prelude.{◌≡◌, ◌<◌, IfOk, length};
ghost use Rattle.prolly_look_up.specs.Entries.{IsWhole};
ghost use Rattle.prolly_look_up.specs.HeldPairs.{pairs_held};
ghost use Rattle.prolly_entry.specs.Reference.{reference_of};
ghost use Rattle.prolly_entry.specs.declared.version.Version.TheVariants.{One};
ghost use Rattle.prolly_tree.specs.Chunk.{chunk_of};
ghost use Rattle.prolly_tree.specs.Tree.{last_key};

use prolly_chunk::ChunkEvent;
use prolly_entry::{Ref, Version};
use prolly_look_up::{LEAF, Pairs, pairs_of};
use std::alloc::{AllocError, Global};
use std::marker::Model;

/// A leaf of a tree that stands already: its event, which carries its reference, and its pairs.
/// Contracts see the pairs.
#[derive(Drop)]
pub struct OldLeaf {
    event: ChunkEvent,
}

impl Model for OldLeaf {
    ghost use Rattle.std.specs.Prelude.{◌≡◌, List};
    ghost use Rattle.prolly_look_up.specs.Entries.{IsWhole};
    ghost use Rattle.prolly_look_up.specs.HeldPairs.{pairs_held};
    ghost use Rattle.prolly_entry.specs.Pair.{Pair as PairValue};
    ghost use Rattle.prolly_entry.specs.declared.version.Version.TheVariants.{One};
    ghost use Rattle.prolly_tree.specs.Chunk.{chunk_of};

    ghost Value = { List PairValue };

    ghost view = { λ leaf. pairs_held leaf.event.bytes };

    ghost invariant = { λ leaf. IsWhole One leaf.event.bytes ×
        (leaf.event ≡ chunk_of One 0 (pairs_held leaf.event.bytes)) };
}

impl OldLeaf {
    /// The leaf with these bytes, which has pairs, and whose reference was compared. Goes over the
    /// pairs once, and takes memory for the last key. (A leaf is the same in each version.)
    pub fn new(
        alloc: Global,
        version: Version,
        reference: Ref,
        chunk: Vec<u8>,
    ) -> Result<OldLeaf, AllocError>
        requires whole { IsWhole version chunk.items }
        requires some { 0 < length (pairs_held chunk.items) }
        requires reference { reference.0 ≡ reference_of chunk.items }
        ensures { IfOk result (λ leaf. leaf ≡ pairs_held chunk.items) }
    {
        let (key, count) = pairs_of(version, &chunk).last_key_and_count();
        let key = Vec::from_slice(alloc, key)?;
        let event = ChunkEvent::new(LEAF, key, reference, chunk, count);
        Ok(OldLeaf { event })
    }

    /// The pairs. Takes no memory.
    pub fn pairs(&self) -> Pairs<'_>
        ensures { result ≡ self.now }
    {
        pairs_of(Version::One, self.event.bytes())
    }

    /// The key of the last pair.
    pub fn last_key(&self) -> &[u8]
        ensures { result.now ≡ last_key self.now }
    {
        self.event.key()
    }

    /// The event.
    pub fn into_event(self) -> ChunkEvent
        ensures { result ≡ chunk_of One 0 self }
    {
        self.event
    }
}
