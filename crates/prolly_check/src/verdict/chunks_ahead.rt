//! The chunks that follow one, where their hashes were taken.
ghost use Rattle.std.specs.Prelude.{◌≡◌, ℕ, List};
ghost use Rattle.std.specs.List.{AllByRecursion};
ghost use Rattle.prolly_entry.specs.Reference.{reference_of};
ghost use Rattle.prolly_check.specs.Digests.{AreNamed};
ghost use Rattle.prolly_check.specs.Frames.{IsWithin, chunks_in};

use crate::verdict::digests::ChunkDigest;
use crate::verdict::frames::chunk_at;
use prolly_entry::Ref;
use std::marker::Model;
use std::ops::Range;

/// The chunks that follow the one that is taken, among those that are at hand.
#[derive(Drop)]
pub(crate) struct ChunksAhead<'a, 'b> {
    bytes: &'a [u8],
    spans: &'a [Range<usize>],
    digests: &'b [ChunkDigest],
    /// The number of the first one.
    first: usize,
}

impl<'a, 'b> Model for ChunksAhead<'a, 'b> {
    ghost Value = { List (List ℕ) };

    ghost view = { λ f. chunks_in f.bytes.now f.spans.now };

    ghost invariant = { λ f. AllByRecursion (IsWithin f.bytes.now) f.spans.now
        × AreNamed (chunks_in f.bytes.now f.spans.now) f.digests.now };
}

impl<'a, 'b> ChunksAhead<'a, 'b> {
    /// From this number on those that lie there.
    pub(crate) fn new(
        bytes: &'a [u8],
        spans: &'a [Range<usize>],
        digests: &'b [ChunkDigest],
        first: usize,
    ) -> ChunksAhead<'a, 'b>
        requires within { AllByRecursion (IsWithin bytes.now) spans.now }
        requires named { AreNamed (chunks_in bytes.now spans.now) digests.now }
    {
        ChunksAhead {
            bytes,
            spans,
            digests,
            first,
        }
    }

    /// No chunk.
    pub(crate) fn none() -> ChunksAhead<'a, 'b> {
        ChunksAhead::new(&[], &[], &[], 0)
    }

    /// The reference of these bytes. It is known where they are the chunk behind so many of these,
    /// and else they are hashed.
    pub(crate) fn reference_of(&self, before: usize, bytes: &[u8]) -> Ref
        ensures { result.0 ≡ reference_of bytes.now }
    {
        let number = self.first.saturating_add(before);
        if number >= self.spans.len() {
            return Ref::of(bytes);
        }
        if chunk_at(self.bytes, &self.spans[number]) != bytes {
            return Ref::of(bytes);
        }
        self.digests[number].reference
    }
}
