//! What gives the chunks of a tree.
ghost use Rattle.std.specs.Prelude.{◌≡◌, ◌↔◌, ◌-◌, ℕ, IsTrue};
ghost use Rattle.prolly_look_up.specs.Way.{level_of};
ghost use Rattle.prolly_root.specs.ChunkFile.{ChunkFile, nth_in};
ghost use Rattle.prolly_root.specs.RootFault.{IsOrFails, MayFail};
ghost use Rattle.prolly_root.specs.ChunkSource.{FindsChild, FindsRoot, HasAsked};

use crate::given_chunk::GivenChunk;
use crate::root_fault::RootFault;
use prolly_entry::Version;
use std::alloc::Global;

/// Gives the chunks of a tree to who goes down in it by references: for a file of chunks see
/// [`FileChunks`](crate::FileChunks).
///
/// Nothing that a source gives is believed. Who asks compares each chunk with the reference in the
/// one above it, and the first with the root; a [`GivenChunk`] tells its reference only where it
/// was hashed. So whatever a source gives, what is answered is right. What the contracts say here
/// is for one thing alone: which fault a look-up tells, where the source goes over the frames of a
/// chunk file of any bytes. A lawful file has none: see
/// [`laws::lawful_files_are_read`](crate::laws::lawful_files_are_read).
pub trait ChunkSource {
    /// Where a chunk stands, and what was found below it so far.
    type Place: Copy + Drop;

    /// How many of its calls failed.
    ghost failures: { Self → ℕ };

    /// It goes over the frames of this file, one behind another. A source that goes over none says
    /// so of no file. Then nothing is promised of its faults, nor that a lawful tree is not
    /// refused.
    ghost goes_over: { Self → ChunkFile → Type 0 };

    /// The chunk of this number of the file stands there, and the frames below it begin with that of
    /// the chunk `from`. Both are counted from 0.
    ghost stands: { ChunkFile → Self.Place → (number from : ℕ) → Type 0 };

    /// The two places are one.
    ghost are_one: { Self.Place → Self.Place → Type 0 };

    /// The place of the root, of a tree whose chunks are of this version.
    fn root(&mut self, version: Version) -> Result<Self::Place, RootFault>
        ensures finds { (file : ChunkFile) → goes_over self.old file →
            FindsRoot stands version file result }
        ensures asked { HasAsked goes_over failures self.old self.new result };

    /// The place of the child of this number below a node. The children are of this level, and
    /// counted from 0.
    fn child(
        &mut self,
        node: &mut Self::Place,
        level: u8,
        number: u64,
    ) -> Result<Self::Place, RootFault>
        ensures finds { (file : ChunkFile) (n from : ℕ) → goes_over self.old file →
            stands file node.old n from → level ≡ level_of (nth_in file n) - 1 →
            FindsChild stands file level from number result }
        ensures stays { (file : ChunkFile) (n from : ℕ) → goes_over self.old file →
            stands file node.old n from → level ≡ level_of (nth_in file n) - 1 →
            stands file node.new n from }
        ensures asked { HasAsked goes_over failures self.old self.new result };

    /// The chunk that stands there. Takes memory for it.
    fn chunk(&mut self, alloc: Global, place: &Self::Place) -> Result<GivenChunk, RootFault>
        ensures gives { (file : ChunkFile) (n from : ℕ) → goes_over self.old file →
            stands file place.now n from →
            IsOrFails (λ chunk. chunk ≡ nth_in file n) MayFail result }
        ensures asked { HasAsked goes_over failures self.old self.new result };

    /// The number by which faults name the chunk that stands there.
    fn number(place: &Self::Place) -> u64
        ensures { (file : ChunkFile) (n from : ℕ) → stands file place.now n from → result ≡ n };

    /// Whether two places are one, as those are at which two look-ups came to one chunk.
    fn is_same(place: &Self::Place, other: &Self::Place) -> bool
        ensures { IsTrue result ↔ are_one place.now other.now };

    /// At one place one chunk stands.
    ghost one: { (file : ChunkFile) (place other : Self.Place) (n from m below : ℕ) →
        are_one place other → stands file place n from → stands file other m below →
        (n ≡ m) × (from ≡ below) };
}
