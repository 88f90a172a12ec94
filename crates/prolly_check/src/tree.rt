//! A chunk file that was checked.
ghost use Rattle.std.specs.Prelude.{◌≡◌, ◌↔◌, ℕ, ◌^◌, ◌<◌, List, length, map, IfOk, IfErr, IsErr};
ghost use Rattle.std.specs.Prelude.{Err, OnOk};
ghost use Rattle.std.specs.List.{AllByRecursion};
ghost use Rattle.std.specs.Option.{option_copied};
ghost use Rattle.prolly_entry.specs.Cut.{sha512_cut};
ghost use Rattle.prolly_entry.specs.Pair.{IsPair};
ghost use Rattle.prolly_tree.specs.Chunk.{chunks};
ghost use Rattle.prolly_tree.specs.Difference.{IsMap};
ghost use Rattle.prolly_tree.specs.File.{root_reference};
ghost use Rattle.prolly_tree.specs.LookUp.{find, nth, scan};
ghost use Rattle.prolly_tree.specs.RecordFile.{record_file};
ghost use Rattle.prolly_io.specs.Sink.{IsSettled};
ghost use Rattle.prolly_io.specs.Writes.{Writes};
ghost use Rattle.prolly_look_up.specs.Content.{Content, IsFileOf, chunks_of};
ghost use Rattle.prolly_look_up.specs.FoundPairs.{pair_found};
ghost use Rattle.prolly_check.specs.Verdict.{UnlessMemory, IsVerdict};
ghost use Rattle.prolly_look_up.specs.Way.{IsWay};
ghost use Rattle.prolly_check.specs.Chunks.{AreReferences, HasFile, IsChecked, IsFile};
ghost use Rattle.prolly_check.specs.Frames.{chunks_in};
ghost use Rattle.prolly_look_up.specs.PairsFrom.{pairs_from};
ghost use Rattle.prolly_check.specs.Numbers.{AreLevels, AreOfMap};
ghost use Rattle.prolly_chunk.specs.Missing.{AreSo, lacking, chunks_size};

use crate::chunks::{Chunks, Index, Layout};
use crate::file::CheckedFile;
use crate::look_up::{Leaves, find_nth, find_value, scan_pairs, way_to};
use crate::numbers::{count_pairs, levels_in, missing_in, size_in};
use crate::verdict::{CheckFault, ChunkHasher, inspect};
use prolly_chunk::{LevelStats, Missing};
use prolly_entry::{Pair, Ref, Version};
use prolly_io::{Sink, WriteFault, write_all};
use std::alloc::{AllocError, Global};
use std::marker::Model;

/// A file of version One says nothing of how many pairs are below a child.
#[derive(Clone, Copy, Debug, PartialEq, Eq)]
pub struct NoCounts;

/// The tree of a chunk file that was checked, in memory.
#[derive(Drop)]
pub struct Tree {
    bytes: Vec<u8>,
    layout: Layout,
    references: Vec<Ref>,
    index: Index,
}

// A tree is seen as the bytes of its file. They decide the version, the number of bits and the map.
impl Model for Tree {
    ghost Value = { List ℕ };

    ghost view = { λ tree. tree.bytes.items };

    ghost invariant = { λ tree.
        IsChecked tree.bytes.items tree.layout.header tree.layout.spans.items tree.index
        × AreReferences (chunks_in tree.bytes.items tree.layout.spans.items)
        tree.references.items };
}

impl Tree {
    /// The tree of the bytes of a file.
    pub(crate) fn of<H: ChunkHasher>(
        hasher: &H,
        alloc: Global,
        bytes: Vec<u8>,
    ) -> Result<Tree, CheckFault>
        requires { H.can_hash hasher.now }
        ensures same { IfOk result (λ tree. tree ≡ bytes.items) }
        ensures file { IfOk result (λ tree. IsFile tree) }
        ensures err { IfErr result (UnlessMemory (λ fault. IsVerdict bytes.items (Err fault))) }
    {
        let (layout, references, index) = inspect(hasher, alloc, &bytes)?;
        Ok(Tree {
            bytes,
            layout,
            references,
            index,
        })
    }

    /// The bytes of the file.
    pub fn bytes(&self) -> &[u8]
        ensures { result.now ≡ self.now }
    {
        &self.bytes
    }

    /// The reference of the root.
    pub fn root(&self) -> Ref
        ensures { (content : Content) → IsFileOf self.now content →
            result.0 ≡ root_reference (sha512_cut content.bits) content.version content.pairs }
    {
        self.references()[self.file().root()]
    }

    /// The number of bits by which the entries were cut, from 0 to 24.
    pub fn bits(&self) -> u8
        ensures { (content : Content) → IsFileOf self.now content → result ≡ content.bits }
    {
        self.file().bits()
    }

    /// The number of chunks.
    pub fn chunks(&self) -> u64
        ensures { (content : Content) → IsFileOf self.now content →
            result ≡ length (chunks (sha512_cut content.bits) content.version content.pairs) }
    {
        self.file().len() as u64
    }

    /// How many bytes the chunks have together, without the frames that stand around them in the
    /// file.
    pub fn size(&self) -> u64
        ensures { (content : Content) → IsFileOf self.now content →
            result ≡ chunks_size (chunks_of content) }
    {
        size_in(self.file().chunks())
    }

    /// How many pairs the map has. Takes no memory, and goes over all pairs, leaf by leaf.
    pub fn pairs(&self) -> u64
        ensures { (content : Content) → IsFileOf self.now content →
            result ≡ length content.pairs }
    {
        count_pairs(Leaves::new(self.file()))
    }

    /// The levels of the tree, from the leaves (level 0) to the root's.
    ///
    /// Takes memory for the sizes of one level's chunks at a time, and time O(n log n) for n
    /// chunks: it goes over them once for each level, and sorts their sizes.
    pub fn levels(&self, alloc: Global) -> Result<Vec<LevelStats>, AllocError>
        ensures { IfOk result (λ levels. (content : Content) → IsFileOf self.now content →
            AreLevels (chunks_of content) levels.items) }
    {
        levels_in(alloc, self.file().chunks())
    }

    /// The value of the key, or none, found by references from the root. Takes no memory, and reads
    /// one chunk a level.
    pub fn get(&self, key: &[u8]) -> Option<&[u8]>
        ensures { (content : Content) → IsFileOf self.now content →
            option_copied result ≡ find content.pairs key.now }
    {
        find_value(&self.file(), key)
    }

    /// The chunks from the root down to the one at which a look-up of the key ends. Whoever knows
    /// the root's reference can tell from them what the map has at the key: see
    /// [`ways_are_right`](prolly_look_up::laws::ways_are_right).
    ///
    /// Takes memory for one reference to each, and reads one chunk a level.
    pub fn way_to(&self, alloc: Global, key: &[u8]) -> Result<Vec<&[u8]>, AllocError>
        ensures { IfOk result (λ chunks. (content : Content) → IsFileOf self.now content →
            IsWay content.version (root_reference (sha512_cut content.bits) content.version
            content.pairs) key.now (map (λ chunk. chunk.now) chunks.items)
            (find content.pairs key.now)) }
    {
        way_to(alloc, &self.file(), key)
    }

    /// The first pairs in the order of the keys whose key is not less than `from`, at most `limit`
    /// of them.
    ///
    /// Takes memory for copies of these pairs, and reads one chunk a level and then the chunks up
    /// to the last of them.
    pub fn scan(&self, alloc: Global, from: &[u8], limit: u32) -> Result<Vec<Pair>, AllocError>
        ensures { IfOk result (λ pairs. (content : Content) → IsFileOf self.now content →
            pairs.items ≡ scan content.pairs from.now limit) }
    {
        scan_pairs(alloc, self.leaves_from(from), limit as usize)
    }

    /// The key and the value of the pair of this number, counted from 0 in the order of the keys,
    /// or none where there are no more than so many pairs. Takes no memory, and reads one chunk a
    /// level.
    ///
    /// It is found by the counts of the pairs below each child, from the root. The nodes of version
    /// One have none: there the answer is an error, whatever the number.
    pub fn nth(&self, n: u64) -> Result<Option<(&[u8], &[u8])>, NoCounts>
        ensures found { IfOk result (λ found. (content : Content) → IsFileOf self.now content →
            pair_found found ≡ nth content.pairs n) }
        ensures uncounted { (content : Content) → IsFileOf self.now content →
            IsErr result ↔ (content.version ≡ Version.One) }
    {
        let file = self.file();
        match file.version() {
            Version::One => Err(NoCounts),
            Version::Two => Ok(find_nth(&file, n)),
        }
    }

    /// The leaves of the map, in the order of their keys.
    ///
    /// Takes no memory, and reads no chunk before `next` is called.
    pub fn leaves(&self) -> Leaves<'_>
        ensures are { (content : Content) → IsFileOf self.now content → result ≡ content.pairs }
        ensures rising { IsMap result }
        ensures lawful { AllByRecursion IsPair result }
    {
        Leaves::new(self.file())
    }

    /// The leaves of the pairs whose key is not less than `from`, in the order of their keys. Of
    /// the first leaf only these pairs are given.
    ///
    /// Takes no memory. Reads one chunk a level, the first leaf up to its first such pair, and no
    /// other leaf before `next` is called.
    pub fn leaves_from(&self, from: &[u8]) -> Leaves<'_>
        ensures are { (content : Content) → IsFileOf self.now content →
            result ≡ pairs_from from.now content.pairs }
        ensures rising { IsMap result }
        ensures lawful { AllByRecursion IsPair result }
    {
        Leaves::from_key(self.file(), from)
    }

    /// Writes the pairs of the map to a sink, as a record file, and flushes the sink.
    ///
    /// Takes no memory, and makes one call of the sink for each leaf, or more where the sink takes
    /// only a part. After a `WriteFault` the sink has a part of the record file. Where that ends
    /// between two records, no reader can tell that more was to follow.
    pub fn write_records<W: Sink>(&self, sink: &mut W) -> Result<(), WriteFault>
        ensures written { (content : Content) → IsFileOf self.now content →
            Writes (record_file content.pairs) (W.seen sink.old) (W.seen sink.new) result }
        ensures settled { OnOk result (IsSettled (W.seen sink.new)) }
    {
        write_records(self.leaves(), sink)
    }

    /// The chunks of this tree whose references the other tree lacks. Trees of different bits and
    /// versions will do.
    ///
    /// Takes no memory and no hash, and looks the reference of each chunk up, in time O(n log m)
    /// for n chunks of this tree and m of the other.
    pub fn missing_from(&self, other: &Tree) -> Missing
        ensures { (content others : Content) → IsFileOf self.now content →
            IsFileOf other.now others →
            AreSo (lacking (chunks_of others) (chunks_of content)) result }
    {
        missing_in(&other.index, self.file().chunks(), self.references())
    }

    /// The version of the file.
    pub fn version(&self) -> Version
        ensures { (content : Content) → IsFileOf self.now content → result ≡ content.version }
    {
        self.file().version()
    }

    /// The references of the chunks, in their order.
    fn references(&self) -> &[Ref]
        ensures { (content : Content) → IsFileOf self.now content →
            AreReferences (chunks_of content) result.now }
    {
        &self.references
    }

    /// The file, as look-ups see it.
    fn file(&self) -> CheckedFile<'_>
        ensures is { (content : Content) → IsFileOf self.now content → result ≡ content }
        ensures of { IsFileOf self.now result }
        ensures file { HasFile result }
    {
        let chunks = Chunks::new(&self.bytes, &self.layout);
        CheckedFile::new(self.layout.header, chunks, &self.index)
    }
}

/// Writes the pairs of leaves to a sink, as a record file, and flushes the sink.
fn write_records<W: Sink>(mut leaves: Leaves, sink: &mut W) -> Result<(), WriteFault>
    ensures written { Writes (record_file leaves.entry) (W.seen sink.old) (W.seen sink.new) result }
    ensures settled { OnOk result (IsSettled (W.seen sink.new)) }
{
    while let Some(leaf) = leaves.next() {
        write_all(sink, leaf.spellings())?;
    }
    sink.flush()?;
    Ok(())
}
