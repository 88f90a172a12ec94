//! Looking up by the root again and again, in a tree of which no more is read than that wants.
ghost use Rattle.std.specs.Prelude.{◌≡◌, ◌<◌, ◌⊎◌, ℕ, [], ◌∷◌, ◌++◌, List, length, option_map, IfOk};
ghost use Rattle.std.specs.Prelude.{Err, None, Ok, OnErr, OnOk, Some};
ghost use Rattle.std.specs.List.{AllByRecursion};
ghost use Rattle.prolly_look_up.specs.HeldPairs.{pairs_held};
ghost use Rattle.prolly_look_up.specs.PairsFrom.{pairs_from};
ghost use Rattle.prolly_look_up.specs.Sought.{sought_of};
ghost use Rattle.prolly_look_up.specs.Sought.Sought.{Key, Number};
ghost use Rattle.prolly_look_up.specs.Way.{IsCountWay, IsWay, IsWayTo};
ghost use Rattle.prolly_entry.specs.declared.version.Version.TheVariants.{Two};
ghost use Rattle.prolly_io.specs.Frame.{IsSmall};
ghost use Rattle.prolly_root.specs.ChunkFile.{ChunkFile, file_fault};
ghost use Rattle.prolly_root.specs.ChunkSource.{HasAsked};
ghost use Rattle.prolly_root.specs.Descent.{IsWayDown};
ghost use Rattle.prolly_root.specs.ProofFile.{IsSomeProof, proof_file};
ghost use Rattle.prolly_root.specs.RootFault.{IsOrFails, OnlyRead};
ghost use Rattle.prolly_root.specs.Reader.{AreFirstFound, IsEmptied, IsReaderIn, LooksUp, way_of};

use crate::chunk_source::ChunkSource;
use crate::look_up::chunk_on_way::ChunkOnWay;
use crate::look_up::copies::{copy_of, first_value};
use crate::look_up::descent::{chunks_of, go_down};
use crate::proof::proof_of;
use crate::read_ahead::ReadAhead;
use crate::root_fault::RootFault;
use prolly_entry::{Pair, Ref, Version};
use prolly_look_up::{ManyThreads, Pairs, Sought, first_pairs, pair_sought};
use std::alloc::{AllocError, Global};
use std::marker::Model;
use std::mem;
use std::thread::Threads;

/// Looks up by the root, in one tree, one look-up after another. Its chunks come from a
/// [`ChunkSource`], which is lent to each call.
///
/// What is answered is what any map with this root has, unless a chunk of the way and another one
/// have one reference: see [`laws::ways_are_right`](prolly_look_up::laws::ways_are_right). That holds
/// whatever the source does, for nothing of it is believed: each chunk is compared with the
/// reference in the one above it, and the first with the root.
///
/// It keeps the chunks of the last look-up, from the root down, and how far the frames below each
/// and its entries were gone over. So look-ups of rising keys go over the frames of a file and the
/// entries of a chunk once, and read each chunk once. What is kept was compared with the reference
/// above it and with the root: nothing that is answered depends on whether the source is that of
/// the same tree. Where it is not, or has changed, a look-up may refuse it. The tree that the
/// reader was opened for is never refused: see
/// [`laws::lawful_files_are_read`](crate::laws::lawful_files_are_read).
///
/// A look-up takes memory for the chunks that show what it finds, and for that. After an `Err`
/// nothing is kept, and the next look-up reads its chunks anew.
#[derive(Drop)]
pub struct Reader<T> {
    version: Version,
    root: Ref,
    /// The place of the root.
    top: T,
    /// The chunks of the last look-up.
    levels: Vec<ChunkOnWay<T>>,
}

// A reader is seen with all that it keeps.
impl<T> Model for Reader<T> {
    ghost use Rattle.std.specs.List.{AllByRecursion};
    ghost use Rattle.prolly_root.specs.Descent.{IsTested};
    ghost use Rattle.prolly_root.specs.Reader.{ReaderView};

    ghost Value = { ReaderView T };

    ghost view = { λ r. record {
      version = r.version;
      root = r.root.0;
      top = r.top;
      levels = r.levels.items;
    } };

    ghost invariant = { λ r. AllByRecursion (IsTested r.version) r.levels.items };
}

impl<T: Copy + Drop> Reader<T> {
    /// A reader for the tree with this root, of chunks of this version. Both have to come from who
    /// is trusted, and not from the source.
    ///
    /// Finds the root, for which a file's frames are gone over. Takes no memory.
    pub fn open<S: ChunkSource<Place = T>>(
        alloc: Global,
        source: &mut S,
        version: Version,
        root: &Ref,
    ) -> Result<Reader<T>, RootFault>
        ensures of { IfOk result (λ reader.
            (reader.version ≡ version) × (reader.root ≡ root.now.0)) }

        // Of a file of any bytes it is told what is wrong first with its header or its frames.
        ensures tells { (file : ChunkFile) → S.goes_over source.old file →
            IsOrFails (λ reader. (file_fault version file ≡ None) × IsReaderIn S.stands file reader)
            (λ fault. OnlyRead fault ⊎ (file_fault version file ≡ Some fault)) result }
        ensures asked { HasAsked S.goes_over S.failures source.old source.new result }
    {
        let top = source.root(version)?;
        Ok(Reader {
            version,
            root: *root,
            top,
            levels: Vec::new(alloc),
        })
    }

    /// What the tree with the reader's root has at the key: its value, or none.
    pub fn get<S: ChunkSource<Place = T>>(
        &mut self,
        alloc: Global,
        source: &mut S,
        key: &[u8],
    ) -> Result<Option<Vec<u8>>, RootFault>
        ensures found { IfOk result (λ value. IsWay self.old.version self.old.root key.now
            (way_of self.new) (option_map (λ v. v.items) value)) }
        ensures looked { LooksUp S.goes_over S.failures S.stands source.old source.new
            (Key key.now) self.old self.new result }
    {
        self.descend(alloc, source, Sought::Key(key))?;
        let value = first_value(alloc, &self.leaf_from(key), key);
        self.hand_on(value)
    }

    /// The pair of this number, counted from 0 in the order of keys, that the tree with the
    /// reader's root has, or none. Only chunks of version Two have the counts that this goes by.
    pub fn nth<S: ChunkSource<Place = T>>(
        &mut self,
        alloc: Global,
        source: &mut S,
        n: u64,
    ) -> Result<Option<Pair>, RootFault>
        requires { self.old.version ≡ Two }
        ensures found { IfOk result (IsCountWay self.old.root n (way_of self.new)) }
        ensures looked { LooksUp S.goes_over S.failures S.stands source.old source.new
            (Number n) self.old self.new result }
    {
        let there = self.descend(alloc, source, Sought::Number(n))?;
        // From the empty key on there are all pairs.
        let pair = copy_of(alloc, pair_sought(self.leaf_from(&[]), there));
        self.hand_on(pair)
    }

    /// The first pairs that the tree with the reader's root has from the key on: those of one leaf,
    /// at most `most` of them. The others are those from behind the last of these on, at which the
    /// next look-up begins; where there are none, and `most` is not 0, the tree has none.
    pub fn pairs_from<S: ChunkSource<Place = T>>(
        &mut self,
        alloc: Global,
        source: &mut S,
        from: &[u8],
        most: usize,
    ) -> Result<Vec<Pair>, RootFault>
        ensures found { IfOk result (λ pairs. AreFirstFound self.old.version self.old.root
            from.now most (way_of self.new) pairs.items) }
        ensures looked { LooksUp S.goes_over S.failures S.stands source.old source.new
            (Key from.now) self.old self.new result }
    {
        self.descend(alloc, source, Sought::Key(from))?;
        let pairs = first_pairs(alloc, self.leaf_from(from), most);
        self.hand_on(pairs)
    }

    /// The proof of what the tree with the reader's root has at the key: of its value, or that it
    /// has none. A root and a key have one proof, whoever makes it, unless two chunks have one
    /// reference: see [`laws::proofs_are_right`](crate::laws::proofs_are_right).
    pub fn prove<S: ChunkSource<Place = T>>(
        &mut self,
        alloc: Global,
        source: &mut S,
        key: &[u8],
    ) -> Result<Vec<u8>, RootFault>
        ensures proves { IfOk result (λ proof.
            IsSomeProof self.old.version self.old.root key.now proof.items) }
        ensures looked { LooksUp S.goes_over S.failures S.stands source.old source.new
            (Key key.now) self.old self.new result }
    {
        self.descend(alloc, source, Sought::Key(key))?;
        let proof = self.proof(alloc);
        self.hand_on(proof)
    }

    /// Goes to where a look-up of the key ends. What is there is given by
    /// [`leaf_from`](Reader::leaf_from).
    pub fn seek<S: ChunkSource<Place = T>>(
        &mut self,
        alloc: Global,
        source: &mut S,
        key: &[u8],
    ) -> Result<(), RootFault>
        ensures found { OnOk result
            (IsWayTo self.old.version self.old.root (Key key.now) (way_of self.new)) }
        ensures looked { LooksUp S.goes_over S.failures S.stands source.old source.new
            (Key key.now) self.old self.new result }
    {
        self.descend(alloc, source, Sought::Key(key))?;
        Ok(())
    }

    /// The same for who goes over all leaves, one behind another: the source
    /// [reads them ahead](ReadAhead::read_ahead), and threads take their hashes.
    pub fn seek_on<S: ReadAhead<Place = T>, R: Threads + Sync>(
        &mut self,
        hasher: &ManyThreads<'_, R>,
        alloc: Global,
        source: &mut S,
        key: &[u8],
    ) -> Result<(), RootFault>
        ensures found { OnOk result
            (IsWayTo self.old.version self.old.root (Key key.now) (way_of self.new)) }
        ensures looked { LooksUp S.goes_over S.failures S.stands source.old source.new
            (Key key.now) self.old self.new result }
    {
        if self.goes_below(key) {
            if let Err(fault) = source.read_ahead(hasher, alloc, self.version) {
                self.forget();
                return Err(fault);
            }
        }
        self.seek(alloc, source, key)
    }

    /// The pairs whose key is not less than `from`, of the leaf at which the last look-up ended. A
    /// look-up that ended at a node has none. They lie in the chunk that is kept, and take no
    /// memory.
    pub fn leaf_from(&self, from: &[u8]) -> Pairs<'_>
        requires { 0 < length (way_of self.now) }
        ensures { (above : List (List ℕ)) (last : List ℕ) →
            way_of self.now ≡ above ++ last ∷ [] →
            result ≡ pairs_from from.now (pairs_held last) }
    {
        let last = &self.levels[self.levels.len() - 1];
        last.rest(self.version, from).0
    }

    /// How many chunks show what the last look-up has found.
    pub fn chunks(&self) -> usize
        ensures { result ≡ length (way_of self.now) }
    {
        self.levels.len()
    }

    /// Goes down from the root, and keeps the chunks of the way. Gives what is sought in the last one.
    fn descend<'a, S: ChunkSource<Place = T>>(
        &mut self,
        alloc: Global,
        source: &mut S,
        sought: Sought<'a>,
    ) -> Result<Sought<'a>, RootFault>
        ensures looked { LooksUp S.goes_over S.failures S.stands source.old source.new
            (sought_of sought.entry) self.old self.new result }
        ensures found { IfOk result (λ there. IsWayDown self.old.version self.old.root
            (sought_of sought.entry) (way_of self.new) (sought_of there)) }
    {
        let kept = mem::replace(&mut self.levels, Vec::new(alloc));
        let descent = go_down(
            alloc,
            source,
            self.version,
            &self.root,
            self.top,
            kept,
            sought,
        )?;
        self.levels = descent.levels;
        Ok(descent.sought)
    }

    /// The proof that the kept chunks are.
    fn proof(&self, alloc: Global) -> Result<Vec<u8>, AllocError>
        ensures { IfOk result (λ proof. AllByRecursion IsSmall (way_of self.now) ×
            (proof.items ≡ proof_file self.now.version (way_of self.now))) }
    {
        proof_of(alloc, self.version, &chunks_of(alloc, &self.levels)?)
    }

    /// Hands on what a look-up found. Where memory was refused for it, nothing is kept.
    fn hand_on<V>(&mut self, found: Result<V, AllocError>) -> Result<V, RootFault>
        ensures ok { IfOk found (λ value. (result ≡ Ok value) × (self.new ≡ self.old)) }
        ensures err { OnErr found ((result ≡ Err RootFault.Memory) × IsEmptied self.old self.new) }
    {
        match found {
            Ok(value) => Ok(value),
            Err(AllocError) => {
                self.forget();
                Err(RootFault::Memory)
            }
        }
    }

    /// Whether a look-up of the key goes on below the root that is kept; or none is kept.
    fn goes_below(&self, key: &[u8]) -> bool {
        match self.levels.first() {
            Some(root) => root.child(self.version, Sought::Key(key)).is_some(),
            None => true,
        }
    }

    /// Keeps nothing.
    fn forget(&mut self)
        ensures { IsEmptied self.old self.new }
    {
        self.levels.clear();
    }
}
