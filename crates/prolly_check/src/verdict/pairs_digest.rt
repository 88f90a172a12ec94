//! What the pairs of a chunk tell, which are read once.
ghost use Rattle.std.specs.Prelude.{◌≡◌, ◌+◌, ◌<◌, ◌^◌, ◌++◌, ◌∷◌, ℕ, List, [], None, length};
ghost use Rattle.std.specs.Prelude.{IfNone, IfSome};
ghost use Rattle.std.specs.Option.{option_copied};
ghost use Rattle.prolly_entry.specs.Pair.{Pair as PairValue};
ghost use Rattle.prolly_entry.specs.Spelling.{pair_spelling};
ghost use Rattle.prolly_entry.specs.declared.version.Version.TheVariants.{One};
ghost use Rattle.prolly_tree.specs.Chunk.{chunk_of};
ghost use Rattle.prolly_check.specs.Digests.{AreCounted, IsPairsDigest, TellsOf};
ghost use Rattle.prolly_look_up.specs.Entries.{Holds, IsLeaf, IsSomeLeaf, IsWhole, pairs_in};
ghost use Rattle.prolly_check.specs.FirstFault.{last_behind, rises_behind};
ghost use Rattle.prolly_look_up.specs.HeldPairs.{pairs_held};

use prolly_chunk::BorrowedEvent;
use prolly_entry::{Cut, Sha512Cut, Version, key_rises, split_pair};
use prolly_look_up::{LEAF, Pairs, is_node};

/// What the pairs of a chunk tell. A node has none.
#[derive(Clone, Copy)]
pub struct PairsDigest {
    /// Where the last pair begins in the chunk's entries, or where these end, if there is no pair.
    pub last_pair: usize,
    /// How many pairs there are.
    pub count: u64,
    /// Whether each key is greater than the one before it.
    pub rises: bool,
    /// Whether one of the pairs is a boundary.
    pub has_boundary: bool,
    /// Whether the last pair is a boundary, and no pair before it is.
    pub is_whole_leaf: bool,
}

impl PairsDigest {
    /// Of a chunk, unless it is not a level and whole lawful entries of that level's kind.
    ///
    /// Takes no memory. Reads the entries once, and takes a hash of each pair up to the first
    /// boundary.
    pub(crate) fn of(cut: Sha512Cut, version: Version, chunk: &[u8]) -> Option<PairsDigest>
        ensures whole { IfSome result (λ _. IsWhole version chunk.now) }
        ensures some { IfSome result (IsPairsDigest cut chunk.now) }
        ensures none { IfNone result ((pairs : List PairValue) → Holds version chunk.now pairs → ⊥) }
    {
        if chunk.len() == 0 {
            return None;
        }
        let entries = &chunk[1..];
        if chunk[0] == LEAF {
            return PairsDigest::of_leaf(cut, entries);
        }
        if !is_node(version, entries) {
            return None;
        }
        Some(PairsDigest::of_none(entries.len()))
    }

    /// Of the entries of a leaf, unless they are not whole and lawful.
    fn of_leaf(cut: Sha512Cut, entries: &[u8]) -> Option<PairsDigest>
        ensures leaf { IfSome result (λ _. IsSomeLeaf entries.now) }
        ensures some { IfSome result (TellsOf cut entries.now (pairs_in entries.now)) }
        ensures none { IfNone result ((pairs : List PairValue) → IsLeaf entries.now pairs → ⊥) }
    {
        let mut digest = PairsDigest::of_none(0);
        let mut last_key = None;
        let mut rest = entries;
        while let Some((key, _, behind)) = split_pair(rest) {
            let (spelling, _) = rest.split_at(rest.len() - behind.len());
            let start = entries.len() - rest.len();
            digest.push(cut, start, key_rises(last_key, key), spelling);
            last_key = Some(key);
            rest = behind;
        }
        if rest.len() > 0 {
            return None;
        }
        Some(digest)
    }

    /// Of no pairs, where the entries end there.
    pub(crate) fn of_none(end: usize) -> PairsDigest
        ensures pairs { (bits : ℕ) → AreCounted bits [] result }
        ensures end { result.last_pair ≡ end }
    {
        PairsDigest {
            last_pair: end,
            count: 0,
            rises: true,
            has_boundary: false,
            is_whole_leaf: false,
        }
    }

    /// Counts one pair more, the last one, which begins there and whose key rises or does not. It is
    /// hashed where no pair before it is a boundary.
    fn push(&mut self, cut: Sha512Cut, start: usize, rises: bool, spelling: &[u8])
        requires { self.old.count + 1 < 2 ^ 64 }
        ensures start { self.new.last_pair ≡ start }
        ensures pairs { (pairs : List PairValue) (pair : PairValue) →
            rises ≡ rises_behind (last_behind None pairs) (pair ∷ []) →
            spelling.now ≡ pair_spelling pair → AreCounted cut pairs self.old →
            AreCounted cut (pairs ++ pair ∷ []) self.new }
    {
        self.last_pair = start;
        self.count += 1;
        self.rises &= rises;
        if self.has_boundary {
            self.is_whole_leaf = false;
            return;
        }
        let is_boundary = cut.is_boundary(spelling);
        self.has_boundary = is_boundary;
        self.is_whole_leaf = is_boundary;
    }

    /// The last key, or none where there are no pairs. Reads the last pair alone.
    pub(crate) fn last_key<'a>(&self, chunk: &'a [u8]) -> Option<&'a [u8]>
        requires some { 0 < length chunk.now }
        requires digest { (bits : ℕ) × IsPairsDigest bits chunk.now self.now }
        ensures { option_copied result ≡ last_behind None (pairs_held chunk.now) }
    {
        let entries = &chunk[1..];
        let (key, _) = Pairs::new(&entries[self.last_pair..]).first()?;
        Some(key)
    }

    /// The event of the chunk, where it is a leaf with pairs. Reads the last pair alone.
    pub(crate) fn event<'a>(&self, version: Version, chunk: &'a [u8]) -> BorrowedEvent<'a>
        requires whole { IsWhole version chunk.now }
        requires digest { (bits : ℕ) × IsPairsDigest bits chunk.now self.now }
        requires some { 0 < length (pairs_held chunk.now) }
        ensures event { result ≡ chunk_of One 0 (pairs_held chunk.now) }
        ensures bytes { result.bytes ≡ chunk.now }
    {
        let key = self.last_key(chunk).unwrap_or(&[]);
        BorrowedEvent::new(LEAF, key, self.count, chunk)
    }
}
