//! The entries of a chunk that was tested.
ghost use Rattle.std.specs.Prelude.{◌≡◌, ◌↔◌, ◌==◌, ◌≤◌, [], ◌∷◌, true, false, List, length};
ghost use Rattle.std.specs.Prelude.{IsTrue, IfSome, IfNone, MatchOption, ◌<◌, ◌^◌, ◌-◌, drop};
ghost use Rattle.prolly_entry.specs.Pair.{Pair as PairValue};
ghost use Rattle.prolly_entry.specs.Child.{value_of};
ghost use Rattle.prolly_entry.specs.Spelling.{pair_spelling};
ghost use Rattle.prolly_tree.specs.RecordFile.{record_file};
ghost use Rattle.prolly_tree.specs.Tree.{last_key};
ghost use Rattle.prolly_look_up.specs.Entries.{Holds, IsLeaf, pairs_in, IsSomeLeaf, IsWhole, IsNode};
ghost use Rattle.prolly_look_up.specs.Entries.{children_in};
ghost use Rattle.prolly_look_up.specs.HeldPairs.{pairs_held};

use prolly_entry::{Child, Version, split_pair};
use std::marker::Model;

/// The level of a leaf, which is the first byte of its chunk. That of a node is greater.
pub const LEAF: u8 = 0;

/// Whether bytes are whole lawful entries of a leaf.
fn is_leaf(mut entries: &[u8]) -> bool
    ensures leaf { result ≡ true → IsSomeLeaf entries.now }
    ensures other { result ≡ false → (pairs : List PairValue) → IsLeaf entries.now pairs → ⊥ }
{
    while let Some((_, _, rest)) = split_pair(entries) {
        entries = rest;
    }
    entries.is_empty()
}

/// The pairs of one leaf, or those of them that are left, in their order. They are borrowed from the
/// bytes of its chunk.
#[derive(Drop)]
pub struct Pairs<'a> {
    entries: &'a [u8],
}

impl<'a> Model for Pairs<'a> {
    ghost Value = { List PairValue };

    ghost view = { λ p. pairs_in p.entries.now };

    ghost invariant = { λ p. IsSomeLeaf p.entries.now };
}

impl<'a> Pairs<'a> {
    /// The pairs of the entries of a leaf, which are its chunk without the first byte. Takes no memory,
    /// and reads none of them yet.
    pub fn new(entries: &'a [u8]) -> Pairs<'a>
        requires { IsSomeLeaf entries.now }
        ensures { result ≡ pairs_in entries.now }
    {
        Pairs { entries }
    }

    /// The key and the value of the next pair. Takes no memory.
    pub fn next(&mut self) -> Option<(&'a [u8], &'a [u8])>
        ensures next { MatchOption result (self.old ≡ [])
            (λ next. self.old ≡ record { key = next.0.now; value = next.1.now } ∷ self.new) }
        ensures lawful { IfSome result (λ next.
            (length next.0.now ≤ 1024) × (length next.1.now ≤ 65536)) }
        ensures none { IfNone result (self.new ≡ []) }
    {
        let (key, value, rest) = split_first_pair(self.entries)?;
        self.entries = rest;
        Some((key, value))
    }

    /// The spelling of the next pair. Takes no memory.
    pub fn next_spelling(&mut self) -> Option<&'a [u8]>
        ensures next { MatchOption result (self.old ≡ []) (λ spelling. (p : PairValue) ×
            (spelling.now ≡ pair_spelling p) × (self.old ≡ p ∷ self.new)) }
        ensures none { IfNone result (self.new ≡ []) }
    {
        let (_, _, rest) = split_pair(self.entries)?;
        let (spelling, _) = self.entries.split_at(self.entries.len() - rest.len());
        self.entries = rest;
        Some(spelling)
    }

    /// The key and the value of the first pair, which stays. Takes no memory.
    pub fn first(&self) -> Option<(&'a [u8], &'a [u8])>
        ensures { MatchOption result (self.now ≡ []) (λ first. (rest : List PairValue) ×
            (self.now ≡ record { key = first.0.now; value = first.1.now } ∷ rest)) }
    {
        let mut pairs = Pairs {
            entries: self.entries,
        };
        pairs.next()
    }

    /// The key of the last pair, which stays. Takes no memory, and time linear in the pairs.
    pub fn last_key(&self) -> Option<&'a [u8]>
        ensures key { MatchOption result (self.now ≡ [])
            (λ key. (0 < length self.now) × (key.now ≡ last_key self.now)) }
        ensures short { IfSome result (λ key. length key.now ≤ 1024) }
    {
        let mut pairs = Pairs {
            entries: self.entries,
        };
        let (mut last, _) = pairs.next()?;
        while let Some((key, _)) = pairs.next() {
            last = key;
        }
        Some(last)
    }

    /// Whether no pair is left.
    pub fn is_empty(&self) -> bool
        ensures { result ≡ (length self.now == 0) }
    {
        self.entries.is_empty()
    }

    /// Whether the pairs that are left are those that are left of the other leaf. Compares their
    /// bytes, and reads no pair.
    pub fn is_same(&self, other: &Pairs<'_>) -> bool
        ensures { IsTrue result ↔ (self.now ≡ other.now) }
    {
        self.entries == other.entries
    }

    /// The last key, empty where no pair is left, and how many pairs are left. Takes no memory, and
    /// time linear in the pairs.
    pub fn last_key_and_count(mut self) -> (&'a [u8], u64)
        requires { length self < 2 ^ 64 }
        ensures key { result.0.now ≡ last_key self.entry }
        ensures short { length result.0.now ≤ 1024 }
        ensures count { result.1 ≡ length self.entry }
    {
        let mut last: &[u8] = &[];
        let mut count = 0;
        while let Some((key, _)) = self.next() {
            last = key;
            count += 1;
        }
        (last, count)
    }

    /// The bytes of the pairs that are left, as a record file has them.
    pub fn spellings(&self) -> &'a [u8]
        ensures { result.now ≡ record_file self.now }
    {
        self.entries
    }
}

/// The pairs of a chunk that is a level and whole lawful entries, as [`test_chunk`](crate::test_chunk)
/// finds out. A node has none. Takes no memory, and reads none of them yet.
pub fn pairs_of(version: Version, chunk: &[u8]) -> Pairs<'_>
    requires { IsWhole version chunk.now }
    ensures { result ≡ pairs_held chunk.now }
{
    if chunk[0] == LEAF {
        return Pairs::new(&chunk[1..]);
    }
    Pairs::new(&[])
}

/// The key and the value of the first pair of the entries of a leaf, and the entries behind it.
/// Takes no memory.
pub fn split_first_pair(entries: &[u8]) -> Option<(&[u8], &[u8], &[u8])>
    requires { IsSomeLeaf entries.now }
    ensures first { MatchOption result (pairs_in entries.now ≡ []) (λ r. pairs_in entries.now ≡
        record { key = r.0.now; value = r.1.now } ∷ pairs_in r.2.now) }
    ensures leaf { IfSome result (λ r. IsSomeLeaf r.2.now) }
    ensures lawful { IfSome result (λ r. (length r.0.now ≤ 1024) × (length r.1.now ≤ 65536)) }
    ensures behind { IfSome result (λ r.
        r.2.now ≡ drop (length entries.now - length r.2.now) entries.now) }
{
    let (key, value, rest) = split_pair(entries)?;
    Some((key, value, rest))
}

/// The first child of the entries of a node, and the entries behind it. Takes no memory.
pub fn split_first_child(version: Version, entries: &[u8]) -> Option<(Child<'_>, &[u8])>
    requires { IsNode version entries.now [] }
    ensures first { MatchOption result (children_in version entries.now ≡ []) (λ r.
        children_in version entries.now ≡ value_of r.0 ∷ children_in version r.1.now) }
    ensures node { IfSome result (λ r. IsNode version r.1.now []) }
    ensures shorter { IfSome result (λ r. length r.1.now < length entries.now) }
    ensures behind { IfSome result (λ r.
        r.1.now ≡ drop (length entries.now - length r.1.now) entries.now) }
{
    let (child, rest) = Child::split(version, entries)?;
    Some((child, rest))
}

/// Whether bytes are whole lawful entries of a node. Takes no memory, and time linear in them.
pub fn is_node(version: Version, mut entries: &[u8]) -> bool
    ensures node { result ≡ true → IsNode version entries.now [] }
    ensures other { result ≡ false →
        (pairs : List PairValue) → IsNode version entries.now pairs → ⊥ }
{
    while let Some((_, rest)) = Child::split(version, entries) {
        entries = rest;
    }
    entries.is_empty()
}

/// Whether a chunk is a level and whole lawful entries of that level's kind.
pub(crate) fn is_whole(version: Version, chunk: &[u8]) -> bool
    ensures whole { result ≡ true → IsWhole version chunk.now }
    ensures other { result ≡ false → (pairs : List PairValue) → Holds version chunk.now pairs → ⊥ }
{
    if chunk.len() == 0 {
        return false;
    }
    let entries = &chunk[1..];
    if chunk[0] == LEAF {
        return is_leaf(entries);
    }
    is_node(version, entries)
}
