//! The pairs that are left of one leaf.
ghost use Rattle.std.specs.Prelude.{◌≡◌, ◌<◌, ◌≤◌, [], ◌∷◌, length, List, true, false, IfOk};
ghost use Rattle.std.specs.Prelude.{IfSome, MatchOption};
ghost use Rattle.prolly_look_up.specs.Entries.{IsWhole};
ghost use Rattle.prolly_look_up.specs.Kinds.{kind_of};
ghost use Rattle.prolly_look_up.specs.Kinds.Entries.{Leaf as LeafEntries};
ghost use Rattle.prolly_look_up.specs.Way.{level_of};
ghost use Rattle.prolly_entry.specs.Pair.{Pair as PairValue};

use prolly_entry::{Pair, Version};
use prolly_look_up::split_first_pair;
use std::alloc::{AllocError, Global};
use std::marker::Model;

/// The pairs of a leaf that are left, in the order of their keys. Contracts see their list.
#[derive(Drop)]
pub(crate) struct Leaf {
    chunk: Vec<u8>,
    /// Where in the chunk the entries of those begin.
    from: usize,
}

impl Model for Leaf {
    ghost use Rattle.std.specs.Prelude.{◌≤◌, List, drop, length};
    ghost use Rattle.prolly_entry.specs.Pair.{Pair as PairValue};
    ghost use Rattle.prolly_look_up.specs.Entries.{IsSomeLeaf, pairs_in};

    ghost Value = { List PairValue };

    ghost view = { λ leaf. pairs_in (drop leaf.from leaf.chunk.items) };

    ghost invariant = { λ leaf. (leaf.from ≤ length leaf.chunk.items) ×
        IsSomeLeaf (drop leaf.from leaf.chunk.items) };
}

impl Leaf {
    /// No pair.
    pub(crate) fn none(alloc: Global) -> Leaf
        ensures { result ≡ [] }
    {
        Leaf {
            chunk: Vec::new(alloc),
            from: 0,
        }
    }

    /// All pairs of a leaf.
    pub(crate) fn of(version: Version, chunk: Vec<u8>) -> Leaf
        requires whole { IsWhole version chunk.items }
        requires level { level_of chunk.items ≡ 0 }
        ensures { kind_of version chunk.items ≡ LeafEntries result }
    {
        Leaf { chunk, from: 1 }
    }

    /// The key and the value of the first pair.
    pub(crate) fn first(&self) -> Option<(&[u8], &[u8])>
        ensures first { MatchOption result (self.now ≡ []) (λ first. (rest : List PairValue) ×
            (self.now ≡ record { key = first.0.now; value = first.1.now } ∷ rest)) }
        ensures lawful { IfSome result (λ first. (length first.0.now ≤ 1024) ×
            (length first.1.now ≤ 65536)) }
    {
        let (key, value, _) = split_first_pair(&self.chunk[self.from..])?;
        Some((key, value))
    }

    /// Whether no pair is left.
    pub(crate) fn is_empty(&self) -> bool
        ensures yes { result ≡ true → self.now ≡ [] }
        ensures no { result ≡ false → self.now ≡ [] → ⊥ }
    {
        self.first().is_none()
    }

    /// Goes on behind the first pair.
    pub(crate) fn pass(&mut self)
        ensures { (first : PairValue) (rest : List PairValue) → self.old ≡ first ∷ rest →
            self.new ≡ rest }
    {
        if let Some((_, _, rest)) = split_first_pair(&self.chunk[self.from..]) {
            self.from = self.chunk.len() - rest.len();
        }
    }

    /// Takes the first pair.
    pub(crate) fn take(&mut self, alloc: Global) -> Result<Pair, AllocError>
        requires { 0 < length self.old }
        ensures { IfOk result (λ first. self.old ≡ first ∷ self.new) }
    {
        let (key, value) = self.first().unwrap();
        let pair = Pair::copy_of(alloc, key, value)?;
        self.pass();
        Ok(pair)
    }
}
