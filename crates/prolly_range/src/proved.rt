//! What a chunk of a proof shows.
ghost use Rattle.std.specs.Prelude.{◌≡◌, ◌≤◌, [], ◌∷◌, length, drop, IfNone, IfSome, MatchOption};
ghost use Rattle.prolly_look_up.specs.Entries.{IsWhole};
ghost use Rattle.prolly_look_up.specs.HeldPairs.{pairs_held};
ghost use Rattle.prolly_range.specs.KeySet.{pairs_wanted, set_of};

use crate::key_set::KeySet;
use prolly_entry::Version;
use prolly_io::FRAME_START;
use prolly_look_up::{Pairs, pairs_of};
use std::marker::Model;

/// A chunk of a proof that has its reference. Contracts see the pairs that it shows: those of a leaf
/// whose keys are of the set. A node shows none.
#[derive(Drop)]
pub struct ProvedChunk<'a> {
    version: Version,
    frame: Vec<u8>,
    set: KeySet<'a>,
}

impl<'a> Model for ProvedChunk<'a> {
    ghost use Rattle.std.specs.Prelude.{List, drop};
    ghost use Rattle.prolly_look_up.specs.Entries.{IsWhole};
    ghost use Rattle.prolly_look_up.specs.HeldPairs.{pairs_held};
    ghost use Rattle.prolly_entry.specs.Pair.{Pair as PairValue};
    ghost use Rattle.prolly_range.specs.KeySet.{pairs_wanted, set_of};

    ghost Value = { List PairValue };

    ghost view = { λ c. pairs_wanted (set_of c.set) (pairs_held (drop 9 c.frame.items)) };

    ghost invariant = { λ c. IsWhole c.version (drop 9 c.frame.items) };
}

impl<'a> ProvedChunk<'a> {
    /// The chunk in this frame, which was tested, where the keys of the set are sought.
    pub(crate) fn new(version: Version, frame: Vec<u8>, set: KeySet<'a>) -> ProvedChunk<'a>
        requires { IsWhole version (drop FRAME_START frame.items) }
        ensures { result ≡ pairs_wanted (set_of set.entry) (pairs_held (drop FRAME_START
            frame.items)) }
    {
        ProvedChunk {
            version,
            frame,
            set,
        }
    }

    /// The pairs that it shows, in the order of their keys. Takes no memory, and reads none of them
    /// yet.
    pub fn pairs(&self) -> PairsWanted<'_>
        ensures { result ≡ self.now }
    {
        PairsWanted {
            pairs: pairs_of(self.version, &self.frame[FRAME_START..]),
            set: self.set,
        }
    }
}

/// The pairs that are left of those that a chunk shows, in the order of their keys. They are
/// borrowed from the chunk.
#[derive(Drop)]
pub struct PairsWanted<'c> {
    pairs: Pairs<'c>,
    set: KeySet<'c>,
}

impl<'c> Model for PairsWanted<'c> {
    ghost use Rattle.std.specs.Prelude.{List};
    ghost use Rattle.prolly_entry.specs.Pair.{Pair as PairValue};
    ghost use Rattle.prolly_range.specs.KeySet.{pairs_wanted, set_of};

    ghost Value = { List PairValue };

    ghost view = { λ p. pairs_wanted (set_of p.set) p.pairs };
}

impl<'c> PairsWanted<'c> {
    /// The key and the value of the next pair. Takes no memory.
    pub fn next(&mut self) -> Option<(&'c [u8], &'c [u8])>
        ensures next { MatchOption result (self.old ≡ [])
            (λ next. self.old ≡ record { key = next.0.now; value = next.1.now } ∷ self.new) }
        ensures lawful { IfSome result (λ next.
            (length next.0.now ≤ 1024) × (length next.1.now ≤ 65536)) }
        ensures none { IfNone result (self.new ≡ []) }
    {
        while let Some((key, value)) = self.pairs.next() {
            if self.set.has(key) {
                return Some((key, value));
            }
        }
        None
    }
}
