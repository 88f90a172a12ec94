//! The leaves of a file that was checked, one after another.
ghost use Rattle.std.specs.Prelude.{◌≡◌, ◌<◌, List, [], ◌++◌, length, drop, IfSome, IfNone};
ghost use Rattle.std.specs.Prelude.{MatchOption};
ghost use Rattle.std.specs.List.{flat_map};
ghost use Rattle.prolly_entry.specs.Pair.{Pair as PairValue};
ghost use Rattle.prolly_check.specs.Chunks.{HasFile};
ghost use Rattle.prolly_look_up.specs.Content.{chunks_of};
ghost use Rattle.prolly_look_up.specs.HeldPairs.{pairs_held};
ghost use Rattle.prolly_look_up.specs.PairsFrom.{pairs_from};

use crate::file::CheckedFile;
use crate::look_up::descent::descend;
use prolly_look_up::{Pairs, Sought, rest_from};
use std::marker::Model;
use std::mem;

/// The leaves of a checked file, or those of them that are left, in the order of their keys.
#[derive(Drop)]
pub struct Leaves<'a> {
    file: CheckedFile<'a>,
    // What is given before the chunks from the number on.
    first: Pairs<'a>,
    number: usize,
}

// They are seen as what is left of the map: the first pairs, and those of the chunks from the
// number on.
impl<'a> Model for Leaves<'a> {
    ghost Value = { List PairValue };

    ghost view = { λ l. l.first ++ flat_map pairs_held (drop l.number (chunks_of l.file)) };
}

impl<'a> Leaves<'a> {
    /// All leaves of the file.
    pub(crate) fn new(file: CheckedFile<'a>) -> Leaves<'a>
        requires { HasFile file }
        ensures { result ≡ file.entry.pairs }
    {
        Leaves {
            file,
            first: Pairs::new(&[]),
            number: 0,
        }
    }

    /// The leaves of the pairs whose key is not less than `from`: of the first leaf only these.
    /// Reads one chunk a level.
    pub(crate) fn from_key(file: CheckedFile<'a>, from: &[u8]) -> Leaves<'a>
        requires { HasFile file }
        ensures { result ≡ pairs_from from.now file.entry.pairs }
    {
        let end = descend(&file, Sought::Key(from));
        let (first, _) = rest_from(file.version(), file.chunk(end.number), 0, from);
        // Where that leaf has none of them, the map has none.
        let number = if first.is_empty() {
            file.len()
        } else {
            end.number + 1
        };
        Leaves {
            file,
            first,
            number,
        }
    }

    /// The next leaf that has a pair: only the leaf of the empty map has none.
    ///
    /// Takes no memory. Passes over the nodes before the leaf, of each of which it reads one byte.
    pub fn next(&mut self) -> Option<Pairs<'a>>
        ensures next { MatchOption result (self.old ≡ []) (λ leaf. self.old ≡ leaf ++ self.new) }
        ensures some { IfSome result (λ leaf. 0 < length leaf) }
        ensures none { IfNone result (self.new ≡ []) }
    {
        // The leaves stand in the order of their pairs, and a node has no pair itself.
        while self.first.is_empty() && self.number < self.file.len() {
            self.first = self.file.pairs(self.number);
            self.number += 1;
        }
        let leaf = mem::replace(&mut self.first, Pairs::new(&[]));
        if leaf.is_empty() {
            return None;
        }
        Some(leaf)
    }
}
