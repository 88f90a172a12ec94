//! What is left of one tree.
ghost use Rattle.std.specs.Prelude.{◌≡◌, ◌<◌, [], ◌∷◌, length, List, true, false, OnOk, IfOk};
ghost use Rattle.std.specs.Prelude.{IfErr, MatchOption};
ghost use Rattle.prolly_entry.specs.Pair.{Pair as PairValue};
ghost use Rattle.prolly_root.specs.ChunkSource.{HasAsked};
ghost use Rattle.prolly_root_diff.specs.FileWalks.{ComesInFile, StopsInFile};
ghost use Rattle.prolly_root_diff.specs.FirstFault.{TreeStep};
ghost use Rattle.prolly_root_diff.specs.Left.{Due};
ghost use Rattle.prolly_root_diff.specs.Notes.{Reads};
ghost use Rattle.prolly_root_diff.specs.DueTrees.{IsAtRoot};
ghost use Rattle.prolly_root_diff.specs.Sides.{PassesFirst, left_of};
ghost use Rattle.prolly_root_diff.specs.Walks.{IsDue, IsReady};

use crate::due_trees::{put_others, read_first, whole_tree};
use crate::leaf::Leaf;
use crate::notes::Note;
use crate::siblings::Siblings;
use prolly_entry::{Pair, Ref, Version};
use prolly_look_up::LEAF;
use prolly_root::{ChunkSource, RootFault};
use std::alloc::{AllocError, Global};
use std::collections::VecDeque;

/// What is left of a tree: the pairs in hand, and behind them the subtrees that are due.
#[derive(Drop)]
pub(crate) struct Side<T> {
    /// Those that are left of the leaf in hand.
    pub(crate) leaf: Leaf,
    /// The subtrees, those below the lowest node first.
    pub(crate) due: VecDeque<Siblings<T>>,
}

impl<T: Copy + Drop> Side<T> {
    /// All of the tree with this root.
    pub(crate) fn of_root(alloc: Global, root: &Ref) -> Result<Side<T>, AllocError>
        ensures { IfOk result (IsAtRoot root.now.0) }
    {
        Ok(Side {
            leaf: Leaf::none(alloc),
            due: whole_tree(alloc, root)?,
        })
    }

    /// Whether a pair is in hand, or nothing is left.
    pub(crate) fn is_ready(&self) -> bool
        ensures yes { result ≡ true → IsReady (left_of self.now) }
        ensures no { result ≡ false → IsDue (left_of self.now) }
    {
        !self.leaf.is_empty() || self.due.is_empty()
    }

    /// The reference of the first subtree that is due, and a number that its level is below.
    pub(crate) fn first_due(&self) -> Option<(Ref, u16)>
        ensures { MatchOption result ((left_of self.now).due ≡ []) (λ first. (rest : List Due) ×
            ((left_of self.now).due ≡ record { reference = first.0.0; bound = first.1 } ∷ rest)) }
    {
        let siblings = self.due.front()?;
        Some((siblings.next, siblings.bound()))
    }

    /// Goes on behind the first subtree that is due.
    pub(crate) fn pass_first(&mut self) -> Result<(), AllocError>
        requires { IsDue (left_of self.old) }
        ensures { OnOk result (PassesFirst self.old self.new) }
    {
        let Some(siblings) = self.due.pop_front() else {
            return Ok(());
        };
        put_others(&mut self.due, siblings)
    }

    /// Reads the chunk of the first subtree that is due, where no pair is in hand.
    pub(crate) fn open_first<S: ChunkSource<Place = T>>(
        &mut self,
        alloc: Global,
        source: &mut S,
        version: Version,
    ) -> Result<Note, RootFault>
        requires { IsDue (left_of self.old) }
        ensures opens { IfOk result (λ note. (reads : Reads version (left_of self.old)
            (left_of self.new) note) × ComesInFile S.goes_over S.stands version source.old
            (TreeStep.Reads reads.opens.chunk ∷ []) self.old.due.items self.new.due.items) }
        ensures stops { IfErr result (StopsInFile S.goes_over S.stands version source.old []
            self.old.due.items) }
        ensures asked { HasAsked S.goes_over S.failures source.old source.new result }
    {
        let (reference, chunk) = read_first(&mut self.due, alloc, source, version)?;
        let note = Note {
            reference,
            length: chunk.len() as u64,
        };
        if chunk[0] == LEAF {
            self.leaf = Leaf::of(version, chunk);
        }
        Ok(note)
    }

    /// The key and the value of the first pair in hand.
    pub(crate) fn first(&self) -> Option<(&[u8], &[u8])>
        ensures { MatchOption result (self.now.leaf ≡ []) (λ first. (rest : List PairValue) ×
            (self.now.leaf ≡ record { key = first.0.now; value = first.1.now } ∷ rest)) }
    {
        self.leaf.first()
    }

    /// Goes on behind the first pair in hand.
    pub(crate) fn pass_pair(&mut self)
        ensures pair { (first : PairValue) (rest : List PairValue) →
            self.old.leaf ≡ first ∷ rest → self.new.leaf ≡ rest }
        ensures due { self.new.due ≡ self.old.due }
    {
        self.leaf.pass();
    }

    /// Takes the first pair in hand.
    pub(crate) fn take(&mut self, alloc: Global) -> Result<Pair, AllocError>
        requires { 0 < length self.old.leaf }
        ensures pair { IfOk result (λ first. self.old.leaf ≡ first ∷ self.new.leaf) }
        ensures due { self.new.due ≡ self.old.due }
    {
        self.leaf.take(alloc)
    }
}
