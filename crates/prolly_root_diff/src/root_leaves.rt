//! The leaves of a tree, for who knows its root.
ghost use Rattle.std.specs.Prelude.{◌≡◌, ◌<◌, [], List, true, false, length, None, Some, Err};
ghost use Rattle.std.specs.Prelude.{IfErr, IfOk, IfSome, OnOk};
ghost use Rattle.prolly_root.specs.ChunkFile.{ChunkFile};
ghost use Rattle.prolly_root.specs.ChunkSource.{HasAsked};
ghost use Rattle.prolly_root.specs.declared.root_fault.RootFault.{RootFault as RootFaultValue};
ghost use Rattle.prolly_root_diff.specs.DueTrees.{all_due};
ghost use Rattle.prolly_root_diff.specs.FirstFault.{DueAt, MayStopBehind};
ghost use Rattle.prolly_root_diff.specs.LeafWalk.{GivesNext, IsLeafWalk, due_of_walk};
ghost use Rattle.prolly_root_diff.specs.Places.{AllStand};
ghost use Rattle.prolly_root_diff.specs.ToGo.{weights};

use crate::due_trees::{read_first, whole_tree};
use crate::siblings::Siblings;
use prolly_entry::{Ref, Version};
use prolly_look_up::pairs_of;
use prolly_root::{ChunkSource, RootFault};
use std::alloc::{AllocError, Global};
use std::collections::VecDeque;
use std::marker::Model;

/// A leaf that was read: it has pairs, it can be read, and it has the reference.
#[derive(Drop)]
pub struct LeafRead {
    pub reference: Ref,
    /// Its bytes.
    pub chunk: Vec<u8>,
}

/// The leaves that are left of a tree, from left to right. The chunks come from a [`ChunkSource`],
/// which is lent to each call.
///
/// Taken together they are the leaves of any map with the tree's root, unless a chunk of its tree
/// has the reference of a different chunk, which was read or is one of the tree, too: see
/// [`laws::leaves_are_right`](crate::laws::leaves_are_right). That holds whatever the source does:
/// each chunk is compared with the reference in the one above it, and the first with the root.
/// Where the source goes over a chunk file, what was read stands there. Of a file of any bytes the
/// first fault is told. A lawful file has none: see
/// [`laws::walks_tell_one_fault`](crate::laws::walks_tell_one_fault).
///
/// Each chunk of the tree is read once. Memory is taken for the leaf that is given, and for the
/// references of the children of the nodes above.
#[derive(Drop)]
pub struct RootLeaves<T> {
    /// The version of the tree's chunks.
    version: Version,
    /// The subtrees that are due, those below the lowest node first.
    due: VecDeque<Siblings<T>>,
    /// The fault that stopped it.
    fault: Option<RootFault>,
}

impl<T> Model for RootLeaves<T> {
    ghost use Rattle.prolly_root_diff.specs.LeafWalk.{LeafWalk};

    ghost Value = { LeafWalk T };

    ghost view = { λ l. record { version = l.version; due = l.due; fault = l.fault } };
}

impl<T: Copy + Drop> RootLeaves<T> {
    /// All leaves of the tree with this root. The root, and the version of the chunks, come from who
    /// is trusted. Nothing is read yet.
    pub fn new(alloc: Global, version: Version, root: &Ref) -> Result<RootLeaves<T>, AllocError>
        ensures { IfOk result (IsLeafWalk version root.now.0) }
    {
        Ok(RootLeaves {
            version,
            due: whole_tree(alloc, root)?,
            fault: None,
        })
    }

    /// Whether no subtree is due any more, so that no leaf is left.
    pub fn is_exhausted(&self) -> bool
        ensures none { result ≡ true → due_of_walk self.now ≡ [] }
        ensures some { result ≡ false → 0 < length (due_of_walk self.now) }
    {
        self.due.is_empty()
    }

    /// The next leaf that has pairs, or none where none is left. (The one leaf of the empty map has
    /// none.) After the last one there is none at each further call.
    ///
    /// After an `Err` each further call answers the same, and reads nothing.
    pub fn next<S: ChunkSource<Place = T>>(
        &mut self,
        alloc: Global,
        source: &mut S,
    ) -> Result<Option<LeafRead>, RootFault>
        ensures version { self.new.version ≡ self.old.version }

        // The leaf that is given is the one among the chunks that were read. Each of these stood
        // where it was due.
        ensures gives { IfOk result (λ leaf. GivesNext S.goes_over S.stands self.old.version
            source.old self.old.due.items leaf self.new.due.items) }
        ensures nearer { IfOk result (λ leaf. IfSome leaf (λ _.
            weights (due_of_walk self.new) < weights (due_of_walk self.old))) }
        ensures stops { IfErr result (λ fault. self.new.fault ≡ Some fault) }
        ensures goes_on { OnOk result (self.new.fault ≡ None) }
        ensures stopped { (fault : RootFaultValue) → self.old.fault ≡ Some fault →
            (result ≡ Err fault) × (source.new ≡ source.old) }

        // Of a file that the source goes over it is told what is wrong first.
        ensures tells { (file : ChunkFile) (old : List DueAt) → self.old.fault ≡ None →
            S.goes_over source.old file → AllStand S.stands file self.old.due.items old →
            IfErr result (MayStopBehind self.old.version file old) }
        ensures asked { self.old.fault ≡ None →
            HasAsked S.goes_over S.failures source.old source.new result }
    {
        if let Some(fault) = self.fault {
            return Err(fault);
        }
        let leaf = next_leaf(&mut self.due, alloc, source, self.version);
        self.fault = match &leaf {
            Ok(_) => None,
            Err(fault) => Some(*fault),
        };
        leaf
    }
}

/// The next leaf that has pairs, or none where none is left.
fn next_leaf<S: ChunkSource>(
    due: &mut VecDeque<Siblings<S::Place>>,
    alloc: Global,
    source: &mut S,
    version: Version,
) -> Result<Option<LeafRead>, RootFault>
    ensures gives { IfOk result (λ leaf. GivesNext S.goes_over S.stands version source.old
        due.old.items leaf due.new.items) }
    ensures nearer { IfOk result (λ leaf. IfSome leaf (λ _.
        weights (all_due due.new.items) < weights (all_due due.old.items))) }
    ensures tells { (file : ChunkFile) (old : List DueAt) → S.goes_over source.old file →
        AllStand S.stands file due.old.items old →
        IfErr result (MayStopBehind version file old) }
    ensures asked { HasAsked S.goes_over S.failures source.old source.new result }
{
    'nodes: while !due.is_empty() {
        let (reference, chunk) = read_first(due, alloc, source, version)?;
        if !pairs_of(version, &chunk).is_empty() {
            return Ok(Some(LeafRead { reference, chunk }));
        }
    }
    Ok(None)
}
