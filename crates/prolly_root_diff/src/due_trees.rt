//! The subtrees of a tree that are due.
ghost use Rattle.std.specs.Prelude.{◌≡◌, ◌<◌, ◌∷◌, List, length, OnOk, IfOk};
ghost use Rattle.prolly_root.specs.ChunkFile.{ChunkFile};
ghost use Rattle.prolly_root.specs.ChunkSource.{HasAsked};
ghost use Rattle.prolly_root.specs.RootFault.{IsOrFails};
ghost use Rattle.prolly_root_diff.specs.DueTrees.{IsWholeTree, ReadsFirst, all_due};
ghost use Rattle.prolly_root_diff.specs.FirstFault.{DueAt, MayStopWith, ReadsAt};
ghost use Rattle.prolly_root_diff.specs.Places.{AllStand};
ghost use Rattle.prolly_root_diff.specs.Sides.{PutBehindFirst};

use crate::siblings::Siblings;
use prolly_entry::{Ref, Version};
use prolly_look_up::LEAF;
use prolly_root::{ChunkSource, RootFault};
use std::alloc::{AllocError, Global};
use std::collections::VecDeque;

/// The whole tree with this root is due.
pub(crate) fn whole_tree<T: Copy + Drop>(
    alloc: Global,
    root: &Ref,
) -> Result<VecDeque<Siblings<T>>, AllocError>
    ensures { IfOk result (λ due. IsWholeTree root.now.0 due.items) }
{
    let mut due = VecDeque::new(alloc);
    put_first(&mut due, Siblings::of_root(alloc, root))?;
    Ok(due)
}

/// Reads the chunk of the first subtree that is due, and puts its children in its place. Gives the
/// reference and the chunk.
pub(crate) fn read_first<S: ChunkSource>(
    due: &mut VecDeque<Siblings<S::Place>>,
    alloc: Global,
    source: &mut S,
    version: Version,
) -> Result<(Ref, Vec<u8>), RootFault>
    requires { 0 < length (all_due due.old.items) }
    ensures reads { IfOk result (λ read. ReadsFirst version (all_due due.old.items) read.0.0
        read.1.items (all_due due.new.items)) }
    ensures tells { (file : ChunkFile) (old : List DueAt) → S.goes_over source.old file →
        AllStand S.stands file due.old.items old → IsOrFails (λ read. (new : List DueAt) ×
        ReadsAt version file read.1.items old new × AllStand S.stands file due.new.items new)
        (MayStopWith version file old) result }
    ensures asked { HasAsked S.goes_over S.failures source.old source.new result }
{
    let Some(mut siblings) = due.pop_front() else {
        return Err(RootFault::Missing);
    };
    let (chunk, place) = siblings.read(alloc, source, version)?;
    let reference = siblings.next;
    put_others(due, siblings)?;
    if chunk[0] == LEAF {
        return Ok((reference, chunk));
    }
    match Siblings::below(alloc, version, &chunk, place)? {
        None => Ok((reference, chunk)),
        Some(children) => {
            put_first(due, children)?;
            Ok((reference, chunk))
        }
    }
}

/// Puts the subtrees behind the next one of these before the others, where some are.
pub(crate) fn put_others<T: Copy + Drop>(
    due: &mut VecDeque<Siblings<T>>,
    mut siblings: Siblings<T>,
) -> Result<(), AllocError>
    ensures { OnOk result (PutBehindFirst siblings due.old.items due.new.items) }
{
    if !siblings.pass() {
        return Ok(());
    }
    put_first(due, siblings)
}

/// Puts these before the others.
fn put_first<T: Copy + Drop>(
    due: &mut VecDeque<Siblings<T>>,
    siblings: Siblings<T>,
) -> Result<(), AllocError>
    ensures { OnOk result (due.new.items ≡ siblings ∷ due.old.items) }
{
    due.push_front(siblings)?;
    Ok(())
}
