//! Loading the leaves of an old tree.
ghost use Rattle.std.specs.Prelude.{◌≡◌, ◌<◌, ◌∷◌, [], ◌++◌, List, None, Some, IfErr, IfOk};
ghost use Rattle.std.specs.Prelude.{IfSome, OnErr, OnOk};
ghost use Rattle.prolly_look_up.specs.HeldPairs.{pairs_held};
ghost use Rattle.prolly_root.specs.ChunkFile.{ChunkFile};
ghost use Rattle.prolly_root.specs.ChunkSource.{GoesOverStill, HasAsked};
ghost use Rattle.prolly_root_diff.specs.FirstFault.{DueAt, MayStopBehind, TellsLeaves};
ghost use Rattle.prolly_root_diff.specs.LeafWalk.{GivesNext, IsLeafRead, due_of_walk};
ghost use Rattle.prolly_root_diff.specs.Places.{AllStand};
ghost use Rattle.prolly_root_diff.specs.ToGo.{weights};
ghost use Rattle.prolly_apply.specs.OldLoaded.{IsOldLoaded, TellsReadsOf, load_end};

use crate::old_leaf::OldLeaf;
use prolly_entry::{Ref, Version};
use prolly_link::{End, Out, RunFault};
use prolly_look_up::ManyThreads;
use prolly_root::{ReadAhead, RootFault};
use prolly_root_diff::laws::leaves_are_right;
use prolly_root_diff::{LeafRead, RootLeaves};
use prolly_stage::OLD_TREE;
use std::alloc::{AllocError, Global};
use std::num::NonZeroUsize;
use std::sync::Wait;
use std::thread::{Threads, available_parallelism};

/// What the loader of an old tree gives back.
#[derive(Drop)]
pub struct OldLoaded<S, O: Out<OldLeaf>> {
    /// The source, as the reads left it.
    pub source: S,
    /// The output, closed.
    pub out: O::Closed,
    /// Why not all leaves were sent; none where they were.
    pub fault: Option<RootFault>,
}

/// Sends the leaves of the tree with this root, from left to right, for
/// [`apply_stage`](crate::apply_stage), and closes the output. Of the empty map's tree it sends
/// none. The root, and the version of the tree's chunks, come from who is trusted; of the source
/// nothing is believed.
///
/// It stops at the first fault, which it gives back. What was sent stays sent. Where memory was
/// refused, by a send too, the end says so; at any other fault it is a failed read of the file with
/// the number [`OLD_TREE`].
///
/// Each chunk of a tree that the source has is read once, and hashed once. The source is asked to
/// [read leaves ahead](ReadAhead::read_ahead), and at most one thread for each processor takes
/// their hashes. Holds a leaf, and the references of the children of the nodes above.
pub fn load_old<S: ReadAhead, O: Out<OldLeaf>, R: Wait + Threads + Sync>(
    rt: &R,
    alloc: Global,
    version: Version,
    root: &Ref,
    mut source: S,
    mut out: O,
) -> OldLoaded<S, O>
    ensures link { O.closed_link result.out ≡ O.link out }
    ensures loaded { IsOldLoaded (S.goes_over source) version root.now.0 (O.sent out)
        (O.all_sent result.out) result.fault }
    ensures end { O.end_sent result.out ≡ load_end result.fault }

    // A failed read is told. Of a file that the source goes over it is told what is wrong first, and
    // where no fault is told it has all chunks of the tree.
    ensures reads { TellsReadsOf (S.failures source) (S.failures result.source) result.fault }
    ensures keeps { GoesOverStill S.goes_over source result.source }
    ensures first { TellsLeaves (S.goes_over source) version root.now.0 result.fault }
{
    let fault = send_leaves(rt, alloc, version, root, &mut source, &mut out).err();
    OldLoaded {
        source,
        out: out.close(rt, end_of(fault)),
        fault,
    }
}

/// The end that is sent where there was this fault, or none.
fn end_of(fault: Option<RootFault>) -> End
    ensures { result ≡ load_end fault }
{
    match fault {
        None => End::Clean,
        Some(RootFault::Memory) => End::Fault(RunFault::Memory),
        Some(_) => End::Fault(RunFault::Read { file: OLD_TREE }),
    }
}

/// Sends the leaves of the tree with this root.
fn send_leaves<S: ReadAhead, O: Out<OldLeaf>, R: Wait + Threads + Sync>(
    rt: &R,
    alloc: Global,
    version: Version,
    root: &Ref,
    source: &mut S,
    out: &mut O,
) -> Result<(), RootFault>
    ensures link { O.link out.new ≡ O.link out.old }
    ensures ok { OnOk result (IsOldLoaded (S.goes_over source.old) version root.now.0
        (O.sent out.old) (O.sent out.new) None) }
    ensures err { IfErr result (λ fault. IsOldLoaded (S.goes_over source.old) version root.now.0
        (O.sent out.old) (O.sent out.new) (Some fault)) }
    ensures first { IfErr result (λ fault. TellsLeaves (S.goes_over source.old) version root.now.0
        (Some fault)) }
    ensures all { OnOk result (TellsLeaves (S.goes_over source.old) version root.now.0 None) }
    ensures asked { HasAsked S.goes_over S.failures source.old source.new result }
{
    // By these laws what a walk gives are the leaves of any map with this root.
    leaves_are_right();
    let mut leaves = RootLeaves::new(alloc, version, root)?;
    let hasher = ManyThreads::new(rt, processors(rt));
    while let Some(leaf) = next_leaf(&hasher, alloc, version, source, &mut leaves)? {
        send_leaf(rt, alloc, version, out, leaf)?;
    }
    Ok(())
}

/// How many threads can run at once, or one where the system can't tell.
fn processors<R: Threads>(rt: &R) -> NonZeroUsize {
    match available_parallelism(rt) {
        Ok(count) => count,
        Err(_) => NonZeroUsize::MIN,
    }
}

/// The next leaf, which was read ahead where it could be.
fn next_leaf<S: ReadAhead, R: Threads + Sync>(
    hasher: &ManyThreads<'_, R>,
    alloc: Global,
    version: Version,
    source: &mut S,
    leaves: &mut RootLeaves<S::Place>,
) -> Result<Option<LeafRead>, RootFault>
    requires { leaves.old.fault ≡ None }
    ensures version { leaves.new.version ≡ leaves.old.version }
    ensures gives { IfOk result (λ leaf. GivesNext S.goes_over S.stands leaves.old.version
        source.old leaves.old.due.items leaf leaves.new.due.items) }
    ensures nearer { IfOk result (λ leaf. IfSome leaf (λ _.
        weights (due_of_walk leaves.new) < weights (due_of_walk leaves.old))) }
    ensures goes_on { OnOk result (leaves.new.fault ≡ None) }
    ensures tells { (file : ChunkFile) (old : List DueAt) → S.goes_over source.old file →
        AllStand S.stands file leaves.old.due.items old →
        IfErr result (MayStopBehind leaves.old.version file old) }
    ensures asked { HasAsked S.goes_over S.failures source.old source.new result }
{
    if !leaves.is_exhausted() {
        source.read_ahead(hasher, alloc, version)?;
    }
    leaves.next(alloc, source)
}

/// Sends a leaf that was read. An `Err` has sent nothing.
fn send_leaf<O: Out<OldLeaf>, R: Wait>(
    rt: &R,
    alloc: Global,
    version: Version,
    out: &mut O,
    leaf: LeafRead,
) -> Result<(), AllocError>
    requires { IsLeafRead version leaf }
    ensures link { O.link out.new ≡ O.link out.old }
    ensures ok { OnOk result (O.sent out.new ≡ O.sent out.old ++
        pairs_held leaf.chunk.items ∷ []) }
    ensures err { OnErr result (O.sent out.new ≡ O.sent out.old) }
{
    let LeafRead { reference, chunk } = leaf;
    let size = chunk.len();
    let leaf = OldLeaf::new(alloc, version, reference, chunk)?;
    match out.send_sized(rt, leaf, size) {
        Ok(()) => Ok(()),
        Err(_) => Err(AllocError),
    }
}
