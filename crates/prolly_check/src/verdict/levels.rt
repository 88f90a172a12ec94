//! The levels of nodes of a tree that is followed: events that pass them, and their ends.
ghost use Rattle.std.specs.Prelude.{◌≡◌, [], ◌∷◌, ◌++◌, IfOk, OnOk, length};
ghost use Rattle.prolly_entry.specs.Cut.{sha512_cut};
ghost use Rattle.prolly_entry.specs.Reference.{reference_of};
ghost use Rattle.prolly_entry.specs.declared.version.Version.TheVariants.{One};
ghost use Rattle.prolly_tree.specs.Chunk.{chunk_of};
ghost use Rattle.prolly_chunk.specs.NodeLevel.{NodeTakes};
ghost use Rattle.prolly_check.specs.Follower.{ClosedPasses, ClosesAll, ClosesBehind, PassesOn};
ghost use Rattle.prolly_look_up.specs.HeldPairs.{bytes_in};
ghost use Rattle.prolly_check.specs.OpenLevels.{AreUnused, node_levels};

use crate::verdict::chunks_ahead::ChunksAhead;
use prolly_chunk::{BorrowedEvent, ChunkEvent, LeafLevel, NodeLevel};
use prolly_entry::{Ref, Sha512Cut, Version};
use std::alloc::{AllocError, Global};
use std::collections::VecDeque;

/// The number of levels of nodes. A tree of fewer than 2^64 pairs has no more.
const NODE_LEVELS: u8 = 64;

/// All levels of nodes, before the first chunk.
pub(crate) fn new_nodes(
    alloc: Global,
    cut: Sha512Cut,
    version: Version,
) -> Result<Vec<NodeLevel<Sha512Cut>>, AllocError>
    ensures unused { IfOk result (λ nodes. AreUnused cut version 1 nodes.items) }
    ensures count { IfOk result (λ nodes. length nodes.items ≡ node_levels) }
{
    let mut nodes = Vec::new(alloc);
    for level in 0..NODE_LEVELS {
        nodes.push(NodeLevel::new(alloc, version, level + 1, cut)?)?;
    }
    Ok(nodes)
}

/// Lets what a level closed, if it closed a node, pass the levels above. It is due, and so are then
/// the nodes that it closes, one level after another.
fn pass_on(
    alloc: Global,
    levels: &mut [NodeLevel<Sha512Cut>],
    node: Option<ChunkEvent>,
    next: &ChunksAhead,
    due: &mut VecDeque<ChunkEvent>,
) -> Result<(), AllocError>
    ensures passes { OnOk result (ClosedPasses levels.old levels.new node
        (bytes_in due.old.items) (bytes_in due.new.items)) }
    ensures size { length levels.new ≡ length levels.old }
{
    let Some(event) = node else {
        return Ok(());
    };
    let Some((level, above)) = levels.split_first_mut() else {
        due.push_back(event)?;
        return Ok(());
    };
    let closed = pass_one(alloc, level, event, next, due)?;
    pass_on(alloc, above, closed, next, due)
}

/// Lets an event pass one level. It is due. Answers the node that it closes.
fn pass_one(
    alloc: Global,
    level: &mut NodeLevel<Sha512Cut>,
    event: ChunkEvent,
    next: &ChunksAhead,
    due: &mut VecDeque<ChunkEvent>,
) -> Result<Option<ChunkEvent>, AllocError>
    ensures takes { IfOk result (λ closed. NodeTakes sha512_cut level.old level.new event closed) }
    ensures due { OnOk result (bytes_in due.new.items ≡ bytes_in due.old.items ++ event.bytes ∷ []) }
{
    let reference = next.reference_of(due.len(), event.bytes());
    let closed = level.push_known(alloc, &event.as_borrowed(), &reference)?;
    due.push_back(event)?;
    Ok(closed)
}

/// Lets the event of a leaf that was read pass the levels. The nodes that it closes are due.
pub(crate) fn pass_leaf(
    alloc: Global,
    levels: &mut [NodeLevel<Sha512Cut>],
    leaf: &BorrowedEvent,
    reference: &Ref,
    next: &ChunksAhead,
    due: &mut VecDeque<ChunkEvent>,
) -> Result<(), AllocError>
    requires reference { reference.now.0 ≡ reference_of leaf.now.bytes }
    requires none { due.old.items ≡ [] }
    ensures passes { OnOk result (PassesOn levels.old levels.new leaf.now []
        (leaf.now.bytes ∷ bytes_in due.new.items)) }
    ensures size { length levels.new ≡ length levels.old }
{
    let Some((level, above)) = levels.split_first_mut() else {
        return Ok(());
    };
    let closed = level.push_known(alloc, leaf, reference)?;
    pass_on(alloc, above, closed, next, due)
}

/// Lets the leaf of the empty map pass the levels.
fn pass_empty(
    alloc: Global,
    cut: Sha512Cut,
    levels: &mut [NodeLevel<Sha512Cut>],
    next: &ChunksAhead,
    due: &mut VecDeque<ChunkEvent>,
) -> Result<(), AllocError>
    ensures passes { OnOk result (PassesOn levels.old levels.new (chunk_of One 0 [])
        (bytes_in due.old.items) (bytes_in due.new.items)) }
    ensures size { length levels.new ≡ length levels.old }
{
    let leaf = LeafLevel::new(alloc, cut)?.finish();
    pass_on(alloc, levels, leaf, next, due)
}

/// Closes the levels behind whole leaves, of which so many chunks were read. What they close is due,
/// and where there was no leaf at all, the leaf of the empty map.
pub(crate) fn close_behind(
    alloc: Global,
    cut: Sha512Cut,
    number: usize,
    nodes: &mut Vec<NodeLevel<Sha512Cut>>,
    next: &ChunksAhead,
    due: &mut VecDeque<ChunkEvent>,
) -> Result<(), AllocError>
    requires { due.old.items ≡ [] }
    ensures { OnOk result (ClosesBehind cut nodes.old.items number (bytes_in due.new.items)) }
{
    if number == 0 {
        pass_empty(alloc, cut, nodes, next, due)?;
        return close_all(alloc, nodes, next, due);
    }
    close_all(alloc, nodes, next, due)
}

/// Closes the levels, from the lowest up. What they close is due.
pub(crate) fn close_all(
    alloc: Global,
    nodes: &mut Vec<NodeLevel<Sha512Cut>>,
    next: &ChunksAhead,
    due: &mut VecDeque<ChunkEvent>,
) -> Result<(), AllocError>
    ensures { OnOk result (ClosesAll nodes.old.items (bytes_in due.old.items)
        (bytes_in due.new.items)) }
{
    while nodes.len() > 0 {
        let last = nodes.remove(0).finish();
        pass_on(alloc, nodes, last, next, due)?;
    }
    Ok(())
}
