//! The levels of the tree of a map, each made of the whole list of the one below.
ghost use Rattle.std.specs.Prelude.{◌≡◌, ◌↔◌, ◌<◌, ◌^◌, count_by, length, ◌≤◌, ◌++◌, IsTrue};
ghost use Rattle.std.specs.Prelude.{IfSome, IfNone, IfOk, IfErr, OnOk};
ghost use Rattle.std.specs.Option.{option_to_list};
ghost use Rattle.prolly_entry.specs.declared.version.Version.{Version as VersionValue};
ghost use Rattle.prolly_entry.specs.Keys.{Rising};
ghost use Rattle.prolly_tree.specs.Chunk.{chunks};
ghost use Rattle.prolly_tree.specs.Events.{clean, has_level, leaf_events, inner_events};
ghost use Rattle.prolly_tree.specs.Pipeline.{HasSecond};
ghost use Rattle.prolly_tree.specs.Tree.{level_count};
ghost use Rattle.prolly_file.specs.Scratch.{keys_in, FallsAt};
ghost use Rattle.prolly_file.specs.Levels.{AddsLeaf, AddsNode, IsLevelFault};

use crate::scratch_build::ScratchFault;
use prolly_chunk::{ChunkEvent, LeafLevel, NodeLevel};
use prolly_entry::{Cut, Pair, Version, key_order};
use std::alloc::{AllocError, Global};

/// The place of the first pair whose key is not greater than the one before.
pub(crate) fn first_fall(pairs: &[Pair]) -> Option<usize>
    ensures some { IfSome result (FallsAt pairs.now) }
    ensures none { IfNone result (Rising (keys_in pairs.now)) }
    ensures few { length pairs.now < 2 ^ 64 }
{
    for place in 1..pairs.len() {
        if !key_order(pairs[place - 1].key(), pairs[place].key()).is_lt() {
            return Some(place);
        }
    }
    None
}

/// The chunks of the tree of a map, in the order in which a file has them.
pub(crate) fn all_chunks<C: Cut>(
    alloc: Global,
    cut: C,
    version: Version,
    pairs: &[Pair],
    max_levels: u8,
) -> Result<Vec<ChunkEvent>, ScratchFault>
    requires { length pairs.now < 2 ^ 64 }
    ensures ok { IfOk result (λ events. events.items ≡ chunks (C.cut cut) version pairs.now) }
    ensures low { OnOk result (level_count (C.cut cut) version pairs.now ≤ max_levels) }
    ensures err { IfErr result (λ fault. IsLevelFault
        (C.cut cut) version pairs.now max_levels fault) }
{
    if max_levels == 0 {
        return Err(ScratchFault::TooTall);
    }
    let mut events = leaves(alloc, cut, pairs)?;
    let mut level = 0;
    while has_second(&events, level) {
        level += 1;
        if level == max_levels {
            return Err(ScratchFault::TooTall);
        }
        events = with_nodes(alloc, cut, version, level, events)?;
    }
    Ok(events)
}

/// Whether a second chunk of the level is there, so that a level above is wanted.
fn has_second(events: &[ChunkEvent], level: u8) -> bool
    ensures { IsTrue result ↔ HasSecond level events.now }
{
    count_at(events, level) >= 2
}

/// The number of chunks of a level.
fn count_at(events: &[ChunkEvent], level: u8) -> usize
    ensures { result ≡ count_by (has_level level) events.now }
{
    events.iter().filter(|event| event.level() == level).count()
}

/// The leaves of a map.
fn leaves<C: Cut>(alloc: Global, cut: C, pairs: &[Pair]) -> Result<Vec<ChunkEvent>, AllocError>
    ensures { IfOk result (λ events. (version : VersionValue) →
        events.items ≡ leaf_events (C.cut cut) version clean pairs.now) }
{
    let mut level = LeafLevel::new(alloc, cut)?;
    let mut events = Vec::new(alloc);
    for pair in pairs {
        add_pair(alloc, &mut level, &mut events, pair)?;
    }
    add(&mut events, level.finish())?;
    Ok(events)
}

/// Takes a pair, and adds the leaf that it closes, if any.
fn add_pair<C: Cut>(
    alloc: Global,
    level: &mut LeafLevel<C>,
    events: &mut Vec<ChunkEvent>,
    pair: &Pair,
) -> Result<(), AllocError>
    ensures { OnOk result (AddsLeaf C.cut level.old level.new pair.now events.old.items
        events.new.items) }
{
    let closed = level.push(alloc, pair)?;
    add(events, closed)
}

/// The chunks below a level, with the nodes of the level put in, each behind its last child.
fn with_nodes<C: Cut>(
    alloc: Global,
    cut: C,
    version: Version,
    level: u8,
    events: Vec<ChunkEvent>,
) -> Result<Vec<ChunkEvent>, AllocError>
    requires { 1 ≤ level }
    ensures { IfOk result (λ more. more.items ≡ inner_events level
        (C.cut cut) version clean events.items) }
{
    let mut nodes = NodeLevel::new(alloc, version, level, cut)?;
    let mut more = Vec::new(alloc);
    for event in events {
        add_event(alloc, &mut nodes, &mut more, event)?;
    }
    add(&mut more, nodes.finish())?;
    Ok(more)
}

/// Takes an event, and adds it, and then the node that it closes, if any.
fn add_event<C: Cut>(
    alloc: Global,
    nodes: &mut NodeLevel<C>,
    more: &mut Vec<ChunkEvent>,
    event: ChunkEvent,
) -> Result<(), AllocError>
    ensures { OnOk result (AddsNode C.cut nodes.old nodes.new event more.old.items
        more.new.items) }
{
    let closed = nodes.push(alloc, &event)?;
    add(more, Some(event))?;
    add(more, closed)
}

/// Adds an event, if there is one.
fn add(events: &mut Vec<ChunkEvent>, event: Option<ChunkEvent>) -> Result<(), AllocError>
    ensures { OnOk result (events.new.items ≡ events.old.items ++ option_to_list event) }
{
    match event {
        None => Ok(()),
        Some(event) => Ok(events.push(event)?),
    }
}
