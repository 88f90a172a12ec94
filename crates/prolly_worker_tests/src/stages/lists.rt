//! Stages over lists, in one thread.
ghost use Rattle.std.specs.Prelude.{◌≡◌, ◌≤◌, []};
ghost use Rattle.prolly_entry.specs.declared.version.Version.{Version as VersionValue};
ghost use Rattle.prolly_tree.specs.Events.{leaf_events, inner_events};
ghost use Rattle.prolly_tree.specs.Pipeline.{pipeline_events};
ghost use Rattle.prolly_stage.specs.Sends.{Sends};

use prolly_entry::{Cut, Pair, Version};
use prolly_link::{ClosedList, End, ListIn, ListOut};
use prolly_stage::laws::stages_follow;
use prolly_stage::{ChunkEvent, Staged, inner_stage_as, leaf_stage};
use std::alloc::Global;
use std::sync::Wait;

/// The leaf stage.
pub(crate) fn leaves_of<C: Cut, R: Wait>(
    rt: &R,
    alloc: Global,
    cut: C,
    pairs: Vec<Pair>,
    last: End,
) -> ClosedList<ChunkEvent>
    ensures { (version : VersionValue) → Sends (leaf_events (C.cut cut) version)
        pairs.items last [] result.items.items result.last }
{
    let Staged { input, out } = leaf_stage(
        rt,
        alloc,
        cut,
        ListIn::new(pairs, last),
        ListOut::new(alloc),
    );
    drop(input);
    out
}

/// The stage of a level.
fn nodes_above<C: Cut, R: Wait>(
    rt: &R,
    alloc: Global,
    version: Version,
    level: u8,
    cut: C,
    events: ClosedList<ChunkEvent>,
) -> ClosedList<ChunkEvent>
    requires { 1 ≤ level }
    ensures { Sends (inner_events level (C.cut cut) version)
        events.items.items events.last [] result.items.items result.last }
{
    let input = ListIn::new(events.items, events.last);
    let Staged { input, out } = inner_stage_as(
        rt,
        alloc,
        version,
        level,
        cut,
        input,
        ListOut::new(alloc),
    );
    drop(input);
    out
}

/// The leaf stage, and the stage of level 1 behind it.
pub(crate) fn two_stages<C: Cut, R: Wait>(
    rt: &R,
    alloc: Global,
    cut: C,
    version: Version,
    pairs: Vec<Pair>,
    last: End,
) -> ClosedList<ChunkEvent>
    ensures { Sends (pipeline_events 1 (C.cut cut) version)
        pairs.items last [] result.items.items result.last }
{
    stages_follow();
    let events = leaves_of(rt, alloc, cut, pairs, last);
    nodes_above(rt, alloc, version, 1, cut, events)
}
