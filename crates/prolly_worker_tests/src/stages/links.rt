//! A stage between links, behind a gate.
ghost use Rattle.std.specs.Prelude.{◌≡◌, []};
ghost use Rattle.prolly_entry.specs.declared.version.Version.{Version as VersionValue};
ghost use Rattle.prolly_entry.specs.Cut.{key_cut};
ghost use Rattle.prolly_tree.specs.Events.{leaf_events};
ghost use Rattle.prolly_link.specs.Progress.{end_given};
ghost use Rattle.prolly_stage.specs.Sends.{Sends};

use prolly_entry::{KeyCut, Pair};
use prolly_link::{BatchReceiver, BatchSender, ClosedBatch};
use prolly_stage::{ChunkEvent, Gate, Gated, Staged, Worker, leaf_stage};
use std::alloc::Global;
use std::sync::Wait;

/// The leaf stage from batches to batches.
pub(super) fn leaves_over_links<G: Gate, R: Wait>(
    rt: &R,
    alloc: Global,
    gate: &G,
    input: BatchReceiver<Pair>,
    out: BatchSender<ChunkEvent>,
) -> (BatchReceiver<Pair>, ClosedBatch<ChunkEvent>)
    requires input { input.items ≡ [] }
    requires out { out.items ≡ [] }
    ensures input_link { result.0.link ≡ input.link }
    ensures out_link { result.1.link ≡ out.link }
    ensures sends { (version : VersionValue) → Sends (leaf_events key_cut version)
        result.0.items (end_given result.0.progress) [] result.1.items result.1.end }
{
    let gated = Gated::new(out, Worker::Stage(0), gate);
    let Staged { input, out } = leaf_stage(rt, alloc, KeyCut, input, gated);
    (input, out)
}
