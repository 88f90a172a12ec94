//! The work of each kind of worker.

use crate::start::job::Job;
use prolly_chunk::ChunkEvent;
use prolly_entry::{Pair, Record, Sha512Cut, Version};
use prolly_io::Source;
use prolly_link::{BatchReceiver, Out};
use prolly_load::{Loaded, load};
use prolly_merge::{Merged, MergedTwo, merge, merge_two};
use prolly_stage::{Staged, Worker, inner_stage_as, leaf_stage};
use std::alloc::Global;
use std::sync::Wait;
use std::thread::Threads;

/// To load a record file. It gives the source back.
#[derive(Drop)]
pub(crate) struct Load<S> {
    pub file: u32,
    pub limit: u32,
    pub source: S,
}

impl<S: Source> Job for Load<S> {
    ghost use Rattle.prolly_build.specs.Workers.{IsLoadedFrom};

    type Item = Record;

    type Done = S;

    ghost IsReady = { λ _. Unit {0} };

    ghost Gives = { λ job link source closed. IsLoadedFrom S.seen job.file job.limit job.source link
        source closed };

    fn worker(&self) -> Worker {
        Worker::Loader(self.file)
    }

    fn run<R: Wait + Threads + Sync, O: Out<Record>>(
        self,
        rt: &R,
        alloc: Global,
        out: O,
    ) -> (S, O::Closed) {
        let Load {
            file,
            limit,
            source,
        } = self;
        let Loaded { source, out } = load(rt, alloc, file, source, limit, out);
        (source, out)
    }
}

/// To merge two links of records. It gives the ends back.
#[derive(Drop)]
pub(crate) struct MergeTwo {
    pub number: u32,
    pub left: BatchReceiver<Record>,
    pub right: BatchReceiver<Record>,
}

impl Job for MergeTwo {
    ghost use Rattle.prolly_build.specs.RunResult.{IsUnreceived};
    ghost use Rattle.prolly_build.specs.Mergers.{IsMergedTwo};

    type Item = Record;

    type Done = (BatchReceiver<Record>, BatchReceiver<Record>);

    ghost IsReady = { λ job. IsUnreceived job.left × IsUnreceived job.right };

    ghost Gives = { λ job link ends closed. IsMergedTwo job.left job.right link ends.0 ends.1
        closed };

    fn worker(&self) -> Worker {
        Worker::Merger(self.number)
    }

    fn run<R: Wait + Threads + Sync, O: Out<Record>>(
        self,
        rt: &R,
        _alloc: Global,
        out: O,
    ) -> ((BatchReceiver<Record>, BatchReceiver<Record>), O::Closed) {
        let MergeTwo {
            number: _,
            left,
            right,
        } = self;
        let MergedTwo {
            left,
            right,
            out,
            items: _,
        } = merge_two(rt, left, right, out);
        ((left, right), out)
    }
}

/// To merge all links that are left into pairs, as the last merger does. It gives the ends back.
#[derive(Drop)]
pub(crate) struct MergeLast {
    pub number: u32,
    pub inputs: Vec<BatchReceiver<Record>>,
}

impl Job for MergeLast {
    ghost use Rattle.std.specs.Prelude.{All};
    ghost use Rattle.prolly_build.specs.RunResult.{IsUnreceived};
    ghost use Rattle.prolly_build.specs.Mergers.{IsMerged};

    type Item = Pair;

    type Done = Vec<BatchReceiver<Record>>;

    ghost IsReady = { λ job. All IsUnreceived job.inputs.items };

    ghost Gives = { λ job link inputs closed. IsMerged job.inputs.items link inputs.items closed };

    fn worker(&self) -> Worker {
        Worker::Merger(self.number)
    }

    fn run<R: Wait + Threads + Sync, O: Out<Pair>>(
        self,
        rt: &R,
        alloc: Global,
        out: O,
    ) -> (Vec<BatchReceiver<Record>>, O::Closed) {
        let MergeLast { number: _, inputs } = self;
        let Merged {
            inputs,
            out,
            pairs: _,
        } = merge(rt, alloc, inputs, out);
        (inputs, out)
    }
}

/// To cut the pairs into leaves. It gives the end back that the pairs came from.
#[derive(Drop)]
pub(crate) struct CutLeaves {
    pub cut: Sha512Cut,
    pub pairs: BatchReceiver<Pair>,
}

impl Job for CutLeaves {
    ghost use Rattle.std.specs.Prelude.{◌≡◌, []};
    ghost use Rattle.prolly_entry.specs.declared.version.Version.{Version as VersionValue};
    ghost use Rattle.prolly_tree.specs.Events.{leaf_events};
    ghost use Rattle.prolly_entry.specs.Cut.{sha512_cut};
    ghost use Rattle.prolly_build.specs.Workers.{IsStaged};

    type Item = ChunkEvent;

    type Done = BatchReceiver<Pair>;

    ghost IsReady = { λ job. job.pairs.items ≡ [] };

    ghost Gives = { λ job link ended closed. (version : VersionValue) → IsStaged
        (leaf_events (sha512_cut job.cut) version) job.pairs link ended closed };

    fn worker(&self) -> Worker {
        Worker::Stage(0)
    }

    fn run<R: Wait + Threads + Sync, O: Out<ChunkEvent>>(
        self,
        rt: &R,
        alloc: Global,
        out: O,
    ) -> (BatchReceiver<Pair>, O::Closed) {
        let CutLeaves { cut, pairs } = self;
        let Staged { input, out } = leaf_stage(rt, alloc, cut, pairs, out);
        (input, out)
    }
}

/// To cut the chunks of one level into nodes of the next. It gives the end back that they came
/// from.
#[derive(Drop)]
pub(crate) struct CutNodes {
    pub level: u8,
    pub cut: Sha512Cut,
    pub version: Version,
    pub chunks: BatchReceiver<ChunkEvent>,
}

impl Job for CutNodes {
    ghost use Rattle.std.specs.Prelude.{◌≡◌, ◌≤◌, []};
    ghost use Rattle.prolly_tree.specs.Events.{inner_events};
    ghost use Rattle.prolly_entry.specs.Cut.{sha512_cut};
    ghost use Rattle.prolly_build.specs.Workers.{IsStaged};

    type Item = ChunkEvent;

    type Done = BatchReceiver<ChunkEvent>;

    ghost IsReady = { λ job. (1 ≤ job.level) × (job.chunks.items ≡ []) };

    ghost Gives = { λ job link ended closed. IsStaged (inner_events job.level (sha512_cut job.cut)
        job.version) job.chunks link ended closed };

    fn worker(&self) -> Worker {
        Worker::Stage(u32::from(self.level))
    }

    fn run<R: Wait + Threads + Sync, O: Out<ChunkEvent>>(
        self,
        rt: &R,
        alloc: Global,
        out: O,
    ) -> (BatchReceiver<ChunkEvent>, O::Closed) {
        let CutNodes {
            level,
            cut,
            version,
            chunks,
        } = self;
        let Staged { input, out } = inner_stage_as(rt, alloc, version, level, cut, chunks, out);
        (input, out)
    }
}
