//! The work of the workers that an old tree needs.

use crate::start::job::Job;
use prolly_apply::{Applied, OLD_TREE, OldLeaf, OldLoaded, apply_stage, load_old};
use prolly_chunk::ChunkEvent;
use prolly_entry::{Record, Ref, Sha512Cut, Version};
use prolly_link::{BatchReceiver, Out};
use prolly_root::{ReadAhead, RootFault};
use prolly_stage::Worker;
use std::alloc::Global;
use std::sync::Wait;
use std::thread::Threads;

/// To load the leaves of an old tree. It gives the source back.
#[derive(Drop)]
pub(crate) struct LoadOld<D> {
    pub version: Version,
    pub root: Ref,
    pub source: D,
}

/// What that gives back.
#[derive(Drop)]
pub(crate) struct OldRead<D> {
    /// The source, as the reads left it.
    pub source: D,
    /// Why not all leaves were sent; none where they were.
    pub fault: Option<RootFault>,
}

impl<D: ReadAhead + Drop> Job for LoadOld<D> {
    ghost use Rattle.prolly_build.specs.OldWorkers.{IsOldLoadedFrom};

    type Item = OldLeaf;

    type Done = OldRead<D>;

    ghost IsReady = { λ _. Unit {0} };

    ghost Gives = { λ job link done closed. IsOldLoadedFrom D.goes_over D.failures
        job.version job.root.0 job.source link done.source done.fault closed };

    /// The loader of the old tree has the number by which faults name the tree.
    fn worker(&self) -> Worker {
        Worker::Loader(OLD_TREE)
    }

    fn run<R: Wait + Threads + Sync, O: Out<OldLeaf>>(
        self,
        rt: &R,
        alloc: Global,
        out: O,
    ) -> (OldRead<D>, O::Closed) {
        let LoadOld {
            version,
            root,
            source,
        } = self;
        let OldLoaded { source, out, fault } = load_old(rt, alloc, version, &root, source, out);
        (OldRead { source, fault }, out)
    }
}

/// To lay changes over the leaves of an old tree, and cut the leaves of the new one.
#[derive(Drop)]
pub(crate) struct ApplyLeaves {
    pub cut: Sha512Cut,
    pub old: BatchReceiver<OldLeaf>,
    pub changes: BatchReceiver<Record>,
}

/// What that gives back: the ends that the leaves and the changes came from, and whether the old
/// tree was refused.
#[derive(Drop)]
pub(crate) struct AppliedEnds {
    pub old: BatchReceiver<OldLeaf>,
    pub changes: BatchReceiver<Record>,
    pub refused: bool,
}

impl Job for ApplyLeaves {
    ghost use Rattle.std.specs.Prelude.{◌≡◌, []};
    ghost use Rattle.prolly_build.specs.OldWorkers.{IsAppliedTo};

    type Item = ChunkEvent;

    type Done = AppliedEnds;

    ghost IsReady = { λ job. (job.old.items ≡ []) × (job.changes.items ≡ []) };

    ghost Gives = { λ job link ends closed. IsAppliedTo job.cut job.old job.changes link ends.old
        ends.changes ends.refused closed };

    fn worker(&self) -> Worker {
        Worker::Stage(0)
    }

    fn run<R: Wait + Threads + Sync, O: Out<ChunkEvent>>(
        self,
        rt: &R,
        alloc: Global,
        out: O,
    ) -> (AppliedEnds, O::Closed) {
        let ApplyLeaves { cut, old, changes } = self;
        let Applied {
            old,
            changes,
            out,
            refused,
        } = apply_stage(rt, alloc, cut, old, changes, out);
        let ends = AppliedEnds {
            old,
            changes,
            refused,
        };
        (ends, out)
    }
}
