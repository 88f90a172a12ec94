//! What a worker does, and what a run asks of the types that it is written over.
ghost use Rattle.std.specs.Prelude.{◌≡◌, []};
ghost use Rattle.std.specs.Thread.{IsSync};
ghost use Rattle.prolly_link.specs.Identity.{LinkId};
ghost use Rattle.prolly_link.specs.Views.{Whole};

use prolly_io::Source;
use prolly_link::{BatchSender, ClosedBatch, Out};
use prolly_stage::Worker;
use std::alloc::Global;
use std::snapshot::Snapshot;
use std::sync::Wait;
use std::thread::{Promise, Threads};

/// The work of a worker: all that it is handed but its output.
pub(crate) trait Job {
    /// What it sends.
    type Item;

    /// What it gives back beside its output.
    type Done;

    /// It can be begun as it is.
    ghost IsReady: { Self → Type 0 };

    /// What is given back of it, and what went over the link of its output.
    ghost Gives: { Self → LinkId → Self.Done → Whole Self.Item → Type 0 };

    /// Who does it, as gates and permits know it.
    fn worker(&self) -> Worker;

    /// Does it, on the thread that it is called on.
    fn run<R: Wait + Threads + Sync, O: Out<Self::Item>>(
        self,
        rt: &R,
        alloc: Global,
        out: O,
    ) -> (Self::Done, O::Closed)
        requires ready { IsReady self }
        requires unsent { O.sent out ≡ [] }
        requires sync { IsSync R.row }
        ensures { Gives self (O.link out) result.0 record {
          link = O.closed_link result.1;
          items = O.all_sent result.1;
          end = O.end_sent result.1;
        } };
}

/// The promise of a thread that does a job.
#[derive(Drop)]
pub(crate) struct Kept<J: Job> {
    pub job: Snapshot<J>,
    pub out: Snapshot<BatchSender<J::Item>>,
}

impl<J: Job> Promise<(J::Done, ClosedBatch<J::Item>)> for Kept<J> {
    ghost kept_by = { λ p done. J.Gives p.job.value p.out.value.link done.0 done.1 };
}

/// A runtime that waits and starts threads, which share it.
pub(crate) trait Runtime: Wait + Threads + Sync {}

impl<R: Wait + Threads + Sync> Runtime for R {}

/// A source that goes to the thread of its loader.
pub(crate) trait Input: Source + Send + Drop {}

impl<S: Source + Send + Drop> Input for S {}
