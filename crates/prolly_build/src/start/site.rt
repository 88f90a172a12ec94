//! What the workers of a build share, and how one of them is started.
ghost use Rattle.std.specs.Prelude.{◌≡◌, [], IfSome};
ghost use Rattle.std.specs.Thread.{IsSync};

use crate::config::Config;
use crate::start::job::{Job, Kept};
use core::thread::Stack;
use prolly_link::{BatchSender, ClosedBatch, End, RunFault};
use prolly_stage::{Gate, Gated, Worker};
use std::alloc::Global;
use std::snapshot::Snapshot;
use std::sync::Wait;
use std::thread::{PromisedHandle, Scope, Threads};

/// The scope of the workers' threads, the runtime, the gate that they ask, the permit that the
/// driver asks, and the settings.
#[derive(Drop)]
pub(crate) struct Context<'s, 'p, E, R, G, P> {
    pub scope: &'s Scope<'s, E>,
    pub rt: &'s R,
    pub alloc: Global,
    pub gate: &'s G,
    pub permit: &'p P,
    pub config: Config,
}

impl<'s, E, R: Wait + Threads + Sync, G: Gate, P: Permit> Context<'s, '_, E, R, G, P> {
    /// Has a worker do its job, on a thread of its own, behind the gate. `None` where it may not
    /// start, and its output is closed and the job dropped, or where no thread can be had, and both
    /// are dropped.
    pub(crate) fn start<J: Job + Send + Drop + 's>(
        &self,
        job: J,
        out: BatchSender<J::Item>,
    ) -> Option<PromisedHandle<(J::Done, ClosedBatch<J::Item>), Kept<J>>>
    where
        J::Item: Send + Drop + 's,
        J::Done: Send + Drop + 's,
        requires ready { J.IsReady job }
        requires unsent { out.items ≡ [] }
        requires sync { IsSync R.row }
        ensures job { IfSome result (λ handle. handle.promise.job.value ≡ job) }
        ensures out { IfSome result (λ handle. handle.promise.out.value ≡ out) }
    {
        let worker = job.worker();
        let out = permitted(self.rt, self.permit, worker, out)?;
        self.spawn(job, worker, out)
    }

    // As `start`, of a worker that may start.
    fn spawn<J: Job + Send + Drop + 's>(
        &self,
        job: J,
        worker: Worker,
        out: BatchSender<J::Item>,
    ) -> Option<PromisedHandle<(J::Done, ClosedBatch<J::Item>), Kept<J>>>
    where
        J::Item: Send + Drop + 's,
        J::Done: Send + Drop + 's,
        requires ready { J.IsReady job }
        requires unsent { out.items ≡ [] }
        requires sync { IsSync R.row }
        ensures job { IfSome result (λ handle. handle.promise.job.value ≡ job) }
        ensures out { IfSome result (λ handle. handle.promise.out.value ≡ out) }
    {
        let (rt, alloc, gate) = (self.rt, self.alloc, self.gate);
        let promise = Kept {
            job: Snapshot::of(&job),
            out: Snapshot::of(&out),
        };
        let work = move || -> (J::Done, ClosedBatch<J::Item>)
            requires { J.IsReady job × (out.items ≡ []) × IsSync R.row }
            ensures { J.Gives job out.link result.0 result.1 }
        { job.run(rt, alloc, Gated::new(out, worker, gate)) };
        worker_stack()
            .spawn_scoped_with(self.scope, promise, work)
            .ok()
    }
}

/// The runtime, the gate that workers ask, the permit that the driver asks, and the settings.
#[derive(Drop)]
pub(crate) struct Lent<'s, 'p, R, G, P> {
    pub rt: &'s R,
    pub alloc: Global,
    pub gate: &'s G,
    pub permit: &'p P,
    pub config: Config,
}

/// What a build asks before it starts a worker, on the caller's thread, so that a test can refuse
/// one.
pub trait Permit {
    /// Whether the worker may start. Where it may not, no further one is asked for, those that run
    /// end, and the build answers that a thread could not be started.
    fn may_start(&self, worker: Worker) -> bool;
}

/// All may start.
#[derive(Clone, Copy, Debug)]
pub struct AllStart;

impl Permit for AllStart {
    fn may_start(&self, _worker: Worker) -> bool {
        true
    }
}

/// The output of a worker that may start. `None` where it may not: the output is closed with that
/// fault.
pub(crate) fn permitted<T: Drop, R: Wait, P: Permit>(
    rt: &R,
    permit: &P,
    worker: Worker,
    out: BatchSender<T>,
) -> Option<BatchSender<T>>
    ensures { IfSome result (λ o. o ≡ out) }
{
    if permit.may_start(worker) {
        return Some(out);
    }
    let _ = out.close(rt, End::Fault(RunFault::NoThread));
    None
}

/// How many bytes of addresses the stack of a worker's thread has: four times those in which each
/// kind of worker was seen to run. The system's own choice is often 8 MB, which for 40 threads is
/// 320 MB that nobody uses.
const STACK_BYTES: usize = 262_144;

/// The stack of a worker's thread.
pub(crate) fn worker_stack() -> Stack {
    Stack::new().stack_size(STACK_BYTES)
}
