//! The gate that each worker asks for each item.
ghost use Rattle.std.specs.Prelude.{ℕ};
ghost use Rattle.prolly_stage.specs.declared.gate.Worker.{Worker as WorkerValue};

use std::sync::Wait;

/// What a worker asks before it sends an item, so that a test or an observer can hold workers back
/// and see which of them are at work at one time. The workers share it, and it sees no item.
pub trait Gate: Sync {
    /// Whether it has opened for a worker's item of this number. Code that sends through any gate
    /// knows this from `before_send` alone, so it can't be proved where it sends first. A gate may
    /// leave it as it is.
    ghost HasOpened: { Self → WorkerValue → ℕ → Type 0 } = { λ _ _ _. Unit {0} };

    /// Returns once the worker may send its item of this number, counted from 0.
    fn before_send<R: Wait>(&self, rt: &R, worker: Worker, nth: u64)
        ensures { HasOpened self.now worker nth };
}

/// The gate that holds nobody back.
#[derive(Clone, Copy, Debug)]
pub struct OpenGate;

impl Gate for OpenGate {
    fn before_send<R: Wait>(&self, _rt: &R, _worker: Worker, _nth: u64) {}
}

/// The number of the loader of an old tree, by which a run's faults name that tree, too. A build
/// gives it to no record file: it numbers these from 0.
pub const OLD_TREE: u32 = u32::MAX;

/// A worker, which has a thread of its own. Each kind is numbered from 0.
#[derive(Clone, Copy, Debug, PartialEq, Eq)]
pub enum Worker {
    /// The loader of the record file of this number, or of an old tree: see [`OLD_TREE`].
    Loader(u32),
    /// A merger, by the order in which the mergers are formed.
    Merger(u32),
    /// The stage that makes the chunks of this level.
    Stage(u32),
}

/// A [`Gate`] that need not be `Sync`: a method of a trait can't pass on a bound that promises to
/// be shared between threads, so what `Gated` does for the trait `Out` asks for this one.
pub(crate) trait Ask {
    /// As `Gate::HasOpened`.
    ghost HasOpened: { Self → WorkerValue → ℕ → Type 0 };

    /// As `Gate::before_send`.
    fn ask<R: Wait>(&self, rt: &R, worker: Worker, nth: u64)
        ensures { HasOpened self.now worker nth };
}

impl<G: Gate> Ask for G {
    ghost HasOpened = { G.HasOpened };

    fn ask<R: Wait>(&self, rt: &R, worker: Worker, nth: u64) {
        self.before_send(rt, worker, nth);
    }
}
