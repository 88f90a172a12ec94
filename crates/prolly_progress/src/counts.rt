//! How far a build came: counters beside its sources, its sink and its gate.
ghost use Rattle.std.specs.Prelude.{◌≡◌, ◌/◌};
ghost use Rattle.std.specs.Io.Iter.{u64_saturate};
ghost use Rattle.std.specs.Duration.{as_nanos};

use crate::progress::Progress;
use prolly_io::{Sink, SinkFault, Source, SourceFault};
use prolly_stage::{Gate, OLD_TREE, Worker};
use std::sync::Wait;
use std::sync::atomic::{AtomicU64, Ordering};
use std::time::Duration;

/// How far a run has come. Its threads share it.
#[derive(Drop)]
pub struct Counts {
    /// How many bytes went through its sources.
    pub read: Counter,
    /// How many records were made of them.
    pub records: Counter,
    /// How many bytes went through its sink.
    pub written: Counter,
}

impl Counts {
    /// The counts of a run that has not begun.
    pub const fn new() -> Counts {
        Counts {
            read: Counter::new(),
            records: Counter::new(),
            written: Counter::new(),
        }
    }

    /// How far the run has come, of so many bytes where that is known, so long after it began.
    pub(crate) fn progress(&self, total: Option<u64>, elapsed: Duration) -> Progress
        ensures total { result.total ≡ total }
        ensures millis { result.millis ≡ u64_saturate (as_nanos elapsed / 1_000_000) }
    {
        Progress {
            records: self.records.count(),
            read: self.read.count(),
            total,
            written: self.written.count(),
            millis: u64::try_from(elapsed.as_millis()).unwrap_or(u64::MAX),
        }
    }
}

/// How many things were counted by all that share it, modulo 2^64. No contract says which number it
/// has: another thread may add to it at any time.
#[derive(Drop)]
pub struct Counter {
    count: AtomicU64,
}

impl Counter {
    /// A counter of nothing.
    pub const fn new() -> Counter {
        Counter {
            count: AtomicU64::new(0),
        }
    }

    /// Counts so many more.
    pub fn add(&self, more: u64) {
        self.count.fetch_add(more, Ordering::SeqCst);
    }

    /// How many were counted so far.
    pub fn count(&self) -> u64 {
        self.count.load(Ordering::SeqCst)
    }
}

/// A source whose bytes are counted, in all that contracts see the source itself. Each read adds
/// once to the counter, which is the whole cost.
#[derive(Drop)]
pub struct CountedSource<'a, S> {
    source: S,
    counts: &'a Counts,
}

impl<'a, S: Source> CountedSource<'a, S> {
    /// The source, of which each byte read from now on is counted.
    pub fn new(source: S, counts: &'a Counts) -> CountedSource<'a, S>
        ensures { (⟦<CountedSource<'a, S> as Source>⟧.seen result) ≡ S.seen source }
    {
        CountedSource { source, counts }
    }
}

impl<'a, S: Source> Source for CountedSource<'a, S> {
    ghost seen = { λ counted. S.seen counted.source };

    ghost left_are_bytes = { λ counted. S.left_are_bytes counted.source };

    fn read(&mut self, buf: &mut [u8]) -> Result<usize, SourceFault> {
        let count = self.source.read(buf)?;
        self.counts.read.add(count as u64);
        Ok(count)
    }
}

/// A sink whose bytes are counted, in all that contracts see the sink itself. Each write adds once
/// to the counter, which is the whole cost.
#[derive(Drop)]
pub struct CountedSink<'a, W> {
    sink: W,
    counts: &'a Counts,
}

impl<'a, W: Sink> CountedSink<'a, W> {
    /// The sink, of which each byte taken from now on is counted.
    pub fn new(sink: W, counts: &'a Counts) -> CountedSink<'a, W>
        ensures { (⟦<CountedSink<'a, W> as Sink>⟧.seen result) ≡ W.seen sink }
    {
        CountedSink { sink, counts }
    }
}

impl<'a, W: Sink> Sink for CountedSink<'a, W> {
    ghost seen = { λ counted. W.seen counted.sink };

    fn write(&mut self, buf: &[u8]) -> Result<usize, SinkFault> {
        let count = self.sink.write(buf)?;
        self.counts.written.add(count as u64);
        Ok(count)
    }

    fn flush(&mut self) -> Result<(), SinkFault> {
        self.sink.flush()
    }
}

/// How many records of a loader are counted at once: so few that a slow file shows that it is read,
/// and so many that a record costs no addition that threads share.
const RECORDS_AT_ONCE: u64 = 64;

/// The gate that holds nobody back, and counts the records that the loaders of record files make, 64
/// at once. What is left of a file at its end is not counted, nor are the leaves of an old tree.
#[derive(Clone, Copy)]
pub struct CountingGate<'a> {
    counts: &'a Counts,
}

impl<'a> CountingGate<'a> {
    /// The gate that adds to these counts.
    pub fn new(counts: &'a Counts) -> CountingGate<'a> {
        CountingGate { counts }
    }
}

impl Gate for CountingGate<'_> {
    fn before_send<R: Wait>(&self, _rt: &R, worker: Worker, nth: u64) {
        if sends_records(worker) && nth % RECORDS_AT_ONCE == RECORDS_AT_ONCE - 1 {
            self.counts.records.add(RECORDS_AT_ONCE);
        }
    }
}

/// Whether the worker loads a record file.
fn sends_records(worker: Worker) -> bool {
    match worker {
        Worker::Loader(number) => number != OLD_TREE,
        Worker::Merger(_) | Worker::Stage(_) => false,
    }
}
