//! Builds that do not start.
use super::*;
use crate::expect::expect_eq;
use prolly_io::{Source, SourceFault};
use prolly_stage::Worker;
use std::sync::atomic::{AtomicUsize, Ordering};

const THREE_FILES: [&[u8]; 3] = [b"a1d1", b"b1", b"c1e1"];

/// The workers of a build of three files with four stages, in the order in which they start.
const WORKERS: [Worker; 9] = [
    Worker::Stage(3),
    Worker::Stage(2),
    Worker::Stage(1),
    Worker::Stage(0),
    Worker::Merger(1),
    Worker::Merger(0),
    Worker::Loader(0),
    Worker::Loader(1),
    Worker::Loader(2),
];

/// How many of them are started before the loaders.
const BEFORE_LOADERS: usize = 6;

/// A permit for so many workers, and no more. It counts how often it is asked, and how often for
/// another worker than the one whose turn it is.
#[derive(Drop)]
struct InTurn {
    granted: usize,
    asked: AtomicUsize,
    out_of_turn: AtomicUsize,
}

impl InTurn {
    fn new(granted: usize) -> InTurn {
        InTurn {
            granted,
            asked: AtomicUsize::new(0),
            out_of_turn: AtomicUsize::new(0),
        }
    }

    fn asked(&self) -> usize {
        self.asked.load(Ordering::SeqCst)
    }

    fn out_of_turn(&self) -> usize {
        self.out_of_turn.load(Ordering::SeqCst)
    }
}

impl Permit for InTurn {
    fn may_start(&self, worker: Worker) -> bool {
        let place = self.asked.fetch_add(1, Ordering::SeqCst);
        if WORKERS.get(place) != Some(&worker) {
            self.out_of_turn.fetch_add(1, Ordering::SeqCst);
        }
        place < self.granted
    }
}

/// Fails unless no source behind so many was read. One that was has given all it has.
fn expect_unread(rt: &impl Abort, sources: &mut [ScriptSource], read: usize) {
    for (place, source) in sources.iter_mut().enumerate() {
        if place >= read {
            expect_eq(rt, &source.read(&mut [0]), &Ok(1));
        }
    }
}

/// Builds where so many workers may start, and fails unless there is this fault, or none, the permit
/// was asked so often, each time for the worker whose turn it was, and the sink has taken these
/// bytes. A source whose loader did not start is as it was.
fn expect_started<R: Wait + Threads + Sync + Abort>(
    rt: &R,
    alloc: Global,
    granted: usize,
    asked: usize,
    fault: Option<RunFault>,
    taken: &[u8],
) -> Result<(), Fail> {
    let config = settings(4)?;
    let mut sources = sources_of(alloc, &THREE_FILES)?;
    let mut sink = open_sink(alloc);
    let permit = InTurn::new(granted);
    let built = build_with(
        rt,
        alloc,
        &config,
        &mut sources,
        &mut sink,
        &OpenGate,
        &permit,
    );
    let outcome = (built.err(), permit.asked(), sink.taken());
    expect_outcome(rt, outcome, (fault, asked, taken));
    expect_eq(rt, &(granted, permit.out_of_turn()), &(granted, 0));
    expect_unread(rt, &mut sources, granted.saturating_sub(BEFORE_LOADERS));
    Ok(())
}

// Behind the refusal of one nobody is asked for.
#[test]
fn workers_start_in_turn_and_each_may_be_refused(rt: HostRuntime) -> Result<(), Fail> {
    let alloc = rt.alloc();
    let no_thread = Some(RunFault::NoThread);
    for granted in 0..WORKERS.len() {
        expect_started(&rt, alloc, granted, granted + 1, no_thread, b"")?;
    }
    let file = file_of(alloc, b"a1b1c1d1e1")?;
    assert!(rt; file.len() == 415);
    expect_started(&rt, alloc, WORKERS.len(), WORKERS.len(), None, &file)
}

/// So many sources, of which each fails at its first read.
fn failing_sources(alloc: Global, count: usize) -> Result<Vec<ScriptSource>, Fail> {
    let mut sources = Vec::new(alloc);
    for _ in 0..count {
        sources.push(ScriptSource::new(Vec::new(alloc), 1, Some(1)))?;
    }
    Ok(sources)
}

/// Fails unless a read of the source does.
fn expect_failing(rt: &impl Abort, source: &mut ScriptSource) {
    expect_eq(rt, &source.read(&mut [0]), &Err(SourceFault));
}

// The first read of each source is still to come.
#[test]
fn seventeen_files_are_not_read(rt: HostRuntime) -> Result<(), Fail> {
    let alloc = rt.alloc();
    let config = settings(12)?;
    let mut sources = failing_sources(alloc, 17)?;
    let sink = open_sink(alloc);
    let fault = Some(RunFault::TooManyFiles);
    expect_build(
        &rt,
        alloc,
        &config,
        &OpenGate,
        &mut sources,
        sink,
        fault,
        b"",
    );
    for source in &mut sources {
        expect_failing(&rt, source);
    }
    Ok(())
}
