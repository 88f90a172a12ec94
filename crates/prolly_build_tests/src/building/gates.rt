//! Gates show that workers are at work at once.
use super::*;
use crate::expect::expect_eq;
use prolly_stage::Worker;
use std::sync::atomic::{AtomicU64, Ordering};
use std::thread;

const MANY_TURNS: u64 = 10_000_000;

/// Enough for a worker that is not held.
const FEW_TURNS: u64 = 10_000;

/// A worker before an item of its own, and whether it has come there.
#[derive(Drop)]
struct Stop {
    worker: Worker,
    nth: u64,
    has_come: AtomicU64,
}

impl Stop {
    fn new(worker: Worker, nth: u64) -> Stop {
        Stop {
            worker,
            nth,
            has_come: AtomicU64::new(0),
        }
    }
}

/// A gate that holds each of two workers before an item until the other has come to its own, for at
/// most so many turns.
#[derive(Drop)]
struct Meeting {
    one: Stop,
    other: Stop,
    turns: u64,
    met: AtomicU64,
}

impl Meeting {
    fn new(one: Stop, other: Stop, turns: u64) -> Meeting {
        Meeting {
            one,
            other,
            turns,
            met: AtomicU64::new(0),
        }
    }

    /// One that holds each worker before its first item, for as long as it takes.
    fn at_first_items(one: Worker, other: Worker) -> Meeting {
        Meeting::new(Stop::new(one, 0), Stop::new(other, 0), MANY_TURNS)
    }

    /// Fails unless so many of the two have seen the other.
    fn expect_met(&self, rt: &impl Abort, expected: u64) {
        let met = self.met.load(Ordering::SeqCst);
        let Stop { worker, nth, .. } = self.other;
        let workers = (self.one.worker, worker, nth);
        expect_eq(rt, &(workers, met), &(workers, expected));
    }

    fn hold(&self, here: &Stop, there: &Stop) {
        here.has_come.store(1, Ordering::SeqCst);
        for _ in 0..self.turns {
            if there.has_come.load(Ordering::SeqCst) == 1 {
                self.met.fetch_add(1, Ordering::SeqCst);
                return;
            }
            thread::yield_now();
        }
    }
}

impl Gate for Meeting {
    fn before_send<R: Wait>(&self, _rt: &R, worker: Worker, nth: u64) {
        if worker == self.one.worker && nth == self.one.nth {
            self.hold(&self.one, &self.other);
        }
        if worker == self.other.worker && nth == self.other.nth {
            self.hold(&self.other, &self.one);
        }
    }
}

/// Builds a map from record files behind this gate, and fails unless so many of its two workers
/// have met.
fn expect_met<R: Wait + Threads + Sync + Abort>(
    rt: &R,
    alloc: Global,
    config: &Config,
    gate: &Meeting,
    files: &[&[u8]],
    map: &[u8],
    met: u64,
) -> Result<Report, Fail> {
    let report = expect_file(rt, alloc, config, gate, files, &file_of(alloc, map)?)?;
    gate.expect_met(rt, met);
    Ok(report)
}

/// Two workers beside each other, record files, the map that they come to, and the numbers of
/// chunks, pairs and levels. Two mergers of two stand above files 0 and 1, and above files 2 and 3.
const NEIGHBOURS_OF_ONE_KIND: [(Worker, Worker, &[&[u8]], &[u8], (u64, u64, u8)); 2] = [
    (
        Worker::Loader(0),
        Worker::Loader(1),
        &[b"a1", b"b1"],
        b"a1b1",
        (3, 2, 2),
    ),
    (
        Worker::Merger(0),
        Worker::Merger(1),
        &[b"a1", b"b1", b"c1", b"d1"],
        b"a1b1c1d1",
        (7, 4, 3),
    ),
];

#[test]
fn two_loaders_and_two_mergers_are_at_work_at_once(rt: HostRuntime) -> Result<(), Fail> {
    let config = settings(12)?;
    for &(one, other, files, map, numbers) in &NEIGHBOURS_OF_ONE_KIND {
        let gate = Meeting::at_first_items(one, other);
        let report = expect_met(&rt, rt.alloc(), &config, &gate, files, map, 2)?;
        expect_numbers(&rt, &report, numbers);
    }
    Ok(())
}

// A message of two items leaves once both are in it, so that then the leaf stage waits in vain.
#[test]
fn two_stages_are_at_work_at_once(rt: HostRuntime) -> Result<(), Fail> {
    for (batch, turns, met) in [(1, MANY_TURNS, 2), (2, 100_000, 1)] {
        let leaf_stage = Stop::new(Worker::Stage(0), 1);
        let gate = Meeting::new(leaf_stage, Stop::new(Worker::Stage(1), 0), turns);
        let config = settings_of(0, 2, 4, batch, Version::One)?;
        expect_met(&rt, rt.alloc(), &config, &gate, &[b"a1b1"], b"a1b1", met)?;
    }
    Ok(())
}

/// The capacity of the links, an item behind those that were taken, for how many turns the worker
/// that is ahead is waited for there, and how many of the two then meet.
const ITEMS_AHEAD: [(u32, u64, u64, u64); 4] = [
    (1, 1, MANY_TURNS, 2),
    (1, 2, FEW_TURNS, 1),
    (4, 4, MANY_TURNS, 2),
    (4, 5, FEW_TURNS, 1),
];

/// A worker that is held before its first item, the one that sends to it, and how many items the
/// first has taken by then: a merger takes the next record before it sends one.
const NEIGHBOURS: [(Worker, Worker, u64); 4] = [
    (Worker::Merger(0), Worker::Loader(0), 2),
    (Worker::Merger(1), Worker::Merger(0), 2),
    (Worker::Stage(0), Worker::Merger(1), 1),
    (Worker::Stage(1), Worker::Stage(0), 1),
];

// The sender fills the link behind what was taken and comes to the item that has no room, and no
// further.
#[test]
fn workers_are_ahead_by_the_capacity(rt: HostRuntime) -> Result<(), Fail> {
    let pairs = b"a1b1c1d1e1f1g1h1".as_slice();
    let files = [pairs, b"", b""];
    for &(held, ahead, taken) in &NEIGHBOURS {
        for &(capacity, more, turns, met) in &ITEMS_AHEAD {
            let gate = Meeting::new(Stop::new(held, 0), Stop::new(ahead, taken + more), turns);
            let config = Config::new(0, 12, capacity, 1_000)?;
            expect_met(&rt, rt.alloc(), &config, &gate, &files, pairs, met)?;
        }
    }
    Ok(())
}
