//! Progress: that bytes are counted, and that something is shown, or nothing.
use crate::expect::expect_eq;
use prolly_io::{ScriptSink, ScriptSource, Sink, SinkFault, Source, SourceFault};
use prolly_progress::{CountedSink, CountedSource, CountingGate, Counts, Progress, watched};
use prolly_stage::{Gate, OLD_TREE, Worker};
use std::alloc::Global;
use std::fmt::Display;
use std::io::{Eprint, IsTerminal};
use std::sync::Wait;
use std::sync::atomic::{AtomicU64, Ordering};
use std::test::Fail;
use std::thread::Threads;
use std::time::{Clock, Duration};
use std::{io, thread};

/// A screen that counts what is printed on it, and fails from the first time on where it is broken.
#[derive(Drop)]
struct Screen {
    is_terminal: bool,
    is_broken: bool,
    printed: AtomicU64,
}

impl Screen {
    fn new(is_terminal: bool, is_broken: bool) -> Screen {
        Screen {
            is_terminal,
            is_broken,
            printed: AtomicU64::new(0),
        }
    }

    fn printed(&self) -> u64 {
        self.printed.load(Ordering::SeqCst)
    }
}

impl IsTerminal for Screen {
    fn is_terminal(&self) -> bool {
        self.is_terminal
    }
}

impl Eprint for Screen {
    fn eprint<D: Display + Drop>(&self, _value: D) -> io::Result<()> {
        self.printed.fetch_add(1, Ordering::SeqCst);
        if self.is_broken {
            return Err(io::Error::from(io::ErrorKind::BrokenPipe));
        }
        Ok(())
    }

    fn eprintln<D: Display + Drop>(&self, value: D) -> io::Result<()> {
        self.eprint(value)
    }
}

/// A terminal that counts how often these words are printed on it.
#[derive(Drop)]
struct Searched {
    alloc: Global,
    words: &'static str,
    found: AtomicU64,
}

impl IsTerminal for Searched {
    fn is_terminal(&self) -> bool {
        true
    }
}

impl Eprint for Searched {
    fn eprint<D: Display + Drop>(&self, value: D) -> io::Result<()> {
        let Ok(text) = format!(in self.alloc; "{value}") else {
            return Err(io::Error::from(io::ErrorKind::OutOfMemory));
        };
        if text.contains(self.words) {
            self.found.fetch_add(1, Ordering::SeqCst);
        }
        Ok(())
    }

    fn eprintln<D: Display + Drop>(&self, value: D) -> io::Result<()> {
        self.eprint(value)
    }
}

#[test]
fn lines_are_as_worked_out_by_hand(rt: HostRuntime) -> Result<(), Fail> {
    let under_way = Progress {
        records: 32_000_000,
        read: 1_234_567_890,
        total: Some(3_800_000_000),
        written: 901_500_000,
        millis: 3_980,
    };
    let of_unknown = Progress {
        total: None,
        ..under_way
    };
    let all_read = Progress {
        total: Some(1_234_567_890),
        ..under_way
    };
    let begun = Progress {
        records: 0,
        read: 0,
        total: Some(5_999_999),
        written: 0,
        millis: 0,
    };
    for (progress, line) in [
        (
            under_way,
            "read 32000000 records, 1234 of 3800 MB, wrote 901 MB, 310 MB/s, 9 s left",
        ),
        (
            of_unknown,
            "read 32000000 records, 1234 MB, wrote 901 MB, 310 MB/s",
        ),
        (
            all_read,
            "read 32000000 records, 1234 of 1234 MB, wrote 901 MB, 310 MB/s, 0 s left",
        ),
        (begun, "read 0 records, 0 of 5 MB, wrote 0 MB, 0 MB/s"),
    ] {
        let shown = format!(in rt.alloc(); "{progress}")?;
        expect_eq(&rt, &shown.as_str(), &line);
    }
    Ok(())
}

#[test]
fn bytes_are_counted_where_they_are_read(rt: HostRuntime) -> Result<(), Fail> {
    let counts = Counts::new();
    let bytes = Vec::from_slice(rt.alloc(), b"ten bytes.")?;
    let mut source = CountedSource::new(ScriptSource::new(bytes, 4, Some(2)), &counts);
    let mut buf = [0; 8];
    for (given, counted) in [
        (Ok(4), 4),
        (Err(SourceFault), 4),
        (Ok(4), 8),
        (Ok(2), 10),
        (Ok(0), 10),
    ] {
        expect_eq(&rt, &source.read(&mut buf), &given);
        expect_eq(&rt, &counts.read.count(), &counted);
    }
    Ok(())
}

#[test]
fn records_are_counted_once(rt: HostRuntime) {
    let counts = Counts::new();
    let gate = CountingGate::new(&counts);
    for nth in 0..200 {
        gate.before_send(&rt, Worker::Loader(0), nth);
        gate.before_send(&rt, Worker::Merger(0), nth);
        gate.before_send(&rt, Worker::Stage(0), nth);
    }
    for nth in 0..70 {
        gate.before_send(&rt, Worker::Loader(1), nth);
        gate.before_send(&rt, Worker::Loader(OLD_TREE), nth);
    }
    // Three times 64 of the first file, and once of the second.
    expect_eq(&rt, &counts.records.count(), &256);
}

#[test]
fn bytes_are_counted_where_they_are_written(rt: HostRuntime) -> Result<(), Fail> {
    let counts = Counts::new();
    let script = ScriptSink::new(rt.alloc(), 3, Some(2));
    let mut sink = CountedSink::new(script, &counts);
    for (given, counted) in [(Ok(3), 3), (Err(SinkFault), 3), (Ok(3), 6)] {
        expect_eq(&rt, &sink.write(b"bytes"), &given);
        expect_eq(&rt, &counts.written.count(), &counted);
    }
    Ok(())
}

#[test]
fn a_flush_that_fails_is_told(rt: HostRuntime) -> Result<(), Fail> {
    let counts = Counts::new();
    let mut sink = CountedSink::new(ScriptSink::new(rt.alloc(), 3, Some(1)), &counts);
    expect_eq(&rt, &sink.flush(), &Err(SinkFault));
    expect_eq(&rt, &sink.flush(), &Ok(()));
    Ok(())
}

/// Watches work that is long enough to be shown, and gives what it gives, which is 7.
fn watched_long<R: Threads + Wait + Clock + Sync, E: Eprint + IsTerminal + Sync>(
    rt: &R,
    screen: &E,
    counts: &Counts,
    total: Option<u64>,
) -> u32 {
    watched(rt, screen, counts, total, || {
        let _ = thread::sleep(rt, Duration::from_millis(1_300));
        7
    })
}

#[test]
fn long_work_is_shown_on_a_terminal(rt: HostRuntime) {
    let screen = Screen::new(true, false);
    expect_eq(&rt, &watched_long(&rt, &screen, &Counts::new(), None), &7);
    // A line, and its end.
    assert!(&rt; screen.printed() >= 2);
}

#[test]
fn what_was_read_is_told_apart_from_what_was_written(rt: HostRuntime) {
    let screen = Searched {
        alloc: rt.alloc(),
        words: "read 7 records, 3 of 9 MB, wrote 2 MB, ",
        found: AtomicU64::new(0),
    };
    let counts = Counts::new();
    counts.records.add(7);
    counts.read.add(3_999_999);
    counts.written.add(2_000_000);
    expect_eq(
        &rt,
        &watched_long(&rt, &screen, &counts, Some(9_000_000)),
        &7,
    );
    assert!(&rt; screen.found.load(Ordering::SeqCst) >= 1);
}

#[test]
fn a_screen_that_fails_is_no_fault(rt: HostRuntime) {
    let screen = Screen::new(true, true);
    expect_eq(
        &rt,
        &watched_long(&rt, &screen, &Counts::new(), Some(9)),
        &7,
    );
}

#[test]
fn nothing_is_shown_where_there_is_no_terminal(rt: HostRuntime) {
    let screen = Screen::new(false, false);
    expect_eq(&rt, &watched_long(&rt, &screen, &Counts::new(), None), &7);
    expect_eq(&rt, &screen.printed(), &0);
}

#[test]
fn nothing_is_shown_of_short_work(rt: HostRuntime) {
    let screen = Screen::new(true, false);
    expect_eq(&rt, &watched(&rt, &screen, &Counts::new(), None, || 7), &7);
    expect_eq(&rt, &screen.printed(), &0);
}
