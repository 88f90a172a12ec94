//! The thread that shows how far a run has come.

use crate::counts::Counts;
use crate::progress::Progress;
use std::io::{Eprint, IsTerminal};
use std::sync::{Condvar, Mutex, Wait};
use std::thread::Threads;
use std::time::{Clock, Duration, Instant};
use std::{io, thread};

/// How many milliseconds a run lasts before anything is shown of it.
const QUIET_MILLIS: u64 = 1_000;

/// How many milliseconds a line stands before the next one takes its place.
const STANDING_MILLIS: u64 = 500;

/// How many bytes of addresses the stack of the thread that shows the line has: few, so that it
/// takes none from the work's own threads where addresses are scarce.
const STACK_BYTES: usize = 262_144;

/// Does the work, and gives what it gives. Where the screen is a terminal, and the work takes
/// longer than a second, its bottom line shows meanwhile how far the counts have come, of `total`
/// bytes where that is known, twice a second; it is clear again at the end.
///
/// Takes a thread beside the work's own. Where that can't be had, the clock can't be read or the
/// screen fails, the work goes on and nothing more is shown. A line has some 60 to 75 characters;
/// on a narrower screen it is not cleared whole.
pub fn watched<
    R: Threads + Wait + Clock + Sync,
    E: Eprint + IsTerminal + Sync,
    T,
    F: FnOnce() -> T,
>(rt: &R, screen: &E, counts: &Counts, total: Option<u64>, work: F) -> T
    requires { F.pre work }
    ensures { F.post work result }
{
    if !screen.is_terminal() {
        return work();
    }
    let stop = Stop::new();
    let stop = &stop;
    thread::scope(
        thread::scope_env(),
        rt,
        move |scope| -> T
            requires { F.pre work }
            ensures { F.post work result }
        {
            let watcher = thread::Builder::new().stack_size(STACK_BYTES);
            let _ = watcher.spawn_scoped(scope, move || watch(rt, screen, counts, total, stop));
            let result = work();
            stop.tell(rt);
            result
        },
    )
}

/// Shows how far a run has come, until it is told to stop.
pub(crate) fn watch<R: Wait + Clock, E: Eprint>(
    rt: &R,
    screen: &E,
    counts: &Counts,
    total: Option<u64>,
    stop: &Stop,
) {
    let Ok(start) = Instant::now(rt) else {
        return;
    };
    if stop.is_told_within(rt, Duration::from_millis(QUIET_MILLIS)) {
        return;
    }
    let standing = Duration::from_millis(STANDING_MILLIS);
    for _ in rt.forever() {
        let Ok(elapsed) = start.elapsed(rt) else {
            break;
        };
        let progress = counts.progress(total, elapsed);
        if show(screen, progress).is_err() || stop.is_told_within(rt, standing) {
            break;
        }
    }
    let _ = eprint!(screen; "\r\x1b[K");
}

/// Writes the line in the place of the one before.
fn show<E: Eprint>(screen: &E, progress: Progress) -> io::Result<()> {
    eprint!(screen; "\r\x1b[K{progress}")
}

/// What one thread tells another one, once: that it is to stop.
#[derive(Drop)]
pub(crate) struct Stop {
    is_told: Mutex<bool>,
    told: Condvar,
}

impl Stop {
    /// Nothing is told yet.
    pub(crate) fn new() -> Stop {
        Stop {
            is_told: Mutex::new(false),
            told: Condvar::new(),
        }
    }

    /// Ends the wait of those that wait, and of those that come later.
    pub(crate) fn tell<R: Wait>(&self, rt: &R) {
        *self.is_told.lock(rt) = true;
        self.told.notify_all();
    }

    /// Waits until it is told, but no longer than this, and answers whether it was told. Where the
    /// clock can't be read it does not wait.
    pub(crate) fn is_told_within<R: Wait + Clock>(&self, rt: &R, longest: Duration) -> bool {
        let is_told = self.is_told.lock(rt);
        let (is_told, _) = self
            .told
            .wait_timeout_while(rt, is_told, longest, |is_told| !*is_told);
        *is_told
    }
}
