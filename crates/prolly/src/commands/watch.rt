//! A run that may be watched.
use crate::host::Host;
use prolly_progress::{Counts, watched};
use std::sync::Wait;
use std::thread::Threads;
use std::time::Clock;

/// What a run counts, and whether that is shown while it is under way.
#[derive(Clone, Copy)]
pub struct Watch<'a> {
    pub counts: &'a Counts,
    /// How many bytes there are to read, where that is known.
    pub total: Option<u64>,
    /// Nothing is shown.
    pub quiet: bool,
}

impl Watch<'_> {
    /// Does the work, and gives what it gives.
    pub fn during<T: Wait + Threads + Clock + Sync, R, F: FnOnce() -> R>(
        self,
        host: &Host<'_, T>,
        work: F,
    ) -> R
        requires { F.pre work }
        ensures { F.post work result }
    {
        if self.quiet {
            return work();
        }
        let screen = host.rt.stderr();
        watched(host.threads, &screen, self.counts, self.total, work)
    }
}
