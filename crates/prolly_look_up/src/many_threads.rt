//! Threads that share the work on chunks.
ghost use Rattle.std.specs.Prelude.{◌<◌};

use std::num::NonZeroUsize;
use std::thread::Threads;

/// How many bytes of chunks there are at least for each thread. To hash as many takes longer than to
/// start a thread.
const BYTES_PER_THREAD: usize = 65_536;

/// Threads that share the work on chunks, an equal share each. Where one can't be had, another does
/// its work, so nothing is refused for that.
#[derive(Drop)]
pub struct ManyThreads<'a, R: Threads + Sync> {
    /// What starts them.
    pub rt: &'a R,
    /// How many they are at most.
    pub threads: NonZeroUsize,
}

impl<'a, R: Threads + Sync> ManyThreads<'a, R> {
    /// So many threads at most, and no more than one for each 64 KiB of chunks. Chunks are of many
    /// sizes, so some four threads a processor even the shares out.
    pub fn new(rt: &'a R, threads: NonZeroUsize) -> ManyThreads<'a, R> {
        ManyThreads { rt, threads }
    }

    /// How many threads share so many bytes of chunks.
    pub fn count_for(&self, bytes: usize) -> usize
        ensures { 0 < result }
    {
        self.threads.get().min(bytes / BYTES_PER_THREAD).max(1)
    }
}
