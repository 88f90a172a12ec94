//! What a command runs on.
use prolly_look_up::ManyThreads;
use std::num::NonZeroUsize;
use std::thread::{Threads, available_parallelism};

/// How many threads take hashes for each processor. Each thread has as many chunks as another, but
/// chunks are of many sizes, so one thread may have far more to do. With one for each processor, all
/// would wait for that one. With four, a processor whose threads are done goes on with others.
const THREADS_A_PROCESSOR: usize = 4;

/// What a command runs on: the system, whose files and streams it uses, and what starts its threads and
/// waits for them.
#[derive(Drop)]
pub struct Host<'a, T> {
    pub rt: &'a HostRuntime,
    pub threads: &'a T,
}

impl<'a, T: Threads + Sync> Host<'a, T> {
    /// Threads on all processors that the program may use, which take the hashes of a file that is
    /// checked; one thread where the number of processors is not told.
    pub fn hasher(&self) -> ManyThreads<'a, T> {
        let threads = match available_parallelism(self.threads) {
            Ok(processors) => threads_on(processors),
            Err(_) => NonZeroUsize::MIN,
        };
        ManyThreads::new(self.threads, threads)
    }
}

/// How many threads there are on so many processors. On one processor there is one.
fn threads_on(processors: NonZeroUsize) -> NonZeroUsize {
    if processors == NonZeroUsize::MIN {
        return processors;
    }
    let threads = processors.get().saturating_mul(THREADS_A_PROCESSOR);
    NonZeroUsize::new(threads).unwrap_or(processors)
}
