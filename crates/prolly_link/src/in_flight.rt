//! A bound on the bytes that a link holds.

use crate::waiting::Patience;
use std::sync::Wait;
use std::sync::atomic::{AtomicU64, Ordering};

/// From so many bytes on a batch is large.
pub(crate) const LARGE_BATCH_BYTES: usize = 65_536;

/// How many bytes of large batches a link holds for each message that it has room for.
const BYTES_A_MESSAGE: u64 = 32_768;

/// The bytes of the large batches of a link that were sent and not yet received. Its ends share it.
///
/// A link holds as many batches as it has room for. Those that are not large are bounded by that.
/// The large ones have at most 32 KiB together for each batch that it has room for, or there is a
/// single one.
#[derive(Drop)]
pub(crate) struct InFlight {
    bytes: AtomicU64,
    most: AtomicU64,
}

impl InFlight {
    /// The counter of a new link with room for `capacity` batches.
    pub(crate) fn new(capacity: usize) -> InFlight {
        InFlight {
            bytes: AtomicU64::new(0),
            most: AtomicU64::new((capacity as u64).saturating_mul(BYTES_A_MESSAGE)),
        }
    }

    /// Waits until a large batch of so many bytes may be sent, and counts it. For the sender.
    pub(crate) fn add<R: Wait>(&self, rt: &R, patience: &Patience, bytes: usize) {
        let mut rounds = 0u32;
        for _ in rt.forever() {
            if self.has_room(bytes as u64) {
                patience.end_wait(rounds);
                self.bytes.fetch_add(bytes as u64, Ordering::SeqCst);
                return;
            }
            rounds = patience.pause(rt, rounds);
        }
    }

    fn has_room(&self, bytes: u64) -> bool {
        let held = self.bytes.load(Ordering::SeqCst);
        held == 0 || held.saturating_add(bytes) <= self.most.load(Ordering::SeqCst)
    }

    /// Whether the large batches that are in flight have half of the bytes that they may have.
    pub(crate) fn is_half_full(&self) -> bool {
        let held = self.bytes.load(Ordering::SeqCst);
        held >= self.most.load(Ordering::SeqCst) / 2
    }

    /// Counts a batch of so many bytes no more, if it is large, and wakes the sender where it
    /// sleeps. For the receiver.
    pub(crate) fn remove(&self, patience: &Patience, bytes: usize) {
        if bytes < LARGE_BATCH_BYTES {
            return;
        }
        self.bytes.fetch_sub(bytes as u64, Ordering::SeqCst);
        if patience.peer_sleeps() {
            patience.wake_peer();
        }
    }

    /// Bounds the bytes no more. For a receiver that lets all items go.
    pub(crate) fn lift(&self, patience: &Patience) {
        self.most.store(u64::MAX, Ordering::SeqCst);
        if patience.peer_sleeps() {
            patience.wake_peer();
        }
    }
}
