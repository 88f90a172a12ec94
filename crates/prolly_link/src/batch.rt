//! What the ring of a batch link carries, and below it the ends of such a link.
mod closed;
mod link;
mod receiver;
mod sender;

ghost use Rattle.std.specs.Prelude.{◌≡◌, ◌≤◌, ◌∷◌, length, vec_len};
ghost use Rattle.std.specs.VecDeque.{deque_len};

pub use closed::{
    BatchDrained, ClosedBatch, EndedBatch, LostBatch, MetBatch, compare_batches,
    compare_closed_batches, meet_batches,
};
pub use link::batch_link;
pub use receiver::BatchReceiver;
pub use sender::BatchSender;
use std::alloc::Global;
use std::collections::VecDeque;
use std::marker::Model;

/// Items that go over a ring together: one at least. Contracts see it as those items.
#[derive(Drop)]
pub(crate) struct Batch<T> {
    items: Vec<T>,
    // As many as the sender was told of.
    bytes: usize,
}

impl<T> Model for Batch<T> {
    ghost use Rattle.std.specs.Prelude.{◌≤◌, List, vec_len};

    ghost Value = { List T };

    ghost view = { λ b. b.items.items };

    ghost invariant = { λ b. 1 ≤ vec_len b.items };
}

impl<T> Batch<T> {
    pub(crate) fn new(items: Vec<T>, bytes: usize) -> Batch<T>
        requires { 1 ≤ vec_len items }
        ensures { result ≡ items.items }
    {
        Batch { items, bytes }
    }

    /// How many bytes the items take, so far as the sender was told.
    pub(crate) fn bytes(&self) -> usize {
        self.bytes
    }
}

impl<T: Drop> Batch<T> {
    /// The first item, and the others in their order.
    pub(crate) fn into_first(self) -> (T, VecDeque<T, Global>)
        ensures items { self ≡ result.0 ∷ result.1.items }
        ensures counted { deque_len result.1 ≡ length result.1.items }
    {
        let Batch { items, bytes: _ } = self;
        let mut rest = VecDeque::from_vec(items);
        let Some(first) = rest.pop_front() else {
            unreachable!()
        };
        (first, rest)
    }
}
