//! The end of a batch link that receives.
ghost use Rattle.std.specs.Prelude.{◌≡◌, ◌++◌};
ghost use Rattle.std.specs.VecDeque.{deque_len};
ghost use Rattle.prolly_link.specs.BatchReceiver.{given_of, IsInHand};
ghost use Rattle.prolly_link.specs.Progress.{given_items, progress_after, GivesAgain};

use crate::batch::Batch;
use crate::batch::closed::{BatchDrained, EndedBatch, LostBatch};
use crate::closed::Drained;
use crate::ends::In;
use crate::in_flight::InFlight;
use crate::message::Next;
use crate::receiver::Receiver;
use rtrb::Producer;
use std::alloc::Global;
use std::collections::VecDeque;
use std::marker::Model;
use std::mem;
use std::sync::{Arc, Wait};

/// The receiving end of a batch link. Contracts see its link, the items that it has given, oldest
/// first, and how far it has come.
#[derive(Drop)]
pub struct BatchReceiver<T> {
    pub(crate) receiver: Receiver<Batch<T>>,
    // What is left of the batch that came last.
    pub(crate) hand: VecDeque<T, Global>,
    // The way back to the sender for the memory of batches that are given away.
    pub(crate) spent: Producer<Vec<T>>,
    pub(crate) in_flight: Arc<InFlight>,
}

impl<T> Model for BatchReceiver<T> {
    ghost use Rattle.std.specs.VecDeque.{deque_len};
    ghost use Rattle.prolly_link.specs.Views.{Receiving};

    ghost Value = { Receiving T };

    ghost use Rattle.prolly_link.specs.BatchReceiver.{given_of, IsInHand};

    ghost view = { λ r. given_of r.receiver r.hand.items };

    ghost invariant = { λ r. IsInHand r.receiver r.hand.items (deque_len r.hand) };
}

// The first item of the next batch, of which the others are in hand then, or the end. The memory of
// the batch that was in hand goes back to the sender, if there is room on the way. It stands apart
// so that what all other items take stays small.
#[inline(never)]
fn recv_batch<T: Drop, R: Wait>(
    rt: &R,
    receiver: &mut Receiver<Batch<T>>,
    in_flight: &InFlight,
    hand: &mut VecDeque<T, Global>,
    spent: &mut Producer<Vec<T>>,
) -> Next<T>
    requires hand { IsInHand receiver.old hand.old.items (deque_len hand.old) }
    requires empty { deque_len hand.old ≡ 0 }
    ensures hand { IsInHand receiver.new hand.new.items (deque_len hand.new) }
    ensures link { receiver.new.link ≡ receiver.old.link }
    ensures items { (given_of receiver.new hand.new.items).items
        ≡ (given_of receiver.old hand.old.items).items ++ given_items result }
    ensures progress { receiver.new.progress ≡ progress_after result }
    ensures again { GivesAgain receiver.old.progress result }
{
    match receiver.recv(rt) {
        Next::Item(batch) => {
            in_flight.remove(receiver.patience(), batch.bytes());
            let (first, rest) = batch.into_first();
            drop(spent.push(mem::replace(hand, rest).into_vec()));
            Next::Item(first)
        }
        Next::End(end) => Next::End(end),
        Next::Lost => Next::Lost,
    }
}

impl<T: Drop> BatchReceiver<T> {
    ghost use Rattle.prolly_link.specs.BatchDrained.{IsBatchDrainOf};

    /// The next item, or the end. It waits for a message only where no item is left of the batch in
    /// hand.
    pub fn recv<R: Wait>(&mut self, rt: &R) -> Next<T>
        ensures link { self.new.link ≡ self.old.link }
        ensures items { self.new.items ≡ self.old.items ++ given_items result }
        ensures progress { self.new.progress ≡ progress_after result }
        ensures again { GivesAgain self.old.progress result }
    {
        match self.hand.pop_front() {
            Some(item) => Next::Item(item),
            None => recv_batch(
                rt,
                &mut self.receiver,
                &self.in_flight,
                &mut self.hand,
                &mut self.spent,
            ),
        }
    }

    /// Receives until the end, and lets the items go.
    pub fn drain<R: Wait>(self, rt: &R) -> BatchDrained<T>
        ensures { IsBatchDrainOf self result }
    {
        let BatchReceiver {
            receiver,
            hand: _,
            spent: _,
            in_flight,
        } = self;
        in_flight.lift(receiver.patience());
        match receiver.drain(rt) {
            Drained::Ended(receiver) => BatchDrained::Ended(EndedBatch { receiver }),
            Drained::Lost(receiver) => BatchDrained::Lost(LostBatch { receiver }),
        }
    }
}

impl<T: Drop> In<T> for BatchReceiver<T> {
    ghost use Rattle.prolly_link.specs.Growth.{items_between, between_nothing};
    ghost use Rattle.prolly_link.specs.LaterReceiver.{IsLater, later_same, later_more};
    ghost use Rattle.prolly_link.specs.LaterReceiver.{received_in_both, nothing_after_end};

    ghost link = { λ r. r.link };

    ghost progress = { λ r. r.progress };

    ghost Follows = { IsLater };

    ghost received = { λ a b. items_between a.items b.items };

    ghost stays = { later_same };

    ghost received_none = { λ a. (between_nothing a.items).1 };

    ghost goes_on = { later_more };

    ghost received_both = { received_in_both };

    ghost ended_gives_nothing = { nothing_after_end };

    ghost ended_stays = { λ a b h. h.progress_stays };

    fn recv<R: Wait>(&mut self, rt: &R) -> Next<T> {
        BatchReceiver::recv(self, rt)
    }
}
