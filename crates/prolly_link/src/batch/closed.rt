//! Ends of a batch link that are closed or drained, and what two of them show together.
ghost use Rattle.std.specs.Prelude.{◌≡◌};
ghost use Rattle.prolly_link.specs.PassedMessages.{IsBesideOpen, IsBesideClosed};

use crate::batch::Batch;
use crate::batch::receiver::BatchReceiver;
use crate::batch::sender::BatchSender;
use crate::closed::{
    ClosedSender, EndedReceiver, LostReceiver, Met, compare, compare_closed, meet,
};
use std::marker::Model;

/// The sending end of a batch link, once it has sent the end. Contracts see its link, all items and
/// the end.
#[derive(Drop)]
pub struct ClosedBatch<T> {
    pub(crate) sender: ClosedSender<Batch<T>>,
}

impl<T> Model for ClosedBatch<T> {
    ghost use Rattle.prolly_link.specs.Views.{Whole};

    ghost Value = { Whole T };

    ghost use Rattle.prolly_link.specs.Batch.{unbatched};

    ghost view = { λ s. unbatched s.sender };
}

/// The receiving end of a batch link, once it has given the end. Contracts see its link, all items
/// and the end.
#[derive(Drop)]
pub struct EndedBatch<T> {
    pub(crate) receiver: EndedReceiver<Batch<T>>,
}

impl<T> Model for EndedBatch<T> {
    ghost use Rattle.prolly_link.specs.Views.{Whole};

    ghost Value = { Whole T };

    ghost use Rattle.prolly_link.specs.Batch.{unbatched};

    ghost view = { λ r. unbatched r.receiver };
}

/// The receiving end of a batch link that lost its sender. Contracts see its link, and the items of
/// the batches that came.
#[derive(Drop)]
pub struct LostBatch<T> {
    pub(crate) receiver: LostReceiver<Batch<T>>,
}

impl<T> Model for LostBatch<T> {
    ghost use Rattle.prolly_link.specs.Views.{Sending};

    ghost Value = { Sending T };

    ghost use Rattle.prolly_link.specs.Batch.{items_of};

    ghost view = { λ r. record { link = r.receiver.link; items = items_of r.receiver.items } };
}

/// A receiver that gave the end, or one that lost its sender.
#[derive(Drop)]
pub enum BatchDrained<T> {
    Ended(EndedBatch<T>),
    Lost(LostBatch<T>),
}

/// The two ends of a batch link, of which one received all that the other sent. Contracts see the
/// link, its items and its end.
#[derive(Drop)]
pub struct MetBatch<T> {
    pub(crate) met: Met<Batch<T>>,
}

impl<T> Model for MetBatch<T> {
    ghost use Rattle.prolly_link.specs.Views.{Whole};

    ghost Value = { Whole T };

    ghost use Rattle.prolly_link.specs.Batch.{unbatched};

    ghost view = { λ m. unbatched m.met };
}

/// Shows that all that was sent was received, and nothing else.
pub fn meet_batches<T>(sender: ClosedBatch<T>, receiver: EndedBatch<T>) -> MetBatch<T>
    requires { sender.link ≡ receiver.link }
    ensures sent { result ≡ sender }
    ensures received { result ≡ receiver }
{
    let ClosedBatch { sender } = sender;
    let EndedBatch { receiver } = receiver;
    MetBatch {
        met: meet(sender, receiver),
    }
}

/// Shows that what was received begins what was sent, where both ends are in one thread. Received
/// are the items that `recv` gave, without the rest of the batch in hand; sent are those given to
/// `send`, with the open batch. Beside an open sender no receiver has an end.
pub fn compare_batches<T>(sender: &mut BatchSender<T>, receiver: &mut BatchReceiver<T>)
    requires { sender.old.link ≡ receiver.old.link }
    ensures sender { sender.new ≡ sender.old }
    ensures receiver { receiver.new ≡ receiver.old }
    ensures passed { IsBesideOpen receiver.new sender.new.items }
{
    compare(&mut sender.sender, &mut receiver.receiver);
}

/// Shows that what was received begins what was sent, where both ends are in one thread. Received
/// are the items that `recv` gave, without the rest of the batch in hand. The sender's end may be
/// on its way still; a receiver that has an end has that one, after all items.
pub fn compare_closed_batches<T>(sender: &mut ClosedBatch<T>, receiver: &mut BatchReceiver<T>)
    requires { sender.old.link ≡ receiver.old.link }
    ensures sender { sender.new ≡ sender.old }
    ensures receiver { receiver.new ≡ receiver.old }
    ensures passed { IsBesideClosed receiver.new sender.new }
{
    compare_closed(&mut sender.sender, &mut receiver.receiver);
}
