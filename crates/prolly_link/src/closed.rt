//! Ends that are closed or drained, and what two of them show together.
ghost use Rattle.std.specs.Prelude.{◌≡◌};
ghost use Rattle.prolly_link.specs.PassedMessages.{IsBesideOpen, IsBesideClosed};

use crate::message::Message;
use crate::receiver::Receiver;
use crate::sender::Sender;
use rtrb::{Consumer, Producer};
use std::marker::Model;

/// The sending end of a link, once it has sent the end. Contracts see that end too.
#[derive(Drop)]
pub struct ClosedSender<T> {
    pub(crate) ring: Producer<Message<T>>,
}

impl<T> Model for ClosedSender<T> {
    ghost use Rattle.prolly_link.specs.Rings.{whole_sent, SentEnd};
    ghost use Rattle.prolly_link.specs.Views.{Whole};

    ghost Value = { Whole T };

    ghost view = { λ s. whole_sent s.ring };

    ghost invariant = { λ s. SentEnd s.ring };
}

/// The receiving end of a link, once it has given the end. Contracts see its link, all items of the
/// link, and the end.
#[derive(Drop)]
pub struct EndedReceiver<T> {
    pub(crate) ring: Consumer<Message<T>>,
}

impl<T> Model for EndedReceiver<T> {
    ghost use Rattle.prolly_link.specs.Rings.{whole_received, ReceivedEnd};
    ghost use Rattle.prolly_link.specs.Views.{Whole};

    ghost Value = { Whole T };

    ghost view = { λ r. whole_received r.ring };

    ghost invariant = { λ r. ReceivedEnd r.ring };
}

/// The receiving end of a link that lost its sender. Contracts see its link, and the items that
/// came.
#[derive(Drop)]
pub struct LostReceiver<T> {
    pub(crate) ring: Consumer<Message<T>>,
}

impl<T> Model for LostReceiver<T> {
    ghost use Rattle.prolly_link.specs.Rings.{received_so_far, ReceivedNoEnd};
    ghost use Rattle.prolly_link.specs.Views.{Sending};

    ghost Value = { Sending T };

    ghost view = { λ r. received_so_far r.ring };

    ghost invariant = { λ r. ReceivedNoEnd r.ring };
}

/// A receiver that gave the end, or one that lost its sender.
#[derive(Drop)]
pub enum Drained<T> {
    Ended(EndedReceiver<T>),
    Lost(LostReceiver<T>),
}

/// The two ends of a link, of which one received all that the other sent. Contracts see the link,
/// its items and its end.
#[derive(Drop)]
pub struct Met<T> {
    pub(crate) sender: ClosedSender<T>,
    pub(crate) receiver: EndedReceiver<T>,
}

impl<T> Model for Met<T> {
    ghost use Rattle.prolly_link.specs.Views.{Whole};

    ghost Value = { Whole T };

    ghost view = { λ m. m.receiver };
}

/// Shows that all that was sent was received, and nothing else.
pub fn meet<T>(sender: ClosedSender<T>, receiver: EndedReceiver<T>) -> Met<T>
    requires { sender.link ≡ receiver.link }
    ensures sent { result ≡ sender }
    ensures received { result ≡ receiver }
{
    let ClosedSender { ring: mut producer } = sender;
    let EndedReceiver { ring: mut consumer } = receiver;
    consumer.slots_beside(&mut producer);
    Met {
        sender: ClosedSender { ring: producer },
        receiver: EndedReceiver { ring: consumer },
    }
}

/// Shows that what was received begins what was sent, where both ends are in one thread. Beside an
/// open sender no receiver has an end.
pub fn compare<T>(sender: &mut Sender<T>, receiver: &mut Receiver<T>)
    requires { sender.old.link ≡ receiver.old.link }
    ensures sender { sender.new ≡ sender.old }
    ensures receiver { receiver.new ≡ receiver.old }
    ensures passed { IsBesideOpen receiver.new sender.new.items }
{
    receiver.ring.slots_beside(&mut sender.ring);
}

/// Shows that what was received begins what was sent, where both ends are in one thread. The
/// sender's end may be on its way still; a receiver that has an end has that one, after all items.
pub fn compare_closed<T>(closed: &mut ClosedSender<T>, receiver: &mut Receiver<T>)
    requires { closed.old.link ≡ receiver.old.link }
    ensures sender { closed.new ≡ closed.old }
    ensures receiver { receiver.new ≡ receiver.old }
    ensures passed { IsBesideClosed receiver.new closed.new }
{
    receiver.ring.slots_beside(&mut closed.ring);
}
