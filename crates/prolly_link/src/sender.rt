//! The end of a link that sends.
ghost use Rattle.std.specs.Prelude.{◌≡◌, [], ◌∷◌, ◌++◌, IsOk};

use crate::closed::ClosedSender;
use crate::ends::Out;
use crate::message::{End, Message};
use crate::waiting::{Patience, Wake, push_waiting};
use rtrb::Producer;
use std::marker::Model;
use std::sync::Wait;

/// The sending end of a link. Contracts see its link and the items that it has sent, oldest first.
#[derive(Drop)]
pub struct Sender<T> {
    pub(crate) ring: Producer<Message<T>>,
    pub(crate) patience: Patience,
}

impl<T> Model for Sender<T> {
    ghost use Rattle.prolly_link.specs.Views.{Sending};

    ghost Value = { Sending T };

    ghost use Rattle.prolly_link.specs.Rings.{sent_so_far, SentNoEnd};

    ghost view = { λ s. sent_so_far s.ring };

    ghost invariant = { λ s. SentNoEnd s.ring };
}

impl<T> Sender<T> {
    // Sends an item, waiting for room.
    pub(crate) fn put<R: Wait>(&mut self, rt: &R, item: T, wake: Wake)
        ensures link { self.new.link ≡ self.old.link }
        ensures items { self.new.items ≡ self.old.items ++ item ∷ [] }
    {
        let message = Message::Item(item);
        push_waiting(rt, &self.patience, &mut self.ring, message, wake);
    }

    // Looks again how far behind the receiver is, where it seemed to be far.
    pub(crate) fn look_ahead(&mut self)
        ensures { self.new ≡ self.old }
    {
        if self.is_ahead() {
            self.ring.slots();
        }
    }

    /// Sends an item, waiting for room. It takes no memory, and so it never refuses.
    pub fn send<R: Wait>(&mut self, rt: &R, item: T) -> Result<(), T>
        ensures never_refused { IsOk result }
        ensures link { self.new.link ≡ self.old.link }
        ensures items { self.new.items ≡ self.old.items ++ item ∷ [] }
    {
        self.put(rt, item, Wake::AtHalf);
        Ok(())
    }

    /// Sends the end, waiting for room.
    pub fn close<R: Wait>(self, rt: &R, end: End) -> ClosedSender<T>
        ensures link { result.link ≡ self.link }
        ensures items { result.items ≡ self.items }
        ensures end { result.end ≡ end }
    {
        let Sender { mut ring, patience } = self;
        push_waiting(rt, &patience, &mut ring, Message::Last(end), Wake::AtOnce);
        ClosedSender { ring }
    }
}

impl<T> Out<T> for Sender<T> {
    type Closed = ClosedSender<T>;

    ghost link = { λ s. s.link };

    ghost sent = { λ s. s.items };

    ghost closed_link = { λ c. c.link };

    ghost all_sent = { λ c. c.items };

    ghost end_sent = { λ c. c.end };

    fn send<R: Wait>(&mut self, rt: &R, item: T) -> Result<(), T> {
        Sender::send(self, rt, item)
    }

    fn is_ahead(&self) -> bool {
        self.ring.cached_slots() <= self.ring.capacity() / 2
    }

    fn close<R: Wait>(self, rt: &R, end: End) -> ClosedSender<T> {
        Sender::close(self, rt, end)
    }
}
