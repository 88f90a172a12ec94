//! The end of a link that receives.
ghost use Rattle.std.specs.Prelude.{◌≡◌, ◌++◌};
ghost use Rattle.prolly_link.specs.Progress.{given_items, progress_after, GivesAgain};

use crate::closed::{Drained, EndedReceiver, LostReceiver};
use crate::ends::In;
use crate::message::{Message, Next, Progress};
use crate::waiting::{Patience, pop_waiting};
use rtrb::Consumer;
use std::marker::Model;
use std::sync::Wait;

/// The receiving end of a link. Contracts see its link, the items that it has given, oldest first,
/// and how far it has come.
#[derive(Drop)]
pub struct Receiver<T> {
    pub(crate) ring: Consumer<Message<T>>,
    pub(crate) progress: Progress,
    pub(crate) patience: Patience,
}

impl<T> Model for Receiver<T> {
    ghost use Rattle.prolly_link.specs.Views.{Receiving};

    ghost Value = { Receiving T };

    ghost use Rattle.rtrb.specs.Ring.{received as popped};
    ghost use Rattle.prolly_link.specs.Identity.{consumer_link};
    ghost use Rattle.prolly_link.specs.Message.{items_in};
    ghost use Rattle.prolly_link.specs.Receiver.{Agrees};

    ghost view = { λ r. record {
      link = consumer_link r.ring;
      items = items_in
          (popped r.ring);
      progress = r.progress;
    } };

    ghost invariant = { λ r. Agrees r.progress (popped r.ring) };
}

impl<T> Receiver<T> {
    ghost use Rattle.prolly_link.specs.Drained.{IsDrainOf};

    /// The next item, or the end, waiting for a message. An end, or `Lost`, is given again and
    /// again.
    pub fn recv<R: Wait>(&mut self, rt: &R) -> Next<T>
        ensures link { self.new.link ≡ self.old.link }
        ensures items { self.new.items ≡ self.old.items ++ given_items result }
        ensures progress { self.new.progress ≡ progress_after result }
        ensures again { GivesAgain self.old.progress result }
    {
        match self.progress {
            Progress::Open => {}
            Progress::Ended(end) => return Next::End(end),
            Progress::Lost => return Next::Lost,
        }
        match pop_waiting(rt, &self.patience, &mut self.ring) {
            Some(Message::Item(item)) => Next::Item(item),
            Some(Message::Last(end)) => {
                self.progress = Progress::Ended(end);
                Next::End(end)
            }
            None => {
                self.progress = Progress::Lost;
                Next::Lost
            }
        }
    }

    // How it waits.
    pub(crate) fn patience(&self) -> &Patience {
        &self.patience
    }

    /// Receives until the end, and lets the items go.
    pub fn drain<R: Wait>(self, rt: &R) -> Drained<T>
    where
        T: Drop,
        ensures { IsDrainOf self result }
    {
        let mut receiver = self;
        for _ in rt.forever() {
            match receiver.recv(rt) {
                Next::Item(_) => {}
                Next::End(_) => {
                    let Receiver { ring, .. } = receiver;
                    return Drained::Ended(EndedReceiver { ring });
                }
                Next::Lost => {
                    let Receiver { ring, .. } = receiver;
                    return Drained::Lost(LostReceiver { ring });
                }
            }
        }
        unreachable!()
    }
}

impl<T> In<T> for Receiver<T> {
    ghost use Rattle.prolly_link.specs.Growth.{items_between, between_nothing};
    ghost use Rattle.prolly_link.specs.LaterReceiver.{IsLater, later_same, later_more};
    ghost use Rattle.prolly_link.specs.LaterReceiver.{received_in_both, nothing_after_end};

    ghost link = { λ r. r.link };

    ghost progress = { λ r. r.progress };

    ghost Follows = { IsLater };

    ghost received = { λ a b. items_between a.items b.items };

    ghost stays = { later_same };

    ghost received_none = { λ a. (between_nothing a.items).1 };

    ghost goes_on = { later_more };

    ghost received_both = { received_in_both };

    ghost ended_gives_nothing = { nothing_after_end };

    ghost ended_stays = { λ a b h. h.progress_stays };

    fn recv<R: Wait>(&mut self, rt: &R) -> Next<T> {
        Receiver::recv(self, rt)
    }
}
