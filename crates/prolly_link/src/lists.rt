//! Lists in the place of links, so that a worker can be run in one thread.
ghost use Rattle.std.specs.Prelude.{◌≡◌, []};
ghost use Rattle.prolly_link.specs.ListIn.{Unread};

use crate::ends::{In, Out};
use crate::message::{End, Next};
use std::alloc::Global;
use std::marker::Model;
use std::sync::Wait;
use std::vec::IntoIter;

/// An end that gives the items of a list, and then an end. Contracts see what is left of both.
#[derive(Drop)]
pub struct ListIn<T> {
    items: IntoIter<T, Global>,
    last: End,
    // Whether the end was given.
    ended: bool,
}

impl<T> Model for ListIn<T> {
    ghost use Rattle.std.specs.Prelude.{◌≡◌, length};
    ghost use Rattle.std.specs.Vec.Iter.{into_iter_items, into_iter_len};
    ghost use Rattle.prolly_link.specs.ListIn.{Remaining, remaining};

    ghost Value = { Remaining T };

    ghost view = { λ i. remaining i.ended (into_iter_items i.items) i.last };

    ghost invariant = { λ i. into_iter_len i.items ≡ length (into_iter_items i.items) };
}

impl<T> ListIn<T> {
    /// An end that gives these items, the first one first, and then this end.
    pub fn new(items: Vec<T>, last: End) -> ListIn<T>
        ensures { result ≡ Unread items.items last }
    {
        ListIn {
            items: items.into_iter(),
            last,
            ended: false,
        }
    }
}

impl<T> In<T> for ListIn<T> {
    ghost use Rattle.prolly_link.specs.Identity.{no_link};
    ghost use Rattle.prolly_link.specs.ListIn.{progress_of, front_lost, IsLaterList};
    ghost use Rattle.prolly_link.specs.ListInLaws.{lost_nothing, lost_more, later_list_same};
    ghost use Rattle.prolly_link.specs.ListInLaws.{later_list_more, nothing_lost_after_end};
    ghost use Rattle.prolly_link.specs.ListInLaws.{read_stays};

    ghost link = { λ _. no_link };

    ghost progress = { progress_of };

    ghost Follows = { IsLaterList };

    ghost received = { front_lost };

    ghost stays = { later_list_same };

    ghost received_none = { λ a. (lost_nothing a).1 };

    ghost goes_on = { later_list_more };

    ghost received_both = { λ a b c h k. (lost_more a b c h.lost k.lost).1 };

    ghost ended_gives_nothing = { nothing_lost_after_end };

    ghost ended_stays = { read_stays };

    fn recv<R: Wait>(&mut self, _rt: &R) -> Next<T> {
        if self.ended {
            return Next::End(self.last);
        }
        match self.items.next() {
            Some(item) => Next::Item(item),
            None => {
                self.ended = true;
                Next::End(self.last)
            }
        }
    }
}

/// An end that keeps what is sent. Contracts see it as that list.
#[derive(Drop)]
pub struct ListOut<T> {
    items: Vec<T>,
}

impl<T> Model for ListOut<T> {
    ghost use Rattle.std.specs.Prelude.{List};

    ghost Value = { List T };

    ghost view = { λ o. o.items.items };
}

/// What was sent, and the end.
#[derive(Drop)]
pub struct ClosedList<T> {
    /// The items that were sent, oldest first.
    pub items: Vec<T>,
    /// The end that was sent behind them.
    pub last: End,
}

impl<T> ListOut<T> {
    /// An end into which nothing was sent. Takes memory with the first item.
    pub fn new(alloc: Global) -> ListOut<T>
        ensures { result ≡ [] }
    {
        ListOut {
            items: Vec::new(alloc),
        }
    }
}

impl<T> Out<T> for ListOut<T> {
    ghost use Rattle.prolly_link.specs.Identity.{no_link};

    type Closed = ClosedList<T>;

    ghost link = { λ _. no_link };

    ghost sent = { λ o. o };

    ghost closed_link = { λ _. no_link };

    ghost all_sent = { λ c. c.items.items };

    ghost end_sent = { λ c. c.last };

    fn send<R: Wait>(&mut self, _rt: &R, item: T) -> Result<(), T> {
        match self.items.push(item) {
            Ok(()) => Ok(()),
            Err(refused) => Err(refused.value),
        }
    }

    fn close<R: Wait>(self, _rt: &R, end: End) -> ClosedList<T> {
        let ListOut { items } = self;
        ClosedList { items, last: end }
    }
}
