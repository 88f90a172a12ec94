//! A gate and an output that see whether the gate is asked in turn.
ghost use Rattle.std.specs.Prelude.{◌≡◌};

use crate::links::comparing::expect_eq;
use prolly_link::{End, Out};
use prolly_stage::{Gate, Worker};
use std::process::Abort;
use std::sync::Wait;
use std::sync::atomic::{AtomicU64, Ordering};

/// A gate that counts how often it is asked out of turn: for another worker than that of level 3,
/// or by another number than that of the items which have left.
#[derive(Drop)]
pub(super) struct Turns {
    left: AtomicU64,
    asked: AtomicU64,
    out_of_turn: AtomicU64,
}

impl Turns {
    pub(super) fn new() -> Turns {
        Turns {
            left: AtomicU64::new(0),
            asked: AtomicU64::new(0),
            out_of_turn: AtomicU64::new(0),
        }
    }

    /// Fails unless it was asked so often, and each time in turn.
    pub(super) fn expect_in_turn(&self, rt: &impl Abort, count: u64) {
        let asked = self.asked.load(Ordering::SeqCst);
        let out_of_turn = self.out_of_turn.load(Ordering::SeqCst);
        expect_eq(rt, &(asked, out_of_turn), &(count, 0));
    }
}

impl Gate for Turns {
    fn before_send<R: Wait>(&self, _rt: &R, worker: Worker, nth: u64) {
        self.asked.fetch_add(1, Ordering::SeqCst);
        if worker != Worker::Stage(3) || nth != self.left.load(Ordering::SeqCst) {
            self.out_of_turn.fetch_add(1, Ordering::SeqCst);
        }
    }
}

/// An output that tells the gate of each item that has left.
#[derive(Drop)]
pub(super) struct Counted<'a, O> {
    pub(super) out: O,
    pub(super) turns: &'a Turns,
}

impl<'a, T, O: Out<T>> Out<T> for Counted<'a, O> {
    type Closed = O::Closed;

    ghost closed_link = { O.closed_link };

    ghost all_sent = { O.all_sent };

    ghost end_sent = { O.end_sent };

    ghost link = { λ c. O.link c.out };

    ghost sent = { λ c. O.sent c.out };

    fn send<R: Wait>(&mut self, rt: &R, item: T) -> Result<(), T> {
        let sent = self.out.send(rt, item);
        self.turns.left.fetch_add(1, Ordering::SeqCst);
        sent
    }

    fn close<R: Wait>(self, rt: &R, end: End) -> O::Closed {
        let Counted { out, turns: _ } = self;
        out.close(rt, end)
    }
}
