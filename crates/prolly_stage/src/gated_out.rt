//! Sending through a gate. This stands apart from the fields of `Gated`, so that items leave only
//! by `send_next`, which requires that the gate was asked.
ghost use Rattle.std.specs.Prelude.{◌≡◌};
ghost use Rattle.prolly_stage.specs.Gated.{SendsThrough};

use crate::gate::Gate;
use crate::gated::Gated;
use prolly_link::{End, Out};
use std::sync::Wait;

impl<'a, T, G: Gate, O: Out<T>> Out<T> for Gated<'a, G, O> {
    type Closed = O::Closed;

    ghost link = { λ g. O.link g.out };

    ghost sent = { λ g. O.sent g.out };

    ghost closed_link = { O.closed_link };

    ghost all_sent = { O.all_sent };

    ghost end_sent = { O.end_sent };

    /// Asks the gate, and then sends.
    fn send<R: Wait>(&mut self, rt: &R, item: T) -> Result<(), T>
        ensures { SendsThrough O.link O.sent G.HasOpened self.old self.new item result }
    {
        self.send_sized(rt, item, 0)
    }

    /// Asks the gate, and then sends.
    fn send_sized<R: Wait>(&mut self, rt: &R, item: T, bytes: usize) -> Result<(), T>
        ensures { SendsThrough O.link O.sent G.HasOpened self.old self.new item result }
    {
        self.ask(rt);
        self.send_next(rt, item, bytes)
    }

    fn is_ahead(&self) -> bool {
        self.is_ahead_of()
    }

    /// Sends the end. The gate is not asked, since an end is no item.
    fn close<R: Wait>(self, rt: &R, end: End) -> O::Closed {
        self.into_out().close(rt, end)
    }
}
