//! An output behind a gate.
ghost use Rattle.std.specs.Prelude.{◌≡◌, ◌∷◌, [], ◌++◌, OnOk, IfErr};
ghost use Rattle.prolly_stage.specs.Gated.{next_number};

use crate::gate::{Ask, Gate, Worker};
use prolly_link::Out;
use std::marker::Model;
use std::sync::Wait;

/// An output of a worker behind a gate. The gate is asked before each try to send an item, with the
/// number of the try, counted from 0; an item that is refused counts, too. It changes nothing else:
/// the items, the end and the link are those of the output.
///
/// A number that has come to the greatest `u64` stays there.
#[derive(Drop)]
pub struct Gated<'a, G, O> {
    out: O,
    worker: Worker,
    gate: &'a G,
    next: u64,
}

impl<'a, G, O> Model for Gated<'a, G, O> {
    ghost use Rattle.prolly_stage.specs.Gated.{GatedOutput};

    ghost Value = { GatedOutput G O };

    ghost view = { λ g. record
        { out = g.out; worker = g.worker; gate = g.gate.now; next = g.next } };
}

impl<'a, G: Gate, O> Gated<'a, G, O> {
    /// The output behind the gate, before its first item. Takes no memory.
    pub fn new(out: O, worker: Worker, gate: &'a G) -> Gated<'a, G, O>
        ensures out { result.out ≡ out }
        ensures worker { result.worker ≡ worker }
        ensures gate { result.gate ≡ gate.now }
        ensures next { result.next ≡ 0 }
    {
        Gated {
            out,
            worker,
            gate,
            next: 0,
        }
    }
}

impl<'a, G: Ask, O> Gated<'a, G, O> {
    /// Asks the gate for the next item.
    pub(crate) fn ask<R: Wait>(&self, rt: &R)
        ensures { G.HasOpened self.now.gate self.now.worker self.now.next }
    {
        self.gate.ask(rt, self.worker, self.next);
    }

    /// Sends the next item, which takes so many bytes, and which the gate has opened for.
    pub(crate) fn send_next<T, R: Wait>(&mut self, rt: &R, item: T, bytes: usize) -> Result<(), T>
    where
        O: Out<T>,
        requires { G.HasOpened self.old.gate self.old.worker self.old.next }
        ensures link { O.link self.new.out ≡ O.link self.old.out }
        ensures ok { OnOk result (O.sent self.new.out ≡ O.sent self.old.out ++ item ∷ []) }
        ensures err { IfErr result (λ back. (back ≡ item) ×
            (O.sent self.new.out ≡ O.sent self.old.out)) }
        ensures worker { self.new.worker ≡ self.old.worker }
        ensures gate { self.new.gate ≡ self.old.gate }
        ensures next { self.new.next ≡ next_number self.old.next }
    {
        self.next = self.next.saturating_add(1);
        self.out.send_sized(rt, item, bytes)
    }

    /// Whether the output's receiver is far behind.
    pub(crate) fn is_ahead_of<T>(&self) -> bool
    where
        O: Out<T>,
    {
        self.out.is_ahead()
    }
}

impl<'a, G, O> Gated<'a, G, O> {
    /// The output by itself.
    pub(crate) fn into_out(self) -> O
        ensures { result ≡ self.entry.out }
    {
        let Gated {
            out,
            worker: _,
            gate: _,
            next: _,
        } = self;
        out
    }
}
