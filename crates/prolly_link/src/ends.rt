//! The ends of any link, as a worker sees them: `In` and `Out`.
ghost use Rattle.std.specs.Prelude.{◌≡◌, List, [], ◌++◌, ◌∷◌, OnOk, IfErr};
ghost use Rattle.prolly_link.specs.Identity.{LinkId};
ghost use Rattle.prolly_link.specs.Progress.{given_items, progress_after, GivesAgain, HasEnded};
ghost use Rattle.prolly_link.specs.declared.message.Progress.{Progress};
ghost use Rattle.prolly_link.specs.declared.message.End.{End};

use crate::message::{End, Next};
use std::sync::Wait;

/// An end that gives items, and then one end.
pub trait In<T> {
    /// The link that it is of.
    ghost link: { Self → LinkId };

    /// Whether it has given its end, or `Lost`.
    ghost progress: { Self → Progress };

    /// `Follows a b` says that b is the end a, at the same time or later.
    ghost Follows: { Self → Self → Type 0 };

    /// The items that were received between two such values.
    ghost received: { Self → Self → List T };

    /// The next item, or the end. An end, or `Lost`, is given again and again.
    fn recv<R: Wait>(&mut self, rt: &R) -> Next<T>
        ensures link { link self.new ≡ link self.old }
        ensures follows { Follows self.old self.new }
        ensures received { received self.old self.new ≡ given_items result }
        ensures progress { progress self.new ≡ progress_after result }
        ensures again { GivesAgain (progress self.old) result };

    /// An end follows itself.
    ghost stays: { (a : Self) → Follows a a };

    /// Nothing is received between an end and itself.
    ghost received_none: { (a : Self) → received a a ≡ [] };

    /// What follows a later value follows the earlier one.
    ghost goes_on: { (a b c : Self) → Follows a b → Follows b c → Follows a c };

    /// What was received in two stretches is what was received in both.
    ghost received_both: { (a b c : Self) → Follows a b → Follows b c →
        received a c ≡ received a b ++ received b c };

    /// Once an end has given its end, or `Lost`, nothing more is received.
    ghost ended_gives_nothing: { (a b : Self) → Follows a b → HasEnded (progress a) →
        received a b ≡ [] };

    /// Its end, or `Lost`, stays what it was.
    ghost ended_stays: { (a b : Self) → Follows a b → HasEnded (progress a) →
        progress b ≡ progress a };
}

/// An end that items go into, and then one end.
pub trait Out<T> {
    /// What is left of it once the end was sent.
    type Closed;

    /// The link that it is of.
    ghost link: { Self → LinkId };

    /// The items sent so far, oldest first.
    ghost sent: { Self → List T };

    /// The link that a closed one is of.
    ghost closed_link: { Self.Closed → LinkId };

    /// The items that a closed one sent.
    ghost all_sent: { Self.Closed → List T };

    /// The end that a closed one sent.
    ghost end_sent: { Self.Closed → End };

    /// Sends an item, or hands it back for want of memory.
    fn send<R: Wait>(&mut self, rt: &R, item: T) -> Result<(), T>
        ensures link { link self.new ≡ link self.old }
        ensures ok { OnOk result (sent self.new ≡ sent self.old ++ item ∷ []) }
        ensures err { IfErr result (λ back. (back ≡ item) × (sent self.new ≡ sent self.old)) };

    /// As `send`, of an item that takes so many bytes. An end that holds many items may send them
    /// in smaller batches then, or wait for the receiver, so that what it holds is bounded in
    /// bytes. No contract tells it from `send`.
    fn send_sized<R: Wait>(&mut self, rt: &R, item: T, _bytes: usize) -> Result<(), T>
        ensures link { link self.new ≡ link self.old }
        ensures ok { OnOk result (sent self.new ≡ sent self.old ++ item ∷ []) }
        ensures err { IfErr result (λ back. (back ≡ item) × (sent self.new ≡ sent self.old)) }
    {
        self.send(rt, item)
    }

    /// Whether the receiver is far behind: of the room that this end last saw, at most half of the
    /// link's is left, in messages or in bytes. Then the sender has time to do what the receiver
    /// would do else, before it has to wait. It is a hint: no contract speaks of it.
    fn is_ahead(&self) -> bool {
        false
    }

    /// Sends the end.
    fn close<R: Wait>(self, rt: &R, end: End) -> Self::Closed
        ensures link { closed_link result ≡ link self }
        ensures sent { all_sent result ≡ sent self }
        ensures end { end_sent result ≡ end };
}

/// Receives until the end, and lets the items go, so that the sender does not wait for room.
pub fn receive_rest<T: Drop, I: In<T>, R: Wait>(rt: &R, input: &mut I)
    ensures link { I.link input.new ≡ I.link input.old }
    ensures follows { I.Follows input.old input.new }
    ensures ended { HasEnded (I.progress input.new) }
{
    for _ in rt.forever() {
        match input.recv(rt) {
            Next::Item(_) => {}
            Next::End(_) | Next::Lost => return,
        }
    }
}
