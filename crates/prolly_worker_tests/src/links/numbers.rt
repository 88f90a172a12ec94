//! A worker that sends numbers.
ghost use Rattle.std.specs.Prelude.{◌≡◌, ◌++◌};
ghost use Rattle.std.specs.List.{range_with_len};
ghost use Rattle.prolly_link.specs.declared.message.End.TheVariants.{Clean};

use prolly_link::{End, Out, RunFault};
use std::sync::Wait;

// Sends the numbers below `count`, and then a clean end, or a fault where one was refused.
pub(super) fn send_numbers<O: Out<u32>, R: Wait>(rt: &R, out: O, count: u32) -> O::Closed
    ensures link { O.closed_link result ≡ O.link out }
    ensures sent { O.end_sent result ≡ Clean →
        O.all_sent result ≡ O.sent out ++ range_with_len 0 count }
{
    let mut out = out;
    for number in 0..count {
        if let Err(_) = out.send(rt, number) {
            return out.close(rt, End::Fault(RunFault::Memory));
        }
    }
    out.close(rt, End::Clean)
}
