//! A worker that keeps what it receives.
ghost use Rattle.std.specs.Prelude.{◌≡◌, IfOk};

use prolly_link::{End, In, Next, Progress, RunFault, receive_rest};
use std::alloc::Global;
use std::sync::Wait;

// Receives to the end, and keeps the items.
pub(super) fn gather<I: In<u32>, R: Wait>(
    rt: &R,
    alloc: Global,
    input: &mut I,
) -> Result<(Vec<u32>, End), RunFault>
    ensures link { I.link input.new ≡ I.link input.old }
    ensures follows { I.Follows input.old input.new }
    ensures got { IfOk result (λ got. (I.received input.old input.new ≡ got.0.items) ×
        (I.progress input.new ≡ Progress.Ended got.1)) }
{
    let mut got = Vec::new(alloc);
    for _ in rt.forever() {
        match input.recv(rt) {
            Next::Item(item) => {
                if let Err(_) = got.push(item) {
                    receive_rest(rt, input);
                    return Err(RunFault::Memory);
                }
            }
            Next::End(end) => return Ok((got, end)),
            Next::Lost => return Err(RunFault::Lost),
        }
    }
    unreachable!()
}
