//! A worker that sends what it receives.
ghost use Rattle.std.specs.Prelude.{◌≡◌, ◌≢◌, ◌++◌};
ghost use Rattle.prolly_link.specs.Progress.{HasEnded, end_given};
ghost use Rattle.prolly_link.specs.declared.message.End.TheVariants.{Fault};

use prolly_link::{ClosedList, End, In, ListIn, ListOut, Next, Out, RunFault, receive_rest};
use std::alloc::Global;
use std::sync::Wait;

// What the worker gives back.
#[derive(Drop)]
pub(super) struct Copies<I, C> {
    pub(super) input: I,
    pub(super) out: C,
}

// Sends what it receives, and closes with the end that it received, or with a fault where an item
// was refused.
pub(super) fn copy_all<T: Drop, I: In<T>, O: Out<T>, R: Wait>(
    rt: &R,
    input: I,
    out: O,
) -> Copies<I, O::Closed>
    ensures input_link { I.link result.input ≡ I.link input }
    ensures follows { I.Follows input result.input }
    ensures ended { HasEnded (I.progress result.input) }
    ensures out_link { O.closed_link result.out ≡ O.link out }
    ensures copied { O.end_sent result.out ≢ Fault RunFault.Memory →
        (O.all_sent result.out ≡ O.sent out ++ I.received input result.input) ×
        (O.end_sent result.out ≡ end_given (I.progress result.input)) }
{
    let mut input = input;
    let mut out = out;
    for _ in rt.forever() {
        match input.recv(rt) {
            Next::Item(item) => {
                if let Err(_) = out.send(rt, item) {
                    let out = out.close(rt, End::Fault(RunFault::Memory));
                    receive_rest(rt, &mut input);
                    return Copies { input, out };
                }
            }
            Next::End(end) => {
                let out = out.close(rt, end);
                return Copies { input, out };
            }
            Next::Lost => {
                let out = out.close(rt, End::Fault(RunFault::Lost));
                return Copies { input, out };
            }
        }
    }
    unreachable!()
}

// From a list to a list.
pub(super) fn copy_list<T: Drop, R: Wait>(
    rt: &R,
    alloc: Global,
    items: Vec<T>,
    last: End,
) -> ClosedList<T>
    ensures { result.last ≢ Fault RunFault.Memory →
        (result.items.items ≡ items.items) × (result.last ≡ last) }
{
    let Copies { input, out } = copy_all(rt, ListIn::new(items, last), ListOut::new(alloc));
    drop(input);
    out
}
