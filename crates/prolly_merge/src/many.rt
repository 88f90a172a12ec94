//! Many inputs into one: the loop that the mergers of many share.
ghost use Rattle.std.specs.Prelude.{◌≡◌, ◌++◌, List, length};
ghost use Rattle.std.specs.List.{flat_map};
ghost use Rattle.prolly_entry.specs.Record.{Record as RecordValue};
ghost use Rattle.prolly_entry.specs.Overlay.{AllRising};
ghost use Rattle.prolly_merge.specs.Each.{Each};
ghost use Rattle.prolly_merge.specs.Inputs.{inputs_of, lists_of, Ends};
ghost use Rattle.prolly_merge.specs.Merged.{Counts};
ghost use Rattle.prolly_merge.specs.Peeked.{peeked_of, AllHeld, Advances, places_after};
ghost use Rattle.prolly_merge.specs.Many.{HaltsApart, SendsMany};

use crate::heads::{Head, finish_all, receive_heads, receive_rests};
use crate::item::MergeItem;
use crate::round::{ManyStep, SharedKey, next_of_many};
use crate::unique::Doubled;
use prolly_entry::Record;
use prolly_link::{End, In, Out, RunFault};
use std::alloc::Global;
use std::sync::Wait;

// Sends items until the merger stops, memory is refused, or a shared key is. Gives their number,
// the end, and the records of that key.
fn send_many<T: MergeItem, I: In<Record>, O: Out<T>, R: Wait>(
    rt: &R,
    shared: SharedKey,
    inputs: &mut [I],
    heads: &mut [Head],
    out: &mut O,
) -> (u64, End, Option<Doubled>)
    requires len { length heads.old ≡ length inputs.old }
    requires held { AllHeld I.progress (peeked_of inputs.old heads.old) }
    ensures advance { Each (Advances I.link I.progress I.Follows) (peeked_of inputs.old heads.old)
        (peeked_of inputs.new heads.new) }
    ensures out_link { O.link out.new ≡ O.link out.old }
    ensures items { Counts (O.sent out.old) (O.sent out.new) result.0 }
    ensures halts { (xs : List RecordValue)
        × (O.sent out.new ≡ O.sent out.old ++ flat_map T.items_of xs)
        × HaltsApart shared (places_after I.received (peeked_of inputs.old heads.old)
        (peeked_of inputs.new heads.new)) xs result.1 result.2 }
{
    let mut items = 0u64;
    for _ in rt.forever() {
        match next_of_many(rt, shared, inputs, heads) {
            ManyStep::Send(record) => match T::send_of(rt, out, record, items) {
                Ok(count) => items = count,
                Err(_) => return (items, End::Fault(RunFault::Memory), None),
            },
            ManyStep::Stop(end) => return (items, end, None),
            ManyStep::Refuse(doubled) => {
                return (items, End::Fault(RunFault::Lost), Some(doubled));
            }
        }
    }
    unreachable!()
}

/// Merges inputs in their places: sends the items of their raw merged part. Gives the number of
/// items sent, what is left of the output, and the records of a shared key that was refused.
pub(crate) fn merge_all<T: MergeItem, I: In<Record>, O: Out<T>, R: Wait>(
    rt: &R,
    alloc: Global,
    shared: SharedKey,
    inputs: &mut [I],
    mut out: O,
) -> (u64, O::Closed, Option<Doubled>)
    ensures inputs { Each (Ends I.link I.progress I.Follows) inputs.old inputs.new }
    ensures out_link { O.closed_link result.1 ≡ O.link out }
    ensures items { Counts (O.sent out) (O.all_sent result.1) result.0 }
    ensures merged { let given = inputs_of I.progress I.received inputs.old inputs.new in
        AllRising (lists_of given) →
        SendsMany (flat_map T.items_of) shared (O.sent out) given result.2 (O.all_sent result.1)
        (O.end_sent result.1) }
{
    let Some(mut heads) = receive_heads(rt, alloc, inputs) else {
        let out = out.close(rt, End::Fault(RunFault::Memory));
        receive_rests(rt, inputs);
        return (0, out, None);
    };
    let (items, end, doubled) = send_many(rt, shared, inputs, &mut heads, &mut out);
    let out = out.close(rt, end);
    finish_all(rt, inputs, &heads);
    (items, out, doubled)
}
