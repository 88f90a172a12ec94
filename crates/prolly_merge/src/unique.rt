//! Many inputs, of which no two are to have a key in common.
ghost use Rattle.std.specs.Prelude.{◌≡◌};
ghost use Rattle.prolly_entry.specs.Overlay.{AllRising};
ghost use Rattle.prolly_merge.specs.Each.{Each};
ghost use Rattle.prolly_merge.specs.Inputs.{inputs_of, lists_of, Ends};
ghost use Rattle.prolly_merge.specs.Unique.{SendsApart};

use crate::many::merge_all;
use crate::round::SharedKey;
use prolly_entry::Record;
use prolly_link::{In, Out};
use std::alloc::Global;
use std::sync::Wait;

/// Two records with one key, of two inputs.
#[derive(Drop)]
pub struct Doubled {
    /// That of the earlier input.
    pub first: Record,
    /// That of the later input.
    pub second: Record,
}

/// What a merger of inputs that have no key in common gives back: each input in its place.
#[derive(Drop)]
pub struct MergedUnique<I, O: Out<Record>> {
    pub inputs: Vec<I>,
    pub out: O::Closed,
    /// The records of the least key that two inputs have; none where no such key was found.
    pub doubled: Option<Doubled>,
}

/// Sends the records of many inputs in key order, removals too, unless a key stands in two inputs.
///
/// Where one does, it sends the records before the least such key, closes with `Fault(Lost)`, and
/// gives back the last two records with the key. Otherwise it closes, and is refused memory, as
/// [`merge_records`](crate::merge_records) does. So a clean end says that no key stands in two
/// inputs; at a fault one may, but none of its records was sent. All inputs are received to their
/// ends. All this is promised of inputs whose keys rise; of others it is known only that they have
/// ended.
///
/// Takes as many comparisons as `merge_records`.
pub fn merge_unique<I: In<Record>, O: Out<Record>, R: Wait>(
    rt: &R,
    alloc: Global,
    mut inputs: Vec<I>,
    out: O,
) -> MergedUnique<I, O>
    ensures inputs { Each (Ends I.link I.progress I.Follows) inputs.items result.inputs.items }
    ensures out_link { O.closed_link result.out ≡ O.link out }
    ensures merged { let given = inputs_of I.progress I.received inputs.items result.inputs.items in
        AllRising (lists_of given) →
        SendsApart (λ records. records) (O.sent out) given result.doubled (O.all_sent result.out)
        (O.end_sent result.out) }
{
    let (_, out, doubled) = merge_all(rt, alloc, SharedKey::Refused, &mut inputs, out);
    MergedUnique {
        inputs,
        out,
        doubled,
    }
}
