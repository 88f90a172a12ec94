//! Many inputs into the records of all of them.
ghost use Rattle.std.specs.Prelude.{◌≡◌};
ghost use Rattle.prolly_entry.specs.Overlay.{AllRising};
ghost use Rattle.prolly_tree.specs.Merge.{raw_merged_part};
ghost use Rattle.prolly_merge.specs.Each.{Each};
ghost use Rattle.prolly_merge.specs.Inputs.{inputs_of, lists_of, stop_end, Ends};
ghost use Rattle.prolly_merge.specs.Merged.{SendsAll, Counts};

use crate::many::merge_all;
use crate::round::SharedKey;
use prolly_entry::Record;
use prolly_link::{In, Out};
use std::alloc::Global;
use std::sync::Wait;

/// What a merger of many inputs that keeps their records gives back: each input in its place.
#[derive(Drop)]
pub struct MergedRecords<I, O: Out<Record>> {
    pub inputs: Vec<I>,
    pub out: O::Closed,
    /// The number of records that were sent, or the greatest number where there were more.
    pub items: u64,
}

/// Sends the records of many inputs in key order, removals too; of records with one key that of
/// the last input.
///
/// It closes, is refused memory and receives its inputs as [`merge`](crate::merge) does, and costs
/// as many comparisons. It takes no hash.
pub fn merge_records<I: In<Record>, O: Out<Record>, R: Wait>(
    rt: &R,
    alloc: Global,
    mut inputs: Vec<I>,
    out: O,
) -> MergedRecords<I, O>
    ensures inputs { Each (Ends I.link I.progress I.Follows) inputs.items result.inputs.items }
    ensures out_link { O.closed_link result.out ≡ O.link out }
    ensures items { Counts (O.sent out) (O.all_sent result.out) result.items }
    ensures merged { let given = inputs_of I.progress I.received inputs.items result.inputs.items in
        AllRising (lists_of given) →
        SendsAll (O.sent out) (raw_merged_part given) (stop_end given)
        (O.all_sent result.out) (O.end_sent result.out) }
{
    let (items, out, _) = merge_all(rt, alloc, SharedKey::LastWins, &mut inputs, out);
    MergedRecords { inputs, out, items }
}
