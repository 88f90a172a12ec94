//! Many inputs into the pairs that they put.
ghost use Rattle.std.specs.Prelude.{◌≡◌};
ghost use Rattle.prolly_entry.specs.Overlay.{AllRising};
ghost use Rattle.prolly_tree.specs.Merge.{merged_part};
ghost use Rattle.prolly_merge.specs.Each.{Each};
ghost use Rattle.prolly_merge.specs.Inputs.{inputs_of, lists_of, stop_end, Ends};
ghost use Rattle.prolly_merge.specs.Merged.{SendsAll, Counts};

use crate::many::merge_all;
use crate::round::SharedKey;
use prolly_entry::{Pair, Record};
use prolly_link::{In, Out};
use std::alloc::Global;
use std::sync::Wait;

/// What a merger of many inputs gives back: each input in its place.
#[derive(Drop)]
pub struct Merged<I, O: Out<Pair>> {
    pub inputs: Vec<I>,
    pub out: O::Closed,
    /// The number of pairs that were sent, or the greatest number where there were more.
    pub pairs: u64,
}

/// Sends the pairs of the overlay of the inputs in key order: of records with one key that of the
/// last input counts, and a removal leaves its key out.
///
/// It closes with `Clean` where all inputs do. Otherwise it sends every pair up to the last key of
/// the input that ended with a fault, and closes with that fault; where several did, with that of
/// the least last key, of equal ones the first. It closes with `Fault(Memory)` where memory was
/// refused: for the heads, one for each input, before anything is received, or by the output. All
/// inputs are received to their ends. All this is promised of inputs whose keys rise; of others it
/// is known only that they have ended, and how many pairs were sent.
///
/// Takes one comparison of keys an input for each record, and one more for those before it where
/// inputs share its key. Where the receiver is far behind, it takes the hash of a pair's boundary,
/// which the pair carries then.
pub fn merge<I: In<Record>, O: Out<Pair>, R: Wait>(
    rt: &R,
    alloc: Global,
    mut inputs: Vec<I>,
    out: O,
) -> Merged<I, O>
    ensures inputs { Each (Ends I.link I.progress I.Follows) inputs.items result.inputs.items }
    ensures out_link { O.closed_link result.out ≡ O.link out }
    ensures pairs { Counts (O.sent out) (O.all_sent result.out) result.pairs }
    ensures merged { let given = inputs_of I.progress I.received inputs.items result.inputs.items in
        AllRising (lists_of given) →
        SendsAll (O.sent out) (merged_part given) (stop_end given)
        (O.all_sent result.out) (O.end_sent result.out) }
{
    let (pairs, out, _) = merge_all(rt, alloc, SharedKey::LastWins, &mut inputs, out);
    Merged { inputs, out, pairs }
}
