//! Two inputs into one.
ghost use Rattle.std.specs.Prelude.{◌≡◌, List, [], ◌∷◌, ◌++◌};
ghost use Rattle.prolly_entry.specs.Record.{Record as RecordValue};
ghost use Rattle.prolly_entry.specs.Overlay.{AllRising};
ghost use Rattle.prolly_tree.specs.Merge.{raw_merged_part};
ghost use Rattle.prolly_merge.specs.Each.{Each};
ghost use Rattle.prolly_merge.specs.Inputs.{inputs_of, lists_of, stop_end, Ends};
ghost use Rattle.prolly_merge.specs.Merged.{SendsAll, Counts};
ghost use Rattle.prolly_merge.specs.Head.{IsHeld};
ghost use Rattle.prolly_merge.specs.Peeked.{Advances, places_after};
ghost use Rattle.prolly_merge.specs.MergeStep.{IsStep};
ghost use Rattle.prolly_merge.specs.Places.{Halts};
ghost use Rattle.prolly_merge.specs.Turn.{IsTurn};

use crate::heads::{Head, MergeStep, Peeked};
use prolly_entry::{Record, key_order};
use prolly_link::{End, In, Out, RunFault};
use std::cmp::Ordering;
use std::sync::Wait;

/// What a merger of two inputs gives back.
#[derive(Drop)]
pub struct MergedTwo<I, O: Out<Record>> {
    pub left: I,
    pub right: I,
    pub out: O::Closed,
    /// The number of records that were sent, or the greatest number where there were more.
    pub items: u64,
}

// The next record of the two, which its inputs give away, or why there is none.
fn next_of_two<I: In<Record>, R: Wait>(
    rt: &R,
    left: &mut Peeked<I>,
    right: &mut Peeked<I>,
) -> MergeStep
    ensures { IsStep I.link I.progress I.Follows I.received (left.old ∷ right.old ∷ []) result
        (left.new ∷ right.new ∷ []) }
{
    let head = match turn_of(&left.head, &right.head) {
        Turn::Left => left.next(rt),
        Turn::Right => right.next(rt),
        Turn::Both => {
            drop(left.next(rt));
            right.next(rt)
        }
        Turn::Stop(end) => return MergeStep::Stop(end),
    };
    match head {
        Head::Ready(record) => MergeStep::Send(record),
        Head::Ended(_) => unreachable!(),
    }
}

// Sends records until the merger stops, or one is refused. Gives the number of records sent, and
// the end.
fn send_two<I: In<Record>, O: Out<Record>, R: Wait>(
    rt: &R,
    left: &mut Peeked<I>,
    right: &mut Peeked<I>,
    out: &mut O,
) -> (u64, End)
    requires left { IsHeld left.old.head (I.progress left.old.input) }
    requires right { IsHeld right.old.head (I.progress right.old.input) }
    ensures advance { Each (Advances I.link I.progress I.Follows) (left.old ∷ right.old ∷ [])
        (left.new ∷ right.new ∷ []) }
    ensures out_link { O.link out.new ≡ O.link out.old }
    ensures items { Counts (O.sent out.old) (O.sent out.new) result.0 }
    ensures halts { (xs : List RecordValue) × (O.sent out.new ≡ O.sent out.old ++ xs)
        × Halts (places_after I.received (left.old ∷ right.old ∷ [])
        (left.new ∷ right.new ∷ [])) xs result.1 }
{
    let mut items = 0u64;
    for _ in rt.forever() {
        match next_of_two(rt, left, right) {
            MergeStep::Send(record) => {
                let size = record.size();
                if let Err(_) = out.send_sized(rt, record, size) {
                    return (items, End::Fault(RunFault::Memory));
                }
                items = items.saturating_add(1);
            }
            MergeStep::Stop(end) => return (items, end),
        }
    }
    unreachable!()
}

/// Sends the records of two inputs in key order, removals too; of two records with one key the
/// right one.
///
/// It closes with `Clean` where both inputs do. Otherwise it sends every record up to the last key
/// of the input that ended with a fault, and closes with that fault; where both did, with that of
/// the lower last key, of equal ones the left. It closes with `Fault(Memory)` where a record was
/// refused. Both inputs are received to their ends. All this is promised of inputs whose keys rise;
/// of others it is known only that they have ended, and how many records were sent.
///
/// Takes one comparison of keys a record, and no memory of its own.
pub fn merge_two<I: In<Record>, O: Out<Record>, R: Wait>(
    rt: &R,
    left: I,
    right: I,
    mut out: O,
) -> MergedTwo<I, O>
    ensures left { Ends I.link I.progress I.Follows left result.left }
    ensures right { Ends I.link I.progress I.Follows right result.right }
    ensures out_link { O.closed_link result.out ≡ O.link out }
    ensures items { Counts (O.sent out) (O.all_sent result.out) result.items }
    ensures merged { let inputs = inputs_of I.progress I.received
        (left ∷ right ∷ []) (result.left ∷ result.right ∷ []) in
        AllRising (lists_of inputs) →
        SendsAll (O.sent out) (raw_merged_part inputs) (stop_end inputs)
        (O.all_sent result.out) (O.end_sent result.out) }
{
    let mut left = Peeked::new(rt, left);
    let mut right = Peeked::new(rt, right);
    let (items, end) = send_two(rt, &mut left, &mut right, &mut out);
    let out = out.close(rt, end);
    MergedTwo {
        left: left.finish(rt),
        right: right.finish(rt),
        out,
        items,
    }
}

/// The input whose record is sent next. Of two records with one key the right one is sent, and the
/// left one is left out.
#[derive(Drop)]
pub(crate) enum Turn {
    Left,
    Right,
    Both,
    Stop(End),
}

/// Compares the two heads. A fault stops the merger before any other record: what is left has
/// greater keys.
pub(crate) fn turn_of(left: &Head, right: &Head) -> Turn
    ensures { IsTurn left.now right.now result }
{
    match (left, right) {
        (Head::Ended(End::Fault(fault)), _) => Turn::Stop(End::Fault(*fault)),
        (_, Head::Ended(End::Fault(fault))) => Turn::Stop(End::Fault(*fault)),
        (Head::Ended(End::Clean), Head::Ended(End::Clean)) => Turn::Stop(End::Clean),
        (Head::Ready(_), Head::Ended(End::Clean)) => Turn::Left,
        (Head::Ended(End::Clean), Head::Ready(_)) => Turn::Right,
        (Head::Ready(left), Head::Ready(right)) => match key_order(left.key(), right.key()) {
            Ordering::Less => Turn::Left,
            Ordering::Equal => Turn::Both,
            Ordering::Greater => Turn::Right,
        },
    }
}
