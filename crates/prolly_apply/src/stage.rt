//! The stage of the leaves, where changes are laid over an old tree.
ghost use Rattle.std.specs.Prelude.{◌≡◌, true, false, IfOk, IfErr};
ghost use Rattle.prolly_entry.specs.declared.version.Version.{Version as VersionValue};
ghost use Rattle.prolly_link.specs.Progress.{end_given};
ghost use Rattle.prolly_merge.specs.Head.{IsHeld};
ghost use Rattle.prolly_merge.specs.Inputs.{Ends};
ghost use Rattle.prolly_merge.specs.Peeked.{Advances, place_after};
ghost use Rattle.prolly_apply.specs.Applied.{EndsBy, IsCleanBehind, IsRefused, IsVerdict};
ghost use Rattle.prolly_apply.specs.Applied.{SeenAtEnd, SendsApplied, StopsAt, given};

use crate::cutting::Cutting;
use crate::old_leaf::OldLeaf;
use crate::old_pairs::{take_leaf, take_rest};
use crate::stop::Stop;
use prolly_chunk::{ChunkEvent, LeafLevel};
use prolly_entry::{Cut, Record};
use prolly_link::{End, In, Next, Out, RunFault, receive_rest};
use prolly_merge::Peeked;
use prolly_stage::{OLD_TREE, send_closed};
use std::alloc::Global;
use std::sync::Wait;

/// What the stage gives back: both inputs have ended, and the output is closed.
#[derive(Drop)]
pub struct Applied<L, I, O: Out<ChunkEvent>> {
    pub old: L,
    pub changes: I,
    pub out: O::Closed,
    /// Whether the old tree was refused, since its leaves are not cut by this cut.
    pub refused: bool,
}

/// Sends an event for each leaf of the map that changes make of an old tree's map, whose leaves
/// come in their order, and closes with the end of the merge of both: the old tree is the input
/// before the changes. At a fault the open leaf is not sent. An input that lost its sender counts
/// as one that ended with `Lost`.
///
/// A leaf of the old tree goes on whole where no leaf is open, it ends with a boundary, and the next
/// change is in hand and stands behind it, or the changes ended clean. Its event carries its
/// reference. Of it no pair is copied, and only the last one is hashed. The pairs of any other leaf
/// are copied and merged with the changes. They are not hashed either: the last one was tested, and
/// that no other one is a boundary is the premise.
///
/// A tree of other bits is refused where that shows: where a leaf that another one follows does not
/// end with a boundary, or one of the first 40 leaves has a boundary before its last pair. Then the
/// end is a failed read of the file with the number [`OLD_TREE`].
///
/// Where memory is refused it closes with that fault. It keeps the bytes of one leaf, beside that of
/// the old tree. Both inputs are received to their ends. It returns if the ends do.
pub fn apply_stage<C: Cut, L: In<OldLeaf>, I: In<Record>, O: Out<ChunkEvent>, R: Wait>(
    rt: &R,
    alloc: Global,
    cut: C,
    mut old: L,
    changes: I,
    mut out: O,
) -> Applied<L, I, O>
    ensures old { Ends L.link L.progress L.Follows old result.old }
    ensures changes { Ends I.link I.progress I.Follows changes result.changes }
    ensures out_link { O.closed_link result.out ≡ O.link out }
    ensures sends { result.refused ≡ false → (version : VersionValue) → SendsApplied (C.cut cut)
        version (L.received old result.old) (given (L.received old result.old)
        (end_given (L.progress result.old)) (I.received changes result.changes)
        (end_given (I.progress result.changes))) (O.sent out) (O.all_sent result.out)
        (O.end_sent result.out) }
    ensures seen { result.refused ≡ false → SeenAtEnd (C.cut cut) (L.received old result.old)
        (O.end_sent result.out) }
    ensures refused { result.refused ≡ true → IsRefused (C.cut cut) (L.received old result.old)
        (given (L.received old result.old) (end_given (L.progress result.old))
        (I.received changes result.changes) (end_given (I.progress result.changes))) (O.sent out)
        (O.all_sent result.out) (O.end_sent result.out) }
    ensures clean { IsCleanBehind (end_given (L.progress result.old)) (O.end_sent result.out) }
{
    let mut changes = Peeked::new(rt, changes);
    let (end, refused) = verdict_of(send_merged(rt, alloc, cut, &mut old, &mut changes, &mut out));
    let out = out.close(rt, end);
    receive_rest(rt, &mut old);
    Applied {
        old,
        changes: changes.finish(rt),
        out,
        refused,
    }
}

/// How a run came to its end.
#[derive(Clone, Copy, Debug)]
enum Outcome {
    /// Both inputs came to a clean end, and all was sent.
    Clean,
    /// The old tree is not cut as it is said.
    Refused,
}

/// The end that is sent where a run came to its end so, and whether the old tree was refused.
fn verdict_of(outcome: Result<Outcome, Stop>) -> (End, bool)
    ensures { IsVerdict outcome result.0 result.1 }
{
    match outcome {
        Ok(Outcome::Clean) => (End::Clean, false),
        Ok(Outcome::Refused) => (End::Fault(RunFault::Read { file: OLD_TREE }), true),
        Err(stop) => (stop.end(), false),
    }
}

/// Sends the leaves until both inputs have come to a clean end, or the old tree is refused.
fn send_merged<C: Cut, L: In<OldLeaf>, I: In<Record>, O: Out<ChunkEvent>, R: Wait>(
    rt: &R,
    alloc: Global,
    cut: C,
    old: &mut L,
    changes: &mut Peeked<I>,
    out: &mut O,
) -> Result<Outcome, Stop>
    requires { IsHeld changes.old.head (I.progress changes.old.input) }
    ensures old_link { L.link old.new ≡ L.link old.old }
    ensures follows { L.Follows old.old old.new }
    ensures advances { Advances I.link I.progress I.Follows changes.old changes.new }
    ensures out_link { O.link out.new ≡ O.link out.old }
    ensures ok { IfOk result (λ outcome. EndsBy (C.cut cut) (L.received old.old old.new)
        (L.progress old.new) (place_after I.received changes.old changes.new) (O.sent out.old)
        outcome (O.sent out.new)) }
    ensures err { IfErr result (λ stop. StopsAt (C.cut cut) (L.received old.old old.new)
        (L.progress old.new) (place_after I.received changes.old changes.new) (O.sent out.old) stop
        (O.sent out.new)) }
{
    let mut level = LeafLevel::new(alloc, cut)?;
    let mut cutting = Cutting::new();
    for _ in rt.forever() {
        match old.recv(rt) {
            Next::Item(leaf) => {
                if !cutting.admits(&cut, &leaf) {
                    return Ok(Outcome::Refused);
                }
                let ends = cutting.has_ended();
                take_leaf(rt, alloc, &mut level, changes, out, leaf, ends)?;
            }
            Next::End(End::Clean) => {
                take_rest(rt, alloc, &mut level, changes, out)?;
                send_closed(rt, out, level.finish())?;
                return Ok(Outcome::Clean);
            }
            Next::End(End::Fault(fault)) => return Err(Stop::Fault(fault)),
            Next::Lost => return Err(Stop::Fault(RunFault::Lost)),
        }
    }
    unreachable!()
}
