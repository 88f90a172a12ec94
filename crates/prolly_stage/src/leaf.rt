//! The stage of the leaves.
ghost use Rattle.std.specs.Prelude.{◌≡◌, ◌++◌, IfOk, OnOk, OnErr};
ghost use Rattle.prolly_entry.specs.declared.version.Version.{Version as VersionValue};
ghost use Rattle.prolly_tree.specs.Events.{leaf_events};
ghost use Rattle.prolly_tree.specs.Tree.{pair_is_boundary};
ghost use Rattle.prolly_link.specs.Progress.{HasEnded, end_given};
ghost use Rattle.prolly_stage.specs.Sends.{closing_of, Sends, GivesUp};
ghost use Rattle.prolly_stage.specs.StageStep.{SendsLeaf};

use crate::staged::{Staged, give_up, send_closed};
use prolly_chunk::{ChunkEvent, LeafLevel};
use prolly_entry::{Cut, Pair};
use prolly_link::{End, In, Next, Out, RunFault};
use std::alloc::{AllocError, Global};
use std::sync::Wait;

/// Sends an event for each leaf of the pairs that it receives, and closes with the end that it
/// received. At a clean end the last leaf may end without a boundary, and where no pair came at all
/// it is the leaf without pairs. At a fault the open leaf is not sent. An input that lost its
/// sender counts as one that ended with `Lost`.
///
/// Where memory is refused it closes with that fault, and receives its input to the end. It keeps
/// the bytes of one leaf, and takes one look at the cut for each pair. It takes the hash of a leaf
/// only where its receiver is far behind; else the next stage takes it. It returns if the ends do.
pub fn leaf_stage<C: Cut, I: In<Pair>, O: Out<ChunkEvent>, R: Wait>(
    rt: &R,
    alloc: Global,
    cut: C,
    mut input: I,
    mut out: O,
) -> Staged<I, O>
    ensures input_link { I.link result.input ≡ I.link input }
    ensures follows { I.Follows input result.input }
    ensures ended { HasEnded (I.progress result.input) }
    ensures out_link { O.closed_link result.out ≡ O.link out }
    ensures sends { (version : VersionValue) → Sends (leaf_events (C.cut cut) version)
        (I.received input result.input) (end_given (I.progress result.input))
        (O.sent out) (O.all_sent result.out) (O.end_sent result.out) }
{
    match send_leaves(rt, alloc, cut, &mut input, &mut out) {
        Ok(end) => Staged {
            input,
            out: out.close(rt, end),
        },
        Err(_) => give_up(rt, input, out),
    }
}

/// Receives the pairs, sends their leaves, and answers the end of the pairs.
fn send_leaves<C: Cut, I: In<Pair>, O: Out<ChunkEvent>, R: Wait>(
    rt: &R,
    alloc: Global,
    cut: C,
    input: &mut I,
    out: &mut O,
) -> Result<End, AllocError>
    ensures input_link { I.link input.new ≡ I.link input.old }
    ensures follows { I.Follows input.old input.new }
    ensures out_link { O.link out.new ≡ O.link out.old }
    ensures ended { IfOk result (λ end. HasEnded (I.progress input.new) ×
        (end_given (I.progress input.new) ≡ end)) }
    ensures sent { IfOk result (λ end. (version : VersionValue) → O.sent out.new
        ≡ O.sent out.old ++ leaf_events (C.cut cut) version (closing_of end)
        (I.received input.old input.new)) }
    ensures err { OnErr result ((version : VersionValue) → GivesUp (leaf_events (C.cut cut) version)
        (I.received input.old input.new) (O.sent out.old) (O.sent out.new)) }
{
    let mut leaves = LeafLevel::new(alloc, cut)?;
    for _ in rt.forever() {
        match input.recv(rt) {
            Next::Item(pair) => take_pair(rt, alloc, &mut leaves, out, pair)?,
            Next::End(End::Clean) => {
                send_closed(rt, out, leaves.finish())?;
                return Ok(End::Clean);
            }
            Next::End(End::Fault(fault)) => return Ok(End::Fault(fault)),
            Next::Lost => return Ok(End::Fault(RunFault::Lost)),
        }
    }
    unreachable!()
}

/// Takes a pair, and sends the leaf that it closes, if any. An `Err` has sent nothing.
pub fn take_pair<C: Cut, O: Out<ChunkEvent>, R: Wait>(
    rt: &R,
    alloc: Global,
    leaves: &mut LeafLevel<C>,
    out: &mut O,
    pair: Pair,
) -> Result<(), AllocError>
    ensures link { O.link out.new ≡ O.link out.old }
    ensures ok { OnOk result (SendsLeaf C.cut leaves.old leaves.new pair (O.sent out.old)
        (O.sent out.new)) }
    ensures err { OnErr result (O.sent out.new ≡ O.sent out.old) }
{
    let closed = leaves.push(alloc, &pair)?;
    send_closed(rt, out, closed)
}

/// Takes a pair, and sends the leaf that it closes, if any. The caller says whether the pair is a
/// boundary, so the pair is not hashed. If the caller is wrong, nothing is promised. An `Err` has
/// sent nothing.
pub fn take_decided_pair<C: Cut, O: Out<ChunkEvent>, R: Wait>(
    rt: &R,
    alloc: Global,
    leaves: &mut LeafLevel<C>,
    out: &mut O,
    pair: Pair,
    is_boundary: bool,
) -> Result<(), AllocError>
    ensures link { O.link out.new ≡ O.link out.old }
    ensures ok { OnOk result (pair_is_boundary (C.cut leaves.old.cut) pair ≡ is_boundary →
        SendsLeaf C.cut leaves.old leaves.new pair (O.sent out.old) (O.sent out.new)) }
    ensures err { OnErr result (O.sent out.new ≡ O.sent out.old) }
{
    let closed = leaves.push_decided(alloc, &pair, is_boundary)?;
    send_closed(rt, out, closed)
}
