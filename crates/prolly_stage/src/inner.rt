//! The stages of the levels of nodes.
ghost use Rattle.std.specs.Prelude.{◌≡◌, ◌≤◌, ◌++◌, IfOk, OnOk, OnErr};
ghost use Rattle.prolly_entry.specs.declared.version.Version.TheVariants.{One};
ghost use Rattle.prolly_tree.specs.Events.{inner_events};
ghost use Rattle.prolly_link.specs.Progress.{HasEnded, end_given};
ghost use Rattle.prolly_stage.specs.Sends.{closing_of, Sends, GivesUp};
ghost use Rattle.prolly_stage.specs.StageStep.{SendsNode, SendsNodeInPart};

use crate::staged::{Staged, give_up, send_closed, send_event};
use prolly_chunk::{ChunkEvent, NodeLevel};
use prolly_entry::{Cut, Version};
use prolly_link::{End, In, Next, Out, RunFault};
use std::alloc::{AllocError, Global};
use std::sync::Wait;

/// As [`inner_stage_as`], of version One.
pub fn inner_stage<C: Cut, I: In<ChunkEvent>, O: Out<ChunkEvent>, R: Wait>(
    rt: &R,
    alloc: Global,
    level: u8,
    cut: C,
    input: I,
    out: O,
) -> Staged<I, O>
    requires { 1 ≤ level }
    ensures input_link { I.link result.input ≡ I.link input }
    ensures follows { I.Follows input result.input }
    ensures ended { HasEnded (I.progress result.input) }
    ensures out_link { O.closed_link result.out ≡ O.link out }
    ensures sends { Sends (inner_events level (C.cut cut) One)
        (I.received input result.input) (end_given (I.progress result.input))
        (O.sent out) (O.all_sent result.out) (O.end_sent result.out) }
{
    inner_stage_as(rt, alloc, Version::One, level, cut, input, out)
}

/// Forwards each event that it receives, puts in the events of the nodes of its level, each behind
/// its last child, and closes with the end that it received. The children are the events of the
/// level below. At a clean end the open node is sent too where it has children and two or more came
/// in all; a single one is the root. At a fault the open node is not sent. An input that lost its
/// sender counts as one that ended with `Lost`.
///
/// Where memory is refused it closes with that fault, and receives its input to the end. It keeps
/// the bytes of one node, and takes one look at the cut for each child. It takes the hash of each
/// chunk whose event does not carry its reference, and sends the event with it. It returns if the
/// ends do.
pub fn inner_stage_as<C: Cut, I: In<ChunkEvent>, O: Out<ChunkEvent>, R: Wait>(
    rt: &R,
    alloc: Global,
    version: Version,
    level: u8,
    cut: C,
    mut input: I,
    mut out: O,
) -> Staged<I, O>
    requires { 1 ≤ level }
    ensures input_link { I.link result.input ≡ I.link input }
    ensures follows { I.Follows input result.input }
    ensures ended { HasEnded (I.progress result.input) }
    ensures out_link { O.closed_link result.out ≡ O.link out }
    ensures sends { Sends (inner_events level (C.cut cut) version)
        (I.received input result.input) (end_given (I.progress result.input))
        (O.sent out) (O.all_sent result.out) (O.end_sent result.out) }
{
    match send_nodes(rt, alloc, version, level, cut, &mut input, &mut out) {
        Ok(end) => Staged {
            input,
            out: out.close(rt, end),
        },
        Err(_) => give_up(rt, input, out),
    }
}

/// Receives events, sends them with those of the nodes above them, and answers their end.
fn send_nodes<C: Cut, I: In<ChunkEvent>, O: Out<ChunkEvent>, R: Wait>(
    rt: &R,
    alloc: Global,
    version: Version,
    level: u8,
    cut: C,
    input: &mut I,
    out: &mut O,
) -> Result<End, AllocError>
    requires { 1 ≤ level }
    ensures input_link { I.link input.new ≡ I.link input.old }
    ensures follows { I.Follows input.old input.new }
    ensures out_link { O.link out.new ≡ O.link out.old }
    ensures ended { IfOk result (λ end. HasEnded (I.progress input.new) ×
        (end_given (I.progress input.new) ≡ end)) }
    ensures sent { IfOk result (λ end. O.sent out.new
        ≡ O.sent out.old ++ inner_events level (C.cut cut) version (closing_of end)
        (I.received input.old input.new)) }
    ensures err { OnErr result (GivesUp (inner_events level (C.cut cut) version)
        (I.received input.old input.new) (O.sent out.old) (O.sent out.new)) }
{
    let mut nodes = NodeLevel::new(alloc, version, level, cut)?;
    for _ in rt.forever() {
        match input.recv(rt) {
            Next::Item(event) => take_event(rt, alloc, &mut nodes, out, event)?,
            Next::End(End::Clean) => {
                send_closed(rt, out, nodes.finish())?;
                return Ok(End::Clean);
            }
            Next::End(End::Fault(fault)) => return Ok(End::Fault(fault)),
            Next::Lost => return Ok(End::Fault(RunFault::Lost)),
        }
    }
    unreachable!()
}

/// Takes an event, and sends it, with its reference, and then the node that it closes, if any.
fn take_event<C: Cut, O: Out<ChunkEvent>, R: Wait>(
    rt: &R,
    alloc: Global,
    nodes: &mut NodeLevel<C>,
    out: &mut O,
    event: ChunkEvent,
) -> Result<(), AllocError>
    ensures link { O.link out.new ≡ O.link out.old }
    ensures ok { OnOk result (SendsNode C.cut nodes.old nodes.new event (O.sent out.old)
        (O.sent out.new)) }
    ensures err { OnErr result (SendsNodeInPart C.cut nodes.old nodes.new event (O.sent out.old)
        (O.sent out.new)) }
{
    let event = event.with_reference();
    let closed = nodes.push(alloc, &event)?;
    send_event(rt, out, event)?;
    send_closed(rt, out, closed)
}
