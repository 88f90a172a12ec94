//! The tree of mergers, and the loaders below it.
ghost use Rattle.std.specs.Prelude.{◌≡◌, ◌+◌, ◌<◌, ◌≤◌, [], All, vec_len, vec_capacity, OnOk};
ghost use Rattle.std.specs.Prelude.{IfErr};
ghost use Rattle.prolly_link.specs.Progress.{HasEnded};
ghost use Rattle.prolly_link.specs.declared.message.Progress.TheVariants.{Ended};
ghost use Rattle.prolly_build.specs.declared.end.Halt.TheVariants.{Lost};
ghost use Rattle.prolly_build.specs.RunResult.{HandsOn, IsUnsent};
ghost use Rattle.prolly_build.specs.RecordLinks.{IsFed};

use crate::end::{Halt, close_all, refuse};
use crate::links::{LinkPair, meet_link};
use crate::run::lists::{fork_at, join_at};
use crate::run::loaders::load_all;
use crate::run::writer::WriterResult;
use crate::start::{Context, Input, MergeTwo, Permit, Runtime};
use prolly_chunk::ChunkEvent;
use prolly_entry::Record;
use prolly_io::Sink;
use prolly_link::{BatchReceiver, BatchSender, ClosedBatch};
use prolly_stage::Gate;
use std::sync::Wait;

/// Starts a merger of two for each fork, the last one first, then loads and writes, joins the
/// mergers, and meets the links into them. The outputs are those that feed the last merger.
pub(crate) fn merge_tree<'s, E, R: Runtime, G: Gate, P: Permit, S: Input + 's, W: Sink>(
    site: &Context<'s, '_, E, R, G, P>,
    mut forks: Vec<LinkPair>,
    mut outs: Vec<BatchSender<Record>>,
    sources: &mut Vec<S>,
    closed: &mut Vec<ClosedBatch<Record>>,
    last: BatchReceiver<ChunkEvent>,
    sink: &mut W,
) -> Result<WriterResult, Halt>
    requires few { vec_len sources.old ≤ 16 }
    requires each { vec_len outs + vec_len forks ≡ vec_len sources.old }
    requires some { 0 < vec_len forks → 1 ≤ vec_len outs }
    requires room { (closed.old.items ≡ []) × (vec_len sources.old ≤ vec_capacity closed.old) ×
        (vec_len sources.old ≤ vec_capacity outs) }
    requires unsent { All IsUnsent outs.items }
    requires unread { last.items ≡ [] }
    ensures hands_on { HandsOn site.now.config last
        (W.seen sink.old) (W.seen sink.new) (sink.new ≡ sink.old) result (λ wrote. wrote) }
    ensures fed { OnOk result (IsFed S.seen site.now.config.max_records sources.old.items
        sources.new.items outs.items closed.new.items) }
{
    let Some(fork) = forks.pop() else {
        return load_all(site, 0, outs, sources, closed, last, sink);
    };
    let number = forks.len();
    let place = place_of_merger(sources.len(), number);
    let (job, left_out, right_out) = merger_of(number as u32, fork);
    let out = fork_at(&mut outs, place, left_out, right_out);
    let Some(handle) = site.start(job, out) else {
        close_all(site.rt, outs);
        return Err(refuse(site.rt, forks, last));
    };
    let wrote = merge_tree(site, forks, outs, sources, closed, last, sink);
    let (inputs, out) = handle.join(site.rt);
    let wrote = wrote?;
    meet_two(site.rt, join_at(closed, place, out), inputs)?;
    Ok(wrote)
}

/// What the merger of a fork does, and the senders of its inputs.
fn merger_of(number: u32, fork: LinkPair) -> (MergeTwo, BatchSender<Record>, BatchSender<Record>)
    ensures job { result.0 ≡ record {
      number = number;
      left = fork.left.receiver;
      right = fork.right.receiver;
    } }
    ensures left { result.1 ≡ fork.left.sender }
    ensures right { result.2 ≡ fork.right.sender }
{
    let LinkPair { left, right } = fork;
    let job = MergeTwo {
        number,
        left: left.receiver,
        right: right.receiver,
    };
    (job, left.sender, right.sender)
}

/// Meets the links into a merger of two.
fn meet_two<R: Wait>(
    rt: &R,
    sent: (ClosedBatch<Record>, ClosedBatch<Record>),
    inputs: (BatchReceiver<Record>, BatchReceiver<Record>),
) -> Result<(), Halt>
    requires left { sent.0.link ≡ inputs.0.link }
    requires right { sent.1.link ≡ inputs.1.link }
    ensures left { OnOk result (HasEnded inputs.0.progress → (inputs.0.items ≡ sent.0.items) ×
        (inputs.0.progress ≡ Ended sent.0.end)) }
    ensures right { OnOk result (HasEnded inputs.1.progress → (inputs.1.items ≡ sent.1.items) ×
        (inputs.1.progress ≡ Ended sent.1.end)) }
    ensures lost { IfErr result (λ halt. halt ≡ Lost) }
{
    meet_link(rt, sent.0, inputs.0)?;
    meet_link(rt, sent.1, inputs.1)
}

/// The place of a merger of two among the inputs of its round, once the mergers left of it have
/// merged theirs: in each round neighbours are merged two by two from the left, an odd last one
/// goes on unchanged, and the mergers are numbered round by round from the left.
pub(crate) fn place_of_merger(files: usize, number: usize) -> usize
    requires { number + 2 ≤ files }
    ensures { result + number + 2 ≤ files }
{
    let mut width = files;
    let mut place = number;
    while place >= width / 2 {
        place -= width / 2;
        width -= width / 2;
    }
    place
}
