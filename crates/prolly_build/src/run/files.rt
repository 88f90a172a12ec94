//! What stands below the stages of nodes of a build: the stage of the leaves, over the pairs that
//! the last merger sends.
ghost use Rattle.std.specs.Prelude.{◌≡◌, ◌≤◌, [], All, map, vec_len, IfOk, IfErr, OnOk};
ghost use Rattle.prolly_link.specs.Progress.{HasEnded};
ghost use Rattle.prolly_link.specs.declared.message.Progress.TheVariants.{Ended};
ghost use Rattle.prolly_build.specs.Base.{AreFilesPaired};
ghost use Rattle.prolly_build.specs.declared.end.Halt.TheVariants.{Lost};
ghost use Rattle.prolly_build.specs.Mergers.{received_input, sent_input};
ghost use Rattle.prolly_build.specs.RunResult.{IsUnreceived};

use crate::config::Config;
use crate::end::Halt;
use crate::links::{NewLink, both, meet_link, new_feed, new_link};
use crate::run::base::Base;
use crate::run::lists::pop_first;
use crate::start::{CutLeaves, MergeLast};
use prolly_entry::{Pair, Record};
use prolly_link::{BatchReceiver, ClosedBatch};
use std::alloc::{AllocError, Global};
use std::sync::Wait;

/// The last merger has at most so many inputs.
const LAST_INPUTS: usize = 2;

/// New links from so many files to the stage of the leaves. Each has the memory of its ring and of
/// one message.
pub(crate) fn new_files(
    alloc: Global,
    config: &Config,
    files: usize,
) -> Result<Base<CutLeaves, MergeLast, Pair>, AllocError>
    requires { files ≤ 16 }
    ensures files { IfOk result (λ base. base.feed.files ≡ files) }
    ensures cut { IfOk result (λ base. base.leaves.cut ≡ config.now.bits) }
    ensures leaves { IfOk result (λ base. base.leaves.pairs.items ≡ []) }
    ensures middle { IfOk result (λ base. All IsUnreceived base.middle.inputs.items) }
    ensures unsent { IfOk result (λ base. base.out.items ≡ []) }
    ensures paired { IfOk result (λ base. AreFilesPaired base.out base.leaves.pairs
        base.feed.outs.items base.middle.inputs.items) }
{
    let pairs = new_link(alloc, config);
    let (pairs, (feed, inputs)) = both(pairs, new_feed(alloc, config, files, LAST_INPUTS))?;
    let NewLink { sender, receiver } = pairs;
    let leaves = CutLeaves {
        cut: config.cut(),
        pairs: receiver,
    };
    let middle = MergeLast {
        number: feed.forks.len() as u32,
        inputs,
    };
    Ok(Base {
        leaves,
        middle,
        out: sender,
        feed,
    })
}

/// Meets the ends of each link. A receiver may have lost its sender.
fn meet_all<R: Wait>(
    rt: &R,
    mut closed: Vec<ClosedBatch<Record>>,
    mut inputs: Vec<BatchReceiver<Record>>,
) -> Result<(), Halt>
    requires { map (λ c. c.link) closed.items ≡ map (λ r. r.link) inputs.items }
    ensures met { OnOk result (All (λ r. HasEnded r.progress) inputs.items →
        map received_input inputs.items ≡ map sent_input closed.items) }
    ensures lost { IfErr result (λ halt. halt ≡ Lost) }
{
    let (Some(sender), Some(receiver)) = (pop_first(&mut closed), pop_first(&mut inputs)) else {
        return Ok(());
    };
    meet_link(rt, sender, receiver)?;
    meet_all(rt, closed, inputs)
}

/// Meets the links from the files to the stage of the leaves. A receiver may have lost its sender.
pub(crate) fn meet_files<R: Wait>(
    rt: &R,
    leaves: BatchReceiver<Pair>,
    sent: ClosedBatch<Pair>,
    inputs: Vec<BatchReceiver<Record>>,
    closed: Vec<ClosedBatch<Record>>,
) -> Result<(), Halt>
    requires feed { map (λ c. c.link) closed.items ≡ map (λ r. r.link) inputs.items }
    requires pairs { sent.link ≡ leaves.link }
    ensures feed { OnOk result (All (λ r. HasEnded r.progress) inputs.items →
        map received_input inputs.items ≡ map sent_input closed.items) }
    ensures pairs { OnOk result (HasEnded leaves.progress → (leaves.items ≡ sent.items) ×
        (leaves.progress ≡ Ended sent.end)) }
    ensures lost { IfErr result (λ halt. halt ≡ Lost) }
{
    meet_all(rt, closed, inputs)?;
    meet_link(rt, sent, leaves)
}
