//! What stands below the stages of nodes where changes are laid over an old tree: the stage of the
//! leaves, which has the leaves of the old tree and the merged changes.
ghost use Rattle.std.specs.Prelude.{◌≡◌, ◌≤◌, [], IfOk, IfErr, OnOk};
ghost use Rattle.prolly_link.specs.Progress.{HasEnded};
ghost use Rattle.prolly_link.specs.declared.message.Progress.TheVariants.{Ended};
ghost use Rattle.prolly_build.specs.OldBase.{AreChangesPaired, IsChangesLink, IsFirstOf};
ghost use Rattle.prolly_build.specs.OldBase.{first_sent, senders_of};
ghost use Rattle.prolly_build.specs.declared.end.Halt.TheVariants.{Lost};
ghost use Rattle.prolly_build.specs.Mergers.{received_input};

use crate::config::Config;
use crate::end::Halt;
use crate::links::{Feed, NewLink, both, meet_link, new_feed, new_link};
use crate::run::base::Base;
use crate::run::lists::pop_first;
use crate::start::{AppliedEnds, ApplyLeaves, LoadOld};
use prolly_apply::OldLeaf;
use prolly_entry::{Record, Ref};
use prolly_link::{BatchReceiver, ClosedBatch, End};
use std::alloc::{AllocError, Global};
use std::sync::Wait;

/// The base of a run over an old tree.
#[derive(Drop)]
pub(crate) struct OldBase<D> {
    pub base: Base<ApplyLeaves, LoadOld<D>, OldLeaf>,
    /// The sender of the changes, closed, where no file feeds them.
    pub idle: Option<ClosedBatch<Record>>,
}

/// The input of the changes, and the links that feed it.
#[derive(Drop)]
struct Changes {
    feed: Feed,
    input: BatchReceiver<Record>,
    idle: Option<ClosedBatch<Record>>,
}

/// New links from so many files to the input of the changes. Where there are no files, it has ended.
fn new_changes<R: Wait>(
    rt: &R,
    alloc: Global,
    config: &Config,
    files: usize,
) -> Result<Changes, AllocError>
    requires { files ≤ 15 }
    ensures files { IfOk result (λ changes. changes.feed.files ≡ files) }
    ensures unread { IfOk result (λ changes. changes.input.items ≡ []) }
    ensures paired { IfOk result (λ changes. AreChangesPaired files
        changes.feed.outs.items changes.input changes.idle) }
{
    let (feed, mut inputs) = new_feed(alloc, config, files, 1)?;
    if let Some(input) = pop_first(&mut inputs) {
        return Ok(Changes {
            feed,
            input,
            idle: None,
        });
    }
    let NewLink { sender, receiver } = new_link(alloc, config)?;
    Ok(Changes {
        feed,
        input: receiver,
        idle: Some(sender.close(rt, End::Clean)),
    })
}

/// The links from an old tree and from files of changes to the stage of the leaves.
#[derive(Drop)]
pub(crate) struct OldLinks {
    leaves: NewLink<OldLeaf>,
    changes: Changes,
}

impl OldLinks {
    /// New links, from so many files.
    pub(crate) fn new<R: Wait>(
        rt: &R,
        alloc: Global,
        config: &Config,
        files: usize,
    ) -> Result<OldLinks, AllocError>
        requires { files ≤ 15 }
        ensures files { IfOk result (λ links. links.changes.feed.files ≡ files) }
        ensures unread { IfOk result (λ links. links.changes.input.items ≡ []) }
        ensures paired { IfOk result (λ links. AreChangesPaired files
            links.changes.feed.outs.items links.changes.input links.changes.idle) }
    {
        let leaves = new_link(alloc, config);
        let (leaves, changes) = both(leaves, new_changes(rt, alloc, config, files))?;
        Ok(OldLinks { leaves, changes })
    }

    /// The base over these links of a run over the tree with this root.
    pub(crate) fn base_over<D: Drop>(self, config: &Config, root: Ref, source: D) -> OldBase<D>
        ensures feed { result.base.feed ≡ self.changes.feed }
        ensures input { result.base.leaves.changes ≡ self.changes.input }
        ensures idle { result.idle ≡ self.changes.idle }
        ensures cut { result.base.leaves.cut ≡ config.now.bits }
        ensures job { result.base.middle ≡ record {
          version = config.now.version;
          root = root;
          source = source;
        } }
        ensures unread { result.base.leaves.old.items ≡ [] }
        ensures unsent { result.base.out.items ≡ [] }
        ensures leaves { result.base.out.link ≡ result.base.leaves.old.link }
    {
        let OldLinks { leaves, changes } = self;
        let NewLink { sender, receiver } = leaves;
        let Changes { feed, input, idle } = changes;
        let base = Base {
            leaves: ApplyLeaves {
                cut: config.cut(),
                old: receiver,
                changes: input,
            },
            middle: LoadOld {
                version: config.version(),
                root,
                source,
            },
            out: sender,
            feed,
        };
        OldBase { base, idle }
    }
}

/// The sender of the changes.
fn changes_sender(
    mut closed: Vec<ClosedBatch<Record>>,
    idle: Option<ClosedBatch<Record>>,
) -> Option<ClosedBatch<Record>>
    ensures { IsFirstOf (senders_of closed.items idle) result }
{
    match idle {
        Some(sender) => Some(sender),
        None => pop_first(&mut closed),
    }
}

/// Meets the links into the stage of the leaves. A receiver may have lost its sender.
pub(crate) fn meet_old<R: Wait>(
    rt: &R,
    ends: AppliedEnds,
    sent: ClosedBatch<OldLeaf>,
    closed: Vec<ClosedBatch<Record>>,
    idle: Option<ClosedBatch<Record>>,
) -> Result<(), Halt>
    requires leaves { sent.link ≡ ends.old.link }
    requires changes { IsChangesLink (senders_of closed.items idle) ends.changes.link }
    ensures leaves { OnOk result (HasEnded ends.old.progress → (ends.old.items ≡ sent.items) ×
        (ends.old.progress ≡ Ended sent.end)) }
    ensures changes { OnOk result (HasEnded ends.changes.progress →
        received_input ends.changes ≡ first_sent (senders_of closed.items idle)) }
    ensures lost { IfErr result (λ halt. halt ≡ Lost) }
{
    let AppliedEnds {
        old,
        changes,
        refused: _,
    } = ends;
    meet_link(rt, sent, old)?;
    match changes_sender(closed, idle) {
        Some(sender) => meet_link(rt, sender, changes),
        None => Err(Halt::Lost),
    }
}
