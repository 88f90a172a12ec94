//! The next tree from an old one and files of changes.
ghost use Rattle.std.specs.Prelude.{◌≡◌, ◌+◌, ◌<◌, ◌≤◌, ◌↔◌, [], Err, vec_len};
ghost use Rattle.prolly_link.specs.declared.fault.RunFault.TheVariants.{TooManyFiles};
ghost use Rattle.prolly_build.specs.Applied.{IsApplyOutcome};
ghost use Rattle.prolly_build.specs.Config.{AreLawful};
ghost use Rattle.prolly_build.specs.GivenBack.{IsGivenBack};
ghost use Rattle.prolly_build.specs.OldBase.{AreChangesPaired};
ghost use Rattle.prolly_report.specs.declared.apply_fault.ApplyFault.TheVariants.{Run};

use crate::config::Config;
use crate::driver::FILES_LIMIT;
use crate::links::{StageLinks, both};
use crate::old_end::{AppliedChanges, end_old};
use crate::run::{OldBase, OldLinks, run_scoped};
use crate::start::{AllStart, Lent, Permit};
use prolly_entry::Ref;
use prolly_io::{Sink, Source};
use prolly_link::RunFault;
use prolly_report::ApplyFault;
use prolly_root::ReadAhead;
use prolly_root_diff::laws::walks_tell_one_fault;
use prolly_stage::Gate;
use std::alloc::Global;
use std::mem;
use std::sync::Wait;
use std::thread::Threads;

/// The greatest number of files of changes that are laid over a tree: one less than
/// [`FILES_LIMIT`], since the tree is an input, too.
pub const CHANGES_LIMIT: usize = FILES_LIMIT - 1;

/// Runs all workers over these links, and the writer on this thread, until all of them have ended;
/// then ends the file.
fn run_old<
    R: Wait + Threads + Sync,
    D: ReadAhead + Send + Drop,
    S: Source + Send + Drop,
    W: Sink,
    G: Gate,
    P: Permit,
>(
    lent: &Lent<'_, '_, R, G, P>,
    links: StageLinks,
    old: OldBase<D>,
    sources: &mut Vec<S>,
    sink: &mut W,
) -> AppliedChanges<D>
where
    D::Place: Send,
    requires lawful { AreLawful lent.now.config }
    requires levels { vec_len links.events + 1 ≡ lent.now.config.stages }
    requires files { (old.base.feed.files ≡ vec_len sources.old) × (vec_len sources.old ≤ 15) }
    requires cut { old.base.leaves.cut ≡ lent.now.config.bits }
    requires version { old.base.middle.version ≡ lent.now.config.version }
    requires unread { (old.base.leaves.old.items ≡ []) × (old.base.leaves.changes.items ≡ []) }
    requires unsent { old.base.out.items ≡ [] }
    requires leaves { old.base.out.link ≡ old.base.leaves.old.link }
    requires changes { AreChangesPaired (vec_len sources.old) old.base.feed.outs.items
        old.base.leaves.changes old.idle }
    ensures outcome { IsApplyOutcome S.seen (D.goes_over old.base.middle.source)
        lent.now.config old.base.middle.root.0 sources.old.items sources.new.items (W.seen sink.old)
        (W.seen sink.new) (sink.new ≡ sink.old) result.answer }
    ensures counted { result.answer ≡ Err (Run TooManyFiles) → ⊥ }
    ensures given_back { IsGivenBack D.goes_over D.failures old.base.middle.source
        result.source result.answer }
{
    // By this law a lawful tree is not refused.
    walks_tell_one_fault();
    let OldBase { base, idle } = old;
    let taken = mem::replace(sources, Vec::new(lent.alloc));
    let (ran, back) = run_scoped(lent, links, base, taken, sink);
    *sources = back;
    match ran {
        Ok(ran) => end_old(lent.rt, lent.config, ran, idle, sink),
        Err(halt) => AppliedChanges {
            answer: Err(ApplyFault::Run(halt.fault())),
            source: None,
        },
    }
}

/// Makes the chunk file of the map of an old tree with changes laid over it. The tree is known by
/// its root, and its chunks come from who is not trusted: each is compared with its reference before
/// it is used. The changes are record files, as those of a [`build`](crate::build): a later one wins
/// a key, and a removal takes the key away. Source number i is file i.
///
/// The leaves of the old tree are read in a thread of their own. One that no change touches goes on
/// as it is, and its pairs are neither copied nor hashed again. All else is done as a build does it.
///
/// The root, the version and the bits of the settings are believed: the tree is the one that these
/// three name. Of any map of theirs the answer is the first of these that holds, or else a chunk of
/// its tree has the reference of a different chunk, which was read or is one of the tree, too:
///
/// - `Run(TooManyFiles)`, for more than 15 sources, and `Run(Memory)`, where the links can't be
///   made: nothing was started, and nothing is written.
/// - `Run(NoThread)`, where a worker may not start or no thread can be had for it. Those that run
///   have ended, and nothing is written.
/// - The fault of an input, the old tree being the one before file 0: `Old`, for the old tree, and
///   else as a build tells it. `WrongBits`, where the leaves of the old tree are not cut by the bits
///   as far as is tested; the leaves of the tree that is named always are. `Run(Memory)`, where a
///   worker was refused memory. `Run(Lost)`, where a worker was lost.
/// - `Run(Write)`, where the sink failed.
/// - `Run(TooTall)`, where the new tree has more levels than there are stages.
///
/// After a fault the sink holds the beginning of a file, and nothing of its end record; after
/// `Run(Write)` that may have been begun. After every answer but `Run(NoThread)` and `Run(Lost)` the
/// sources are there in their order, and the old tree's is given back, each as its loader left it;
/// after those two some may be gone.
///
/// A read of the old tree is told to have failed only where one did. Where the new tree was made none
/// did.
///
/// Before a worker sends an item `gate` is asked, and before a worker is started `permit`. The
/// loader of the old tree is to both the loader of number [`OLD_TREE`](prolly_apply::OLD_TREE).
///
/// Takes one hash of each chunk of the old tree, and for what changes those of a build. Takes the
/// memory of a build, and that of the leaves that [`load_old`](prolly_apply::load_old) reads ahead
/// and of the references of the nodes above them.
pub fn apply_changes_with<
    R: Wait + Threads + Sync,
    D: ReadAhead + Send + Drop,
    S: Source + Send + Drop,
    W: Sink,
    G: Gate,
    P: Permit,
>(
    rt: &R,
    alloc: Global,
    config: &Config,
    root: &Ref,
    old: D,
    sources: &mut Vec<S>,
    sink: &mut W,
    gate: &G,
    permit: &P,
) -> AppliedChanges<D>
where
    D::Place: Send,
    ensures too_many { (result.answer ≡ Err (Run TooManyFiles)) ↔ (15 < vec_len sources.old) }
    ensures outcome { IsApplyOutcome S.seen (D.goes_over old) config.now root.now.0
        sources.old.items sources.new.items (W.seen sink.old) (W.seen sink.new) (sink.new ≡ sink.old)
        result.answer }
    ensures given_back { IsGivenBack D.goes_over D.failures old result.source
        result.answer }
{
    if sources.len() > CHANGES_LIMIT {
        return AppliedChanges {
            answer: Err(ApplyFault::Run(RunFault::TooManyFiles)),
            source: Some(old),
        };
    }
    let old_links = OldLinks::new(rt, alloc, config, sources.len());
    let Ok((links, old_links)) = both(StageLinks::new(alloc, config), old_links) else {
        return AppliedChanges {
            answer: Err(ApplyFault::Run(RunFault::Memory)),
            source: Some(old),
        };
    };
    let old = old_links.base_over(config, *root, old);
    let lent = Lent {
        rt,
        alloc,
        gate,
        permit,
        config: *config,
    };
    run_old(&lent, links, old, sources, sink)
}

/// Applies changes as [`apply_changes_with`] does, where all workers may start.
pub fn apply_changes<
    R: Wait + Threads + Sync,
    D: ReadAhead + Send + Drop,
    S: Source + Send + Drop,
    W: Sink,
    G: Gate,
>(
    rt: &R,
    alloc: Global,
    config: &Config,
    root: &Ref,
    old: D,
    sources: &mut Vec<S>,
    sink: &mut W,
    gate: &G,
) -> AppliedChanges<D>
where
    D::Place: Send,
    ensures too_many { (result.answer ≡ Err (Run TooManyFiles)) ↔ (15 < vec_len sources.old) }
    ensures outcome { IsApplyOutcome S.seen (D.goes_over old) config.now root.now.0
        sources.old.items sources.new.items (W.seen sink.old) (W.seen sink.new) (sink.new ≡ sink.old)
        result.answer }
    ensures given_back { IsGivenBack D.goes_over D.failures old result.source
        result.answer }
{
    apply_changes_with(rt, alloc, config, root, old, sources, sink, gate, &AllStart)
}
