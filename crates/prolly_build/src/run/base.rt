//! The workers below the stages of nodes: the stage of the leaves, the worker that it has its first
//! input from, and those that feed records to one of them.
ghost use Rattle.std.specs.Prelude.{◌≡◌, ◌≤◌, [], vec_len, IfOk};
ghost use Rattle.prolly_build.specs.Base.{GoesOver, IsBase};
ghost use Rattle.prolly_build.specs.RecordLinks.{IsFed};
ghost use Rattle.prolly_build.specs.RunResult.{HandsOn};

use crate::end::{Halt, close_all, refuse};
use crate::links::Feed;
use crate::run::mergers::merge_tree;
use crate::run::writer::WriterResult;
use crate::start::{Context, Input, Job, Permit, Runtime};
use prolly_chunk::ChunkEvent;
use prolly_entry::Record;
use prolly_io::Sink;
use prolly_link::{BatchReceiver, BatchSender, ClosedBatch};
use prolly_stage::Gate;

/// What the workers below the stages of nodes are to do.
#[derive(Drop)]
pub(crate) struct Base<L, M, T> {
    /// What the stage of the leaves does.
    pub leaves: L,
    /// What the worker does that feeds the stage of the leaves.
    pub middle: M,
    /// The output of that worker.
    pub out: BatchSender<T>,
    /// The links of the record files.
    pub feed: Feed,
}

/// What these workers gave back beside the output of the stage of the leaves, and what the writer
/// gave.
#[derive(Drop)]
pub(crate) struct BaseResult<D, N, T> {
    pub leaves: D,
    pub middle: N,
    /// The closed output of the worker in the middle.
    pub sent: ClosedBatch<T>,
    /// The closed outputs of the feed.
    pub closed: Vec<ClosedBatch<Record>>,
    pub wrote: WriterResult,
}

/// What is given back from below the stage of the leaves.
#[derive(Drop)]
struct MiddleResult<N, T> {
    middle: N,
    sent: ClosedBatch<T>,
    closed: Vec<ClosedBatch<Record>>,
    wrote: WriterResult,
}

/// Starts the worker in the middle, then all workers below it, writes, and joins them.
fn run_middle<
    's,
    E,
    R: Runtime,
    G: Gate,
    P: Permit,
    T: Send + Drop + 's,
    N: Send + Drop + 's,
    M: Job<Item = T, Done = N> + Send + Drop + 's,
    S: Input + 's,
    W: Sink,
>(
    site: &Context<'s, '_, E, R, G, P>,
    job: M,
    out: BatchSender<T>,
    feed: Feed,
    sources: &mut Vec<S>,
    last: BatchReceiver<ChunkEvent>,
    sink: &mut W,
) -> Result<MiddleResult<N, T>, Halt>
    requires files { (feed.files ≡ vec_len sources.old) × (vec_len sources.old ≤ 16) }
    requires ready { M.IsReady job }
    requires unsent { out.items ≡ [] }
    requires unread { last.items ≡ [] }
    ensures hands_on { HandsOn site.now.config last
        (W.seen sink.old) (W.seen sink.new) (sink.new ≡ sink.old) result (λ ran. ran.wrote) }
    ensures passes { IfOk result (λ ran. M.Gives job out.link ran.middle ran.sent) }
    ensures fed { IfOk result (λ ran. IsFed S.seen site.now.config.max_records sources.old.items
        sources.new.items feed.outs.items ran.closed.items) }
{
    let Feed {
        files: _,
        forks,
        outs,
        mut closed,
    } = feed;
    let Some(handle) = site.start(job, out) else {
        close_all(site.rt, outs);
        return Err(refuse(site.rt, (forks, closed), last));
    };
    let wrote = merge_tree(site, forks, outs, sources, &mut closed, last, sink);
    let (middle, sent) = handle.join(site.rt);
    let wrote = wrote?;
    Ok(MiddleResult {
        middle,
        sent,
        closed,
        wrote,
    })
}

/// Starts the stage of the leaves, then all workers below it, writes, and joins them.
pub(crate) fn run_base<
    's,
    E,
    R: Runtime,
    G: Gate,
    P: Permit,
    T: Send + Drop + 's,
    D: Send + Drop + 's,
    N: Send + Drop + 's,
    L: Job<Item = ChunkEvent, Done = D> + Send + Drop + 's,
    M: Job<Item = T, Done = N> + Send + Drop + 's,
    S: Input + 's,
    W: Sink,
>(
    site: &Context<'s, '_, E, R, G, P>,
    base: Base<L, M, T>,
    out: BatchSender<ChunkEvent>,
    sources: &mut Vec<S>,
    last: BatchReceiver<ChunkEvent>,
    sink: &mut W,
) -> Result<RunResult<D, N, T>, Halt>
    requires files { (base.feed.files ≡ vec_len sources.old) × (vec_len sources.old ≤ 16) }
    requires leaves { L.IsReady base.leaves }
    requires over { GoesOver (L.Gives base.leaves) }
    requires middle { M.IsReady base.middle }
    requires unsent { (base.out.items ≡ []) × (out.items ≡ []) }
    requires unread { last.items ≡ [] }
    ensures link { IfOk result (λ ran. ran.out.link ≡ out.link) }
    ensures hands_on { HandsOn site.now.config last
        (W.seen sink.old) (W.seen sink.new) (sink.new ≡ sink.old) result (λ ran. ran.base.wrote) }
    ensures base { IfOk result (λ ran. IsBase (L.Gives base.leaves)
        (M.Gives base.middle base.out.link) (IsFed S.seen site.now.config.max_records
        sources.old.items sources.new.items base.feed.outs.items) ran.base.leaves ran.base.middle
        ran.base.sent ran.base.closed.items ran.out) }
{
    let Base {
        leaves,
        middle,
        out: passes,
        feed,
    } = base;
    let Some(handle) = site.start(leaves, out) else {
        return Err(refuse(site.rt, (feed, middle, passes), last));
    };
    let ran = run_middle(site, middle, passes, feed, sources, last, sink);
    let (leaves, out) = handle.join(site.rt);
    let MiddleResult {
        middle,
        sent,
        closed,
        wrote,
    } = ran?;
    let base = BaseResult {
        leaves,
        middle,
        sent,
        closed,
        wrote,
    };
    Ok(RunResult { out, base })
}

/// What the workers up to one stage gave back: its closed output, and what came from below.
#[derive(Drop)]
pub(crate) struct RunResult<D, N, T> {
    pub out: ClosedBatch<ChunkEvent>,
    pub base: BaseResult<D, N, T>,
}
