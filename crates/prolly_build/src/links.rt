//! The links of a build: what stands between two workers, from one link to all of them.
ghost use Rattle.std.specs.Prelude.{◌≡◌, [], IfOk, Ok, OnOk, IfErr, vec_len, ◌+◌, ◌<◌, ◌≤◌, All};
ghost use Rattle.std.specs.Prelude.{map, vec_capacity};
ghost use Rattle.prolly_link.specs.Identity.{room_of};
ghost use Rattle.prolly_link.specs.Progress.{HasEnded};
ghost use Rattle.prolly_link.specs.declared.message.Progress.TheVariants.{Open, Ended};
ghost use Rattle.prolly_build.specs.declared.end.Halt.TheVariants.{Lost};
ghost use Rattle.prolly_build.specs.RunResult.{IsUnsent, IsUnreceived};
ghost use Rattle.prolly_build.specs.Config.{AreLawful};

use crate::config::Config;
use crate::end::Halt;
use prolly_chunk::ChunkEvent;
use prolly_entry::Record;
use prolly_link::{
    BatchDrained, BatchReceiver, BatchSender, ClosedBatch, LinkFault, batch_link, meet_batches,
};
use std::alloc::{AllocError, Global};
use std::sync::Wait;

/// Both ends of a link over which nothing went yet.
#[derive(Drop)]
pub(crate) struct NewLink<T> {
    pub sender: BatchSender<T>,
    pub receiver: BatchReceiver<T>,
    ghost paired: { sender.link ≡ receiver.link },
    ghost unsent: { sender.items ≡ [] },
    ghost unreceived: { (receiver.items ≡ []) × (receiver.progress ≡ Open) },
}

/// A new link, with room for as many messages, and messages of as many items, as the build is set
/// to.
pub(crate) fn new_link<T: Send + Drop>(
    alloc: Global,
    config: &Config,
) -> Result<NewLink<T>, AllocError>
    ensures capacity { IfOk result (λ made. room_of made.sender.link ≡ config.now.capacity) }
    ensures batch { IfOk result (λ made. made.sender.batch ≡ config.now.batch) }
{
    match batch_link(alloc, config.capacity(), config.batch()) {
        Ok((sender, receiver)) => Ok(NewLink { sender, receiver }),
        Err(LinkFault::Memory) => Err(AllocError),
    }
}

// Two values, where there was memory for both. What is dropped else is one step of the proof here;
// among links each of their fields is a few.
pub(crate) fn both<A: Drop, B: Drop>(
    a: Result<A, AllocError>,
    b: Result<B, AllocError>,
) -> Result<(A, B), AllocError>
    ensures { IfOk result (λ p. (a ≡ Ok p.0) × (b ≡ Ok p.1)) }
{
    Ok((a?, b?))
}

/// Meets the ends of a link: what was received is what was sent. The receiver may have lost its
/// sender.
pub(crate) fn meet_link<T: Drop, R: Wait>(
    rt: &R,
    sender: ClosedBatch<T>,
    receiver: BatchReceiver<T>,
) -> Result<(), Halt>
    requires { sender.link ≡ receiver.link }
    ensures met { OnOk result (HasEnded receiver.progress → (receiver.items ≡ sender.items) ×
        (receiver.progress ≡ Ended sender.end)) }
    ensures lost { IfErr result (λ halt. halt ≡ Lost) }
{
    match receiver.drain(rt) {
        BatchDrained::Ended(ended) => {
            let _met = meet_batches(sender, ended);
            Ok(())
        }
        BatchDrained::Lost(_) => Err(Halt::Lost),
    }
}

/// The links into a merger of two.
#[derive(Drop)]
pub(crate) struct LinkPair {
    pub left: NewLink<Record>,
    pub right: NewLink<Record>,
}

/// The links into `count` mergers of two.
pub(crate) fn new_pairs(
    alloc: Global,
    config: &Config,
    count: usize,
) -> Result<Vec<LinkPair>, AllocError>
    ensures { IfOk result (λ forks. vec_len forks ≡ count) }
{
    let mut forks = Vec::with_capacity(alloc, count)?;
    for _ in 0..count {
        let (left, right) = both(new_link(alloc, config), new_link(alloc, config))?;
        forks.push(LinkPair { left, right })?;
    }
    Ok(forks)
}

/// The links by which record files are fed to a worker, and the room for their closed ends.
#[derive(Drop)]
pub(crate) struct Feed {
    /// How many files there are.
    pub files: usize,
    /// The links into the mergers of two.
    pub forks: Vec<LinkPair>,
    /// The outputs into the worker.
    pub outs: Vec<BatchSender<Record>>,
    /// Where the closed ends of `outs` come back.
    pub closed: Vec<ClosedBatch<Record>>,
    ghost each: { vec_len outs + vec_len forks ≡ files },
    ghost some: { 0 < vec_len forks → 1 ≤ vec_len outs },
    ghost room: { (closed.items ≡ []) × (files ≤ vec_capacity closed) ×
        (files ≤ vec_capacity outs) },
    ghost unsent: { All IsUnsent outs.items },
}

/// Both ends of the links into the worker that is fed, apart.
#[derive(Drop)]
struct LinkEnds {
    outs: Vec<BatchSender<Record>>,
    inputs: Vec<BatchReceiver<Record>>,
    ghost unsent: { All IsUnsent outs.items },
    ghost unread: { All IsUnreceived inputs.items },
    ghost paired: { map (λ o. o.link) outs.items ≡ map (λ r. r.link) inputs.items },
}

/// The ends of so many links, with room for as many senders as there are files.
fn new_ends(
    alloc: Global,
    config: &Config,
    count: usize,
    files: usize,
) -> Result<LinkEnds, AllocError>
    ensures len { IfOk result (λ heads. vec_len heads.outs ≡ count) }
    ensures room { IfOk result (λ heads. files ≤ vec_capacity heads.outs) }
{
    let mut outs = Vec::with_capacity(alloc, files)?;
    let mut inputs = Vec::with_capacity(alloc, count)?;
    for _ in 0..count {
        let NewLink { sender, receiver } = new_link(alloc, config)?;
        outs.push(sender)?;
        inputs.push(receiver)?;
    }
    Ok(LinkEnds { outs, inputs })
}

/// The links from so many files to a worker of at most so many inputs, and these inputs. One merger
/// of two stands below it for each file that is more.
pub(crate) fn new_feed(
    alloc: Global,
    config: &Config,
    files: usize,
    most: usize,
) -> Result<(Feed, Vec<BatchReceiver<Record>>), AllocError>
    requires { 1 ≤ most }
    ensures files { IfOk result (λ fed. fed.0.files ≡ files) }
    ensures few { IfOk result (λ fed. vec_len fed.0.outs ≤ most) }
    ensures some { IfOk result (λ fed. vec_len fed.0.outs ≡ 0 → files ≡ 0) }
    ensures unread { IfOk result (λ fed. All IsUnreceived fed.1.items) }
    ensures paired { IfOk result (λ fed. map (λ o. o.link) fed.0.outs.items ≡
        map (λ r. r.link) fed.1.items) }
{
    let forks = new_pairs(alloc, config, files.saturating_sub(most))?;
    let LinkEnds { outs, inputs } = new_ends(alloc, config, files.min(most), files)?;
    let closed = Vec::<ClosedBatch<Record>>::with_capacity(alloc, files)?;
    let feed = Feed {
        files,
        forks,
        outs,
        closed,
    };
    Ok((feed, inputs))
}

/// The links between stages, and from the last one to the writer.
#[derive(Drop)]
pub(crate) struct StageLinks {
    /// From the last stage to the writer.
    pub last: NewLink<ChunkEvent>,
    /// Between the stages, the one into the highest stage last.
    pub events: Vec<NewLink<ChunkEvent>>,
}

impl StageLinks {
    /// New links. Each has the memory of its ring and of one message.
    pub(crate) fn new(alloc: Global, config: &Config) -> Result<StageLinks, AllocError>
        ensures lawful { IfOk result (λ _. AreLawful config.now) }
        ensures levels { IfOk result (λ links. vec_len links.events + 1 ≡ config.now.stages) }
    {
        let last = new_link(alloc, config);
        let events = new_links(alloc, config, usize::from(config.last_level()));
        let (last, events) = both(last, events)?;
        Ok(StageLinks { last, events })
    }
}

fn new_links(
    alloc: Global,
    config: &Config,
    count: usize,
) -> Result<Vec<NewLink<ChunkEvent>>, AllocError>
    ensures { IfOk result (λ links. vec_len links ≡ count) }
{
    let mut links = Vec::with_capacity(alloc, count)?;
    for _ in 0..count {
        links.push(new_link(alloc, config)?)?;
    }
    Ok(links)
}
