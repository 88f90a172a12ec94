//! The pipelined build, and what it answers.
ghost use Rattle.std.specs.Prelude.{◌≡◌, ◌≢◌, ◌+◌, ◌-◌, ◌<◌, ◌≤◌, ◌↔◌, [], All, Err, map, vec_len, IfErr};
ghost use Rattle.prolly_link.specs.declared.fault.RunFault.TheVariants.{TooManyFiles};
ghost use Rattle.prolly_build.specs.Config.{AreLawful};
ghost use Rattle.prolly_io.specs.Sink.{SinkView};
ghost use Rattle.prolly_link.specs.Progress.{end_given, HasEnded};
ghost use Rattle.prolly_tree.specs.File.{header};
ghost use Rattle.prolly_build.specs.Base.{AreFilesEnded, AreFilesPaired};
ghost use Rattle.prolly_build.specs.Outcome.{IsOutcome};
ghost use Rattle.prolly_build.specs.RunResult.{IsUnreceived};
ghost use Rattle.prolly_build.specs.WriterState.{HasWritten};

use crate::config::Config;
use crate::end::finish;
use crate::links::{StageLinks, both};
use crate::run::{Base, BaseResult, RunResult, meet_files, new_files, run_scoped};
use crate::start::{AllStart, CutLeaves, Lent, MergeLast, Permit};
use prolly_entry::{Pair, Record};
use prolly_io::{Sink, Source};
use prolly_link::{BatchReceiver, RunFault};
use prolly_report::Report;
use prolly_stage::Gate;
use std::alloc::Global;
use std::mem;
use std::sync::Wait;
use std::thread::Threads;

/// The greatest number of record files that a build takes.
pub const FILES_LIMIT: usize = 16;

/// Runs all workers over these links, and the writer on this thread, until all of them have ended;
/// then ends the file.
fn run_workers<R: Wait + Threads + Sync, S: Source + Send + Drop, W: Sink, G: Gate, P: Permit>(
    lent: &Lent<'_, '_, R, G, P>,
    links: StageLinks,
    base: Base<CutLeaves, MergeLast, Pair>,
    sources: &mut Vec<S>,
    sink: &mut W,
) -> Result<Report, RunFault>
    requires lawful { AreLawful lent.now.config }
    requires levels { vec_len links.events + 1 ≡ lent.now.config.stages }
    requires files { (base.feed.files ≡ vec_len sources.old) × (vec_len sources.old ≤ 16) }
    requires cut { base.leaves.cut ≡ lent.now.config.bits }
    requires leaves { base.leaves.pairs.items ≡ [] }
    requires middle { All IsUnreceived base.middle.inputs.items }
    requires unsent { base.out.items ≡ [] }
    requires paired { AreFilesPaired base.out base.leaves.pairs base.feed.outs.items
        base.middle.inputs.items }
    ensures outcome { IsOutcome S.seen lent.now.config sources.old.items sources.new.items
        (W.seen sink.old) (W.seen sink.new) (sink.new ≡ sink.old) result }
    ensures started { IfErr result (λ fault. fault ≢ TooManyFiles) }
{
    let taken = mem::replace(sources, Vec::new(lent.alloc));
    let (ran, back) = run_scoped(lent, links, base, taken, sink);
    *sources = back;
    match ran {
        Ok(ran) => end_files(lent.rt, lent.config, ran, sink),
        Err(halt) => Err(halt.fault()),
    }
}

/// Meets the links from the files to the stage of the leaves, and ends the file.
fn end_files<R: Wait, W: Sink>(
    rt: &R,
    config: Config,
    ran: RunResult<BatchReceiver<Pair>, Vec<BatchReceiver<Record>>, Pair>,
    sink: &mut W,
) -> Result<Report, RunFault>
    requires lawful { AreLawful config }
    requires link { ran.out.link ≡ ran.base.wrote.last.link }
    requires ended { HasEnded ran.base.wrote.last.progress }
    requires end { ran.base.wrote.end ≡ end_given ran.base.wrote.last.progress }
    requires feed { map (λ c. c.link) ran.base.closed.items ≡
        map (λ r. r.link) ran.base.middle.items }
    requires pairs { ran.base.sent.link ≡ ran.base.leaves.link }
    ensures { (old : SinkView) →
        HasWritten (header config.version config.bits) (config.stages - 1)
        ran.base.wrote.last.items old (W.seen sink.old) ran.base.wrote.written →
        AreFilesEnded config ran.base.leaves ran.base.middle.items ran.base.sent
        ran.base.closed.items ran.out old (W.seen sink.new) result }
{
    let RunResult { out, base } = ran;
    let BaseResult {
        leaves,
        middle,
        sent,
        closed,
        wrote,
    } = base;
    match meet_files(rt, leaves, sent, middle, closed) {
        Ok(()) => finish(rt, config, out, wrote, sink),
        Err(halt) => Err(halt.fault()),
    }
}

/// Builds the chunk file of the overlay of record files: each file is read and checked in a thread
/// of its own, the files are merged by a tree of threads, and each level of the tree of chunks is
/// cut in a thread of its own, while this thread writes the chunks as they come. A later file wins
/// a key, and a removal takes the key of earlier files away. Source number i is file i.
///
/// The answer is the first of these that holds:
///
/// - `TooManyFiles`, for more than 16 sources, and `Memory`, where the links can't be made: nothing
///   was started, and nothing is written.
/// - `NoThread`, where a worker may not start or no thread can be had for it. Those that run have
///   ended, and nothing is written.
/// - A fault of a record file: of all files that have one, that of the file whose last good key is
///   least, of equal ones the first. `Memory`, where a worker was refused memory. `Lost`, where a
///   worker was lost.
/// - `Write`, where the sink failed.
/// - `TooTall`, where the tree has more levels than there are stages.
///
/// After a fault the sink holds the beginning of a file, and nothing of its end record; after
/// `Write` that may have been begun. After every answer but `NoThread` and `Lost` the sources are
/// there in their order, each as its loader left it; after those two some may be gone.
///
/// Before a worker sends an item `gate` is asked, and before a worker is started `permit`.
///
/// Takes the hash of each entry and of each chunk: that of a chunk in the thread of the level
/// above, or in the caller's where there is none, that of a child's entry in the thread of its
/// level, and that of a pair where there is time for it, in its loader, in the last merger or in
/// the thread of the leaves. Takes the memory of the links, as many items as capacity and batch
/// allow for each, of long ones up to 96 KiB for each message of its capacity; of one buffer a
/// file; and of one open chunk a level: whatever number of records the files have.
pub fn build_with<R: Wait + Threads + Sync, S: Source + Send + Drop, W: Sink, G: Gate, P: Permit>(
    rt: &R,
    alloc: Global,
    config: &Config,
    sources: &mut Vec<S>,
    sink: &mut W,
    gate: &G,
    permit: &P,
) -> Result<Report, RunFault>
    ensures too_many { (result ≡ Err TooManyFiles) ↔ (16 < vec_len sources.old) }
    ensures outcome { IsOutcome S.seen config.now sources.old.items sources.new.items
        (W.seen sink.old) (W.seen sink.new)
        (sink.new ≡ sink.old) result }
{
    if sources.len() > FILES_LIMIT {
        return Err(RunFault::TooManyFiles);
    }
    let base = new_files(alloc, config, sources.len());
    let Ok((links, base)) = both(StageLinks::new(alloc, config), base) else {
        return Err(RunFault::Memory);
    };
    let lent = Lent {
        rt,
        alloc,
        gate,
        permit,
        config: *config,
    };
    run_workers(&lent, links, base, sources, sink)
}

/// Builds as [`build_with`] does, where all workers may start.
pub fn build<R: Wait + Threads + Sync, S: Source + Send + Drop, W: Sink, G: Gate>(
    rt: &R,
    alloc: Global,
    config: &Config,
    sources: &mut Vec<S>,
    sink: &mut W,
    gate: &G,
) -> Result<Report, RunFault>
    ensures too_many { (result ≡ Err TooManyFiles) ↔ (16 < vec_len sources.old) }
    ensures outcome { IsOutcome S.seen config.now sources.old.items sources.new.items
        (W.seen sink.old) (W.seen sink.new)
        (sink.new ≡ sink.old) result }
{
    build_with(rt, alloc, config, sources, sink, gate, &AllStart)
}
