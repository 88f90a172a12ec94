//! The end of a build: a halt where a worker can't start, the end record, and the answer.
ghost use Rattle.std.specs.Prelude.{◌≡◌, ◌-◌, List, ℕ, IfOk, IfErr, OnOk};
ghost use Rattle.prolly_tree.specs.File.{header};
ghost use Rattle.prolly_tree.specs.Chunk.{Chunk};
ghost use Rattle.prolly_io.specs.Sink.{SinkView};
ghost use Rattle.prolly_link.specs.Progress.{end_given, HasEnded};
ghost use Rattle.prolly_link.specs.declared.message.End.TheVariants.{Clean};
ghost use Rattle.prolly_build.specs.RunResult.{IsHaltFault};
ghost use Rattle.prolly_build.specs.Config.{AreLawful};
ghost use Rattle.prolly_build.specs.WriterState.{HasWritten, IsEndWritten, IsEndFault};
ghost use Rattle.prolly_build.specs.End.{IsFinished};
ghost use Rattle.prolly_build.specs.declared.run.writer.WriterState.TheVariants.{Writing};

use crate::config::Config;
use crate::links::meet_link;
use crate::run::{OpenFile, WriterResult, WriterState};
use prolly_chunk::ChunkEvent;
use prolly_io::Sink;
use prolly_link::{BatchReceiver, BatchSender, ClosedBatch, End, RunFault};
use prolly_report::Report;
use std::sync::Wait;

/// Why the workers were not all met.
#[derive(Clone, Copy)]
pub(crate) enum Halt {
    /// One could not be started.
    NoThread,
    /// A link lost its sender.
    Lost,
}

impl Halt {
    /// What the build answers then.
    pub(crate) fn fault(self) -> RunFault
        ensures { IsHaltFault self result }
    {
        match self {
            Halt::NoThread => RunFault::NoThread,
            Halt::Lost => RunFault::Lost,
        }
    }
}

/// Drops what the workers that are not started would have had, receives the last link to its end,
/// and writes nothing.
pub(crate) fn refuse<T: Drop, U: Drop, R: Wait>(rt: &R, unused: U, last: BatchReceiver<T>) -> Halt
    ensures { result ≡ Halt.NoThread }
{
    drop(unused);
    let _ = last.drain(rt);
    Halt::NoThread
}

/// Closes the outputs of workers that were not started.
pub(crate) fn close_all<T: Drop, R: Wait>(rt: &R, outs: Vec<BatchSender<T>>) {
    for out in outs {
        let _ = out.close(rt, End::Fault(RunFault::NoThread));
    }
}

/// Meets the last link, and then ends the file.
pub(crate) fn finish<R: Wait, W: Sink>(
    rt: &R,
    config: Config,
    out: ClosedBatch<ChunkEvent>,
    wrote: WriterResult,
    sink: &mut W,
) -> Result<Report, RunFault>
    requires lawful { AreLawful config }
    requires link { out.link ≡ wrote.last.link }
    requires ended { HasEnded wrote.last.progress }
    requires end { wrote.end ≡ end_given wrote.last.progress }
    ensures { (old : SinkView) →
        HasWritten (header config.version config.bits) (config.stages - 1) wrote.last.items old
        (W.seen sink.old) wrote.written → IsFinished config out old (W.seen sink.new) result }
{
    let WriterResult { last, end, written } = wrote;
    match meet_link(rt, out, last) {
        Ok(()) => end_build(sink, written, end),
        Err(_) => Err(RunFault::Lost),
    }
}

/// What the build answers once all workers have ended: the fault that came through the last link,
/// or else that a write failed, that the tree is too tall, or what was made, with the end record
/// written.
pub(crate) fn end_build<W: Sink>(
    sink: &mut W,
    written: WriterState,
    end: End,
) -> Result<Report, RunFault>
    ensures ok { (head : List ℕ) (level : ℕ) (events : List Chunk) (old : SinkView) →
        HasWritten head level events old (W.seen sink.old) written →
        IfOk result (IsEndWritten head level events old (W.seen sink.new)) }
    ensures clean { OnOk result (end ≡ Clean) }
    ensures err { (head : List ℕ) (level : ℕ) (events : List Chunk) (old : SinkView) →
        HasWritten head level events old (W.seen sink.old) written →
        IfErr result (λ fault. IsEndFault head level events old
        (W.seen sink.old) (W.seen sink.new) end fault) }
{
    match (end, written) {
        (End::Fault(fault), _) => Err(fault),
        (End::Clean, WriterState::Failed) => Err(RunFault::Write),
        (End::Clean, WriterState::TooTall) => Err(RunFault::TooTall),
        (End::Clean, WriterState::Writing(begun)) => end_file(sink, begun),
    }
}

/// Writes the end record, which tells the last chunk for the root, and how many there are. Where
/// none came, or more than can be told, a worker was lost: the stages send a tree.
fn end_file<W: Sink>(sink: &mut W, begun: OpenFile) -> Result<Report, RunFault>
    ensures ok { (head : List ℕ) (level : ℕ) (events : List Chunk) (old : SinkView) →
        HasWritten head level events old (W.seen sink.old) (Writing begun) →
        IfOk result (IsEndWritten head level events old (W.seen sink.new)) }
    ensures err { (head : List ℕ) (level : ℕ) (events : List Chunk) (old : SinkView) →
        HasWritten head level events old (W.seen sink.old) (Writing begun) →
        IfErr result (λ fault. IsEndFault head level events old
        (W.seen sink.old) (W.seen sink.new) Clean fault) }
{
    let OpenFile {
        file,
        has_last_level: _,
        last,
    } = begun;
    let Some(last) = last else {
        return Err(RunFault::Lost);
    };
    if file.chunks() == u64::MAX {
        return Err(RunFault::Lost);
    }
    match file.end(sink, &last.reference) {
        Ok(chunks) => Ok(Report {
            root: last.reference,
            chunks,
            pairs: last.count,
            levels: last.level.saturating_add(1),
        }),
        Err(_) => Err(RunFault::Write),
    }
}
