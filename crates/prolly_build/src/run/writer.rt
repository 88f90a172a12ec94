//! The writer at the end of the pipeline, on the caller's thread: it writes the chunks that the
//! last stage sends.
ghost use Rattle.std.specs.Prelude.{◌≡◌, ℕ, List, [], ◌≤◌, ◌∷◌, ◌++◌};
ghost use Rattle.prolly_tree.specs.Chunk.{Chunk};
ghost use Rattle.prolly_tree.specs.File.{header};
ghost use Rattle.prolly_io.specs.Sink.{SinkView};
ghost use Rattle.prolly_link.specs.Progress.{HasEnded, end_given};
ghost use Rattle.prolly_build.specs.RunResult.{IsWriterDone};
ghost use Rattle.prolly_build.specs.WriterState.{HasWritten};

use crate::config::Config;
use prolly_chunk::ChunkEvent;
use prolly_entry::{Ref, Version};
use prolly_io::{FileWriter, Sink};
use prolly_link::{BatchReceiver, End, In, Next, RunFault};
use std::sync::Wait;

/// What the writer gives back: the last link's receiver, which has ended, with its end, and how far
/// the file came.
#[derive(Drop)]
pub(crate) struct WriterResult {
    pub last: BatchReceiver<ChunkEvent>,
    pub end: End,
    pub written: WriterState,
}

/// Writes the header, and then the chunks of the events that the last link carries.
pub(crate) fn write_chunks<R: Wait, W: Sink>(
    rt: &R,
    config: Config,
    mut last: BatchReceiver<ChunkEvent>,
    sink: &mut W,
) -> WriterResult
    requires { last.items ≡ [] }
    ensures { IsWriterDone config last
        (W.seen sink.old) (W.seen sink.new) result }
{
    let begun = WriterState::begin(sink, config.version(), config.bits());
    let (written, end) = write_events(rt, &mut last, sink, config.last_level(), begun);
    WriterResult { last, end, written }
}

/// Receives to the end, and writes.
fn write_events<I: In<ChunkEvent>, W: Sink, R: Wait>(
    rt: &R,
    input: &mut I,
    sink: &mut W,
    last_level: u8,
    begun: WriterState,
) -> (WriterState, End)
    ensures link { I.link input.new ≡ I.link input.old }
    ensures follows { I.Follows input.old input.new }
    ensures ended { HasEnded (I.progress input.new) }
    ensures end { result.1 ≡ end_given (I.progress input.new) }
    ensures written { (head : List ℕ) (old : SinkView) →
        HasWritten head last_level [] old (W.seen sink.old) begun →
        HasWritten head last_level (I.received input.old input.new) old (W.seen sink.new) result.0 }
{
    let mut written = begun;
    for _ in rt.forever() {
        match input.recv(rt) {
            Next::Item(event) => {
                written = written.push(sink, last_level, &event);
                // So its drop is one step of the proof.
                drop(event);
            }
            Next::End(end) => return (written, end),
            Next::Lost => return (written, End::Fault(RunFault::Lost)),
        }
    }
    unreachable!()
}

/// The reference and the level of a chunk, and how many pairs are below it.
#[derive(Clone, Copy)]
pub(crate) struct LastChunk {
    pub reference: Ref,
    pub level: u8,
    pub count: u64,
}

/// A file of which all chunks so far are written.
#[derive(Drop)]
pub(crate) struct OpenFile {
    pub file: FileWriter,
    /// Whether one of the chunks is of the last stage's level.
    pub has_last_level: bool,
    /// The last chunk.
    pub last: Option<LastChunk>,
}

/// How far the writer came.
#[derive(Drop)]
pub(crate) enum WriterState {
    /// All chunks are written.
    Writing(OpenFile),
    /// A second chunk of the last stage's level came. It is not written, nor what is behind it.
    TooTall,
    /// A write failed, after which nothing is written.
    Failed,
}

impl WriterState {
    /// Writes the header.
    pub(crate) fn begin<W: Sink>(sink: &mut W, version: Version, bits: u8) -> WriterState
        ensures { (level : ℕ) → HasWritten (header version bits) level []
            (W.seen sink.old) (W.seen sink.new) result }
    {
        match FileWriter::begin_as(sink, version, bits) {
            Ok(file) => WriterState::Writing(OpenFile {
                file,
                has_last_level: false,
                last: None,
            }),
            Err(_) => WriterState::Failed,
        }
    }

    /// Writes the chunk of an event, unless a second one of the last stage's level came, or a write
    /// failed.
    pub(crate) fn push<W: Sink>(
        self,
        sink: &mut W,
        last_level: u8,
        event: &ChunkEvent,
    ) -> WriterState
        ensures { (head : List ℕ) (events : List Chunk) (old : SinkView) →
            HasWritten head last_level events old (W.seen sink.old) self →
            HasWritten head last_level (events ++ event.now ∷ []) old (W.seen sink.new) result }
    {
        match self {
            WriterState::Writing(begun) => begun.push(sink, last_level, event),
            WriterState::TooTall => WriterState::TooTall,
            WriterState::Failed => WriterState::Failed,
        }
    }
}

impl OpenFile {
    fn push<W: Sink>(self, sink: &mut W, last_level: u8, event: &ChunkEvent) -> WriterState
        ensures { (head : List ℕ) (events : List Chunk) (old : SinkView) →
            HasWritten head last_level events old (W.seen sink.old) (WriterState.Writing self) →
            HasWritten head last_level (events ++ event.now ∷ []) old (W.seen sink.new) result }
    {
        let is_top = event.level() == last_level;
        if is_top && self.has_last_level {
            return WriterState::TooTall;
        }
        let OpenFile {
            mut file,
            has_last_level,
            last: _,
        } = self;
        match file.chunk(sink, event.bytes()) {
            Ok(()) => WriterState::Writing(OpenFile {
                file,
                has_last_level: has_last_level || is_top,
                last: Some(LastChunk {
                    reference: event.reference(),
                    level: event.level(),
                    count: event.count(),
                }),
            }),
            Err(_) => WriterState::Failed,
        }
    }
}
