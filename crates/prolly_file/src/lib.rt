//! The plain builder: a chunk file is made in one thread, with all levels in memory.
//!
//! The devices, the format of chunk files and their writer stand below it, in `prolly_io`. Here are
//! all of their names, too.
#![tactic(auto)]

mod levels;
mod scratch_build;

pub use prolly_io::{
    Blocks, Buffered, CHUNK_LIMIT, Device, END_LETTER, END_SIZE, FRAME_FRONT, FRAME_LETTER,
    FRAME_START, FileWriter, FrameFault, FrameStart, FromFile, FromRead, HEADER_SIZE, Header,
    HeaderFault, InMemory, PartReader, PlacedRead, ReadBuffer, ReadFault, Rejoined, ScriptDevice,
    ScriptSink, ScriptSource, Sink, SinkFault, Source, SourceFault, ToWrite, WholeFault,
    WriteFault, end_record, frame_at, frame_start, front_frame, read_end, read_header, read_start,
    read_whole, take_front, write_all, write_frame, write_whole,
};
pub use scratch_build::{ScratchFault, scratch, scratch_as};
