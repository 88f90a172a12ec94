//! The devices that bytes come from and go to, the format of chunk files, and their writer.
#![tactic(auto)]

mod device;
mod format;

pub use device::{
    Blocks, Buffered, Device, FromFile, FromRead, InMemory, PartReader, PlacedRead, ReadBuffer,
    ReadFault, Rejoined, ScriptDevice, ScriptSink, ScriptSource, Sink, SinkFault, Source,
    SourceFault, ToWrite, WholeFault, read_whole, take_front,
};
pub use format::{
    CHUNK_LIMIT, END_LETTER, END_SIZE, FRAME_FRONT, FRAME_LETTER, FRAME_START, FileWriter,
    FrameFault, FrameStart, HEADER_SIZE, Header, HeaderFault, WriteFault, end_record, frame_at,
    frame_start, front_frame, read_end, read_header, read_start, write_all, write_frame,
    write_whole,
};
