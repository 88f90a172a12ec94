//! The bytes of a chunk file that stand around its chunks, as they are written and read. Numbers
//! are big-endian.
mod frame;
mod header;
mod writer;

pub use frame::{
    CHUNK_LIMIT, END_LETTER, END_SIZE, FRAME_FRONT, FRAME_LETTER, FRAME_START, FrameFault,
    FrameStart, end_record, frame_at, frame_start, front_frame, read_end, read_start,
};
pub use header::{HEADER_SIZE, Header, HeaderFault, read_header};
pub use writer::{FileWriter, WriteFault, write_all, write_frame, write_whole};
