//! The frames of a chunk file, and what follows them.
ghost use Rattle.std.specs.Prelude.{◌≡◌, ◌≤◌, true, Ok, Err, length, drop, IfOk, IfErr};
ghost use Rattle.prolly_io.specs.Frame.{has_no_frame};
ghost use Rattle.prolly_check.specs.Frames.{FramesTo, IsWithin, chunk_in, ending_of, chunks_in};

use crate::verdict::fault::CheckFault;
use prolly_io::{END_LETTER, END_SIZE, FRAME_LETTER, FRAME_START, frame_at};
use std::alloc::{AllocError, Global};
use std::ops::Range;

/// Where the chunks of a file lie, and where their frames end.
#[derive(Drop)]
pub(crate) struct Frames {
    pub(crate) spans: Vec<Range<usize>>,
    pub(crate) end: usize,
}

/// The frames from an offset on, up to the first bytes that no whole frame begins.
pub(crate) fn find_frames(alloc: Global, bytes: &[u8], from: usize) -> Result<Frames, AllocError>
    requires { from ≤ length bytes.now }
    ensures frames { IfOk result (λ r. FramesTo bytes.now from r.spans.items r.end) }
    ensures all { IfOk result (λ r. has_no_frame (drop r.end bytes.now) ≡ true) }
{
    let mut spans = Vec::new(alloc);
    let mut end = from;
    loop {
        let (_, rest) = bytes.split_at(end);
        let len = match frame_at(rest) {
            Some(len) => len,
            None => return Ok(Frames { spans, end }),
        };
        let start = end + FRAME_START;
        end = start + len;
        spans.push(start..end)?;
    }
}

/// Tests that the bytes, which no whole frame begins, are an end record. So many frames stand
/// before.
pub(crate) fn test_ending(bytes: &[u8], frames: usize) -> Result<(), CheckFault>
    ensures found { IfOk result (λ r. ending_of frames bytes.now ≡ Ok (drop 1 bytes.now)) }
    ensures err { IfErr result (λ fault. ending_of frames bytes.now ≡ Err fault) }
{
    match bytes {
        [] | [FRAME_LETTER, ..] => Err(CheckFault::Truncated),
        [END_LETTER, ..] if bytes.len() < END_SIZE => Err(CheckFault::Truncated),
        [END_LETTER, ..] if bytes.len() > END_SIZE => Err(CheckFault::Trailing),
        [END_LETTER, ..] => Ok(()),
        _ => Err(CheckFault::BadFrame { chunk: frames }),
    }
}

/// The chunk that lies there.
pub(crate) fn chunk_at<'a>(bytes: &'a [u8], span: &Range<usize>) -> &'a [u8]
    requires { IsWithin bytes.now span.now }
    ensures { result.now ≡ chunk_in bytes.now span.now }
{
    &bytes[span.start..span.end]
}
