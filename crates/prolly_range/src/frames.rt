//! The frames of a proof, as they come from a source.
ghost use Rattle.std.specs.Prelude.{◌≡◌, ◌≢◌, ◌↔◌, ◌≤◌, ◌+◌, ◌++◌, true, length, drop, take, IfErr};
ghost use Rattle.std.specs.Prelude.{IfOk, IsErrOf};
ghost use Rattle.std.specs.Int.{w64, from_be_bytes};
ghost use Rattle.prolly_range.specs.Frames.{IsFrameOf, IsNoFrame};

use crate::fault::SetFault;
use prolly_io::{CHUNK_LIMIT, FRAME_LETTER, FRAME_START, PartReader, Source, frame_at};
use prolly_root::ProofFault;
use std::alloc::Global;

/// The next frame that a source has, where the chunk of this number is due.
///
/// Reads no byte behind it. Takes memory as bytes come: what the frame says of its length is not
/// believed. Once [`CHUNK_LIMIT`] bytes of a longer chunk came, memory is refused.
pub(crate) fn next_frame<S: Source>(
    alloc: Global,
    source: &mut S,
    reader: &mut PartReader,
    number: usize,
) -> Result<Vec<u8>, SetFault>
    ensures frame { IfOk result (λ frame. IsFrameOf (drop FRAME_START frame.items) frame.items) }
    ensures bytes { (S.seen source.old).is_honest ≡ true → IfOk result (λ frame.
        (S.seen source.old).left ≡ frame.items ++ (S.seen source.new).left) }
    ensures fault { (S.seen source.old).is_honest ≡ true →
        IfErr result (IsNoFrame number (S.seen source.old).left) }
    ensures read { IsErrOf result SetFault.Read ↔ ((S.seen source.new).failures ≢ (S.seen
        source.old).failures) }
    ensures honest { (S.seen source.old).is_honest ≡ true → (S.seen source.new).is_honest ≡ true }
    ensures steady { (S.seen source.old).is_steady ≡ true → (S.seen source.new).is_steady ≡ true }
{
    let mut bytes = Vec::new(alloc);
    let is_over = reader.read_up_to(source, &mut bytes, FRAME_START)?;
    if let Some(letter) = bytes.first() {
        if *letter != FRAME_LETTER {
            return Err(SetFault::Proof(ProofFault::Frame { chunk: number }));
        }
    }
    if is_over {
        return Err(SetFault::Proof(ProofFault::Truncated));
    }
    let size = frame_size(&bytes);
    if reader.read_up_to(source, &mut bytes, size)? {
        return Err(SetFault::Proof(ProofFault::Truncated));
    }
    match frame_at(&bytes) {
        Some(_) => Ok(bytes),
        // So much of the frame came, and it is longer.
        None => Err(SetFault::Memory),
    }
}

/// The size of the frame that these bytes begin, as they say it, or that of the longest one for which
/// memory is taken, where that is less.
fn frame_size(start: &[u8]) -> usize
    requires { FRAME_START ≤ length start.now }
    ensures least { FRAME_START ≤ result }
    ensures most { result ≤ FRAME_START + from_be_bytes w64 (take 8 (drop 1 start.now)) }
{
    let mut len = [0; 8];
    len.copy_from_slice(&start[1..FRAME_START]);
    FRAME_START + (u64::from_be_bytes(len) as usize).min(CHUNK_LIMIT)
}
