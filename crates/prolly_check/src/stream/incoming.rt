//! The bytes of a source as they come.
ghost use Rattle.std.specs.Prelude.{◌≡◌, ◌⊎◌, ◌≤◌, ◌++◌, [], true, false, drop, vec_len, IfErr};
ghost use Rattle.std.specs.Prelude.{IfOk, OnOk};
ghost use Rattle.prolly_check.specs.Incoming.{IsFilled, Reads};

use crate::verdict::CheckFault;
use prolly_io::{CHUNK_LIMIT, FRAME_LETTER, FRAME_START, PartReader, Source, frame_at};

/// How many bytes of a file are looked at together: as many as this, and more only where a frame is
/// larger. Threads share the chunks of a window out, so it has to hold many of them.
pub(crate) const WINDOW_BYTES: usize = 16_777_216;

/// The size of the frame of the longest chunk for which memory is taken.
const LONGEST_FRAME: usize = FRAME_START + CHUNK_LIMIT;

/// Reads on until a whole frame begins the bytes and the window is full, or the source is at its
/// end, or no frame begins the bytes. Answers whether the source is at its end.
///
/// Takes memory as bytes come, up to twice the size of the frame: what a frame says of its length
/// is not believed. Once more than [`LONGEST_FRAME`] bytes came and the frame is not whole, memory
/// is refused. Until then the bytes are doubled, so a chunk of nearly 2 GiB is still taken.
pub(crate) fn fill<S: Source>(
    source: &mut S,
    reader: &mut PartReader,
    bytes: &mut Vec<u8>,
) -> Result<bool, CheckFault>
    ensures bytes { (S.seen source.old).is_honest ≡ true → OnOk result
        (bytes.old.items ++ (S.seen source.old).left ≡ bytes.new.items ++ (S.seen source.new).left) }
    ensures over { (S.seen source.old).is_honest ≡ true →
        IfOk result (λ is_over. is_over ≡ true → (S.seen source.new).left ≡ []) }
    ensures filled { IfOk result (λ is_over. is_over ≡ false → IsFilled bytes.new.items) }
    ensures only { IfErr result (λ fault. (fault ≡ CheckFault.Memory) ⊎ (fault ≡ CheckFault.Read)) }
    ensures source { Reads (S.seen source.old) (S.seen source.new) CheckFault.Read result }
{
    let mut wanted = WINDOW_BYTES;
    loop {
        if reader.read_up_to(source, bytes, wanted)? {
            return Ok(true);
        }
        if bytes[0] != FRAME_LETTER {
            return Ok(false);
        }
        if let Some(_) = frame_at(bytes) {
            return Ok(false);
        }
        if bytes.len() > LONGEST_FRAME {
            return Err(CheckFault::Memory);
        }
        wanted = bytes.len() * 2;
    }
}

/// Lets the first bytes go, so many.
pub(crate) fn let_go(bytes: &mut Vec<u8>, count: usize)
    requires { count ≤ vec_len bytes.old }
    ensures { bytes.new.items ≡ drop count bytes.old.items }
{
    let len = bytes.len();
    bytes.copy_within(count..len, 0);
    bytes.truncate(len - count);
}
