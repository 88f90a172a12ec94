//! Copies into a buffer that has room for a part.
ghost use Rattle.std.specs.Prelude.{◌≡◌, ◌≤◌, ◌++◌, length, take, drop, min};

/// Copies `step` bytes, or as many as there are or have room, and answers how many.
pub(crate) fn copy_some(from: &[u8], step: usize, to: &mut [u8]) -> usize
    ensures count { result ≡ min step (min (length to.old) (length from.now)) }
    ensures copied { to.new ≡ take result from.now ++ drop result to.old }
{
    let count = step.min(to.len().min(from.len()));
    to[..count].copy_from_slice(&from[..count]);
    count
}

/// Copies the bytes from this offset on, and answers how many: as many as there are or have room.
pub(crate) fn copy_from(bytes: &[u8], offset: u64, buf: &mut [u8]) -> usize
    ensures bound { result ≤ length buf.new }
    ensures size { length buf.new ≡ length buf.old }
    ensures bytes { take result buf.new ≡ take (length buf.new) (drop offset bytes.now) }
{
    let start = usize::try_from(offset)
        .unwrap_or(usize::MAX)
        .min(bytes.len());
    let room = buf.len();
    copy_some(&bytes[start..], room, buf)
}
