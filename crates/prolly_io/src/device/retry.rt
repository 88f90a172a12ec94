//! Calls of the system that are made again where they are interrupted.
ghost use Rattle.std.specs.Prelude.{IfSome};
ghost use Rattle.std.specs.Io.{ReadsAtMost, WritesAtMost};
ghost use Rattle.std.specs.Io.KnownBytes.{ReadConsumes, WriteAppends};
ghost use Rattle.prolly_io.specs.Device.{GivesSome};

use crate::device::placed_read::PlacedRead;
use std::io;
use std::io::{ErrorKind, Read, Write};

/// How often a call is made. No one interrupts as many in a row.
const MOST_TRIES: u32 = 1_000_000;

/// Reads into the buffer, as often as the read is interrupted.
pub(crate) fn read_again<R: Read>(reader: &mut R, buf: &mut [u8]) -> io::Result<usize>
    ensures bound { ReadsAtMost result buf.new }
    ensures bytes { ReadConsumes (R.remaining reader.old) (R.remaining reader.new) result buf.new }
{
    for _ in 1..MOST_TRIES {
        match reader.read(buf) {
            Err(error) if error.kind() == ErrorKind::Interrupted => {}
            result => return result,
        }
    }
    reader.read(buf)
}

/// Writes from the buffer, as often as the write is interrupted.
pub(crate) fn write_again<W: Write>(writer: &mut W, buf: &[u8]) -> io::Result<usize>
    ensures bound { WritesAtMost result buf.now }
    ensures bytes { WriteAppends (W.contents writer.old) (W.contents writer.new) result buf.now }
{
    for _ in 1..MOST_TRIES {
        match writer.write(buf) {
            Err(error) if error.kind() == ErrorKind::Interrupted => {}
            result => return result,
        }
    }
    writer.write(buf)
}

/// Reads into the buffer from this offset on, as often as the read is interrupted.
pub(crate) fn read_again_at<F: PlacedRead>(
    file: &F,
    offset: u64,
    buf: &mut [u8],
) -> io::Result<usize>
    ensures bound { ReadsAtMost result buf.new }
    ensures bytes { IfSome (F.known file.now) (λ bytes. GivesSome bytes offset result buf.new) }
{
    for _ in 1..MOST_TRIES {
        match file.read_some_at(buf, offset) {
            Err(error) if error.kind() == ErrorKind::Interrupted => {}
            result => return result,
        }
    }
    file.read_some_at(buf, offset)
}
