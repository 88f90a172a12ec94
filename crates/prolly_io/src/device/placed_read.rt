//! Reads at an offset, as the system makes them.
ghost use Rattle.std.specs.Prelude.{◌≡◌, List, ℕ, None, Option, length, IfOk, IfSome};
ghost use Rattle.std.specs.Io.{ReadsAtMost};
ghost use Rattle.prolly_io.specs.Device.{GivesSome};

use std::fs::File;
use std::io;
use std::io::{Seek, SeekFrom};
use std::os::unix::fs::FileExt;

/// What is read at an offset, and may give less than was asked, as a file of the system may.
pub trait PlacedRead {
    /// The bytes, where it tells them to contracts. They stay as they are.
    ghost known: { Self → Option (List ℕ) };

    /// How many bytes there are.
    fn size(&mut self) -> io::Result<u64>
        ensures size { IfSome (known self.old) (λ bytes. IfOk result (λ n. n ≡ length bytes)) }
        ensures same { known self.new ≡ known self.old };

    /// Puts bytes from this offset on at the start of `buf`, and answers how many. There are none only
    /// where no byte stands at the offset, or `buf` has no room.
    fn read_some_at(&self, buf: &mut [u8], offset: u64) -> io::Result<usize>
        ensures bound { ReadsAtMost result buf.new }
        ensures bytes { IfSome (known self.now) (λ bytes. GivesSome bytes offset result buf.new) };
}

/// A file of the system tells contracts nothing of its bytes.
impl PlacedRead for File {
    ghost known = { λ _. None };

    fn size(&mut self) -> io::Result<u64> {
        self.seek(SeekFrom::End(0))
    }

    fn read_some_at(&self, buf: &mut [u8], offset: u64) -> io::Result<usize> {
        self.read_at(buf, offset)
    }
}
