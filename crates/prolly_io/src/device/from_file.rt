//! A file as a device.
ghost use Rattle.std.specs.Prelude.{◌≡◌, ◌≤◌, length, IfOk, IfSome};
ghost use Rattle.prolly_io.specs.Device.{GivesFrom};
ghost use Rattle.prolly_io.specs.Failures.{CountsFailure};

use crate::device::placed_read::PlacedRead;
use crate::device::read_at::Device;
use crate::device::retry::read_again_at;
use crate::device::source::SourceFault;
use std::io;
use std::io::ErrorKind;

/// A file as a device. It is honest where the file tells its bytes, and what it tells are bytes. A
/// file of the system tells none.
///
/// A read is one call of the system where the file has the bytes. One that was interrupted is made
/// again; every other error is a `SourceFault`.
#[derive(Drop)]
pub struct FromFile<F> {
    file: F,
    failures: u64,
}

impl<F: PlacedRead> FromFile<F> {
    ghost use Rattle.prolly_io.specs.FromFile.{view_of};

    /// A device of the file's bytes. It reads nothing yet.
    pub fn new(file: F) -> FromFile<F>
        ensures seen { ⟦<FromFile<F> as Device>⟧.seen result ≡ view_of (F.known file) 0 }
    {
        FromFile { file, failures: 0 }
    }
}

impl<F> FromFile<F> {
    /// The answer of a call, which is counted where it failed.
    fn counted<T>(&mut self, answer: io::Result<T>) -> Result<T, SourceFault>
        ensures ok { IfOk result (λ value. answer ≡ Ok value) }
        ensures file { self.new.file ≡ self.old.file }
        ensures failures { CountsFailure self.old.failures self.new.failures result }
    {
        match answer {
            Ok(value) => Ok(value),
            Err(_) => {
                self.failures = self.failures.wrapping_add(1);
                Err(SourceFault)
            }
        }
    }
}

impl<F: PlacedRead> Device for FromFile<F> {
    ghost use Rattle.prolly_io.specs.FromFile.{view_of};

    ghost seen = { λ device. view_of (F.known device.file) device.failures };

    fn len(&mut self) -> Result<u64, SourceFault> {
        let size = self.file.size();
        self.counted(size)
    }

    fn read_at(&mut self, offset: u64, buf: &mut [u8]) -> Result<usize, SourceFault> {
        let filled = fill_from(&self.file, offset, buf);
        self.counted(filled)
    }
}

/// Reads from this offset on, until the buffer is full or the file has no more. No file has bytes
/// behind the greatest offset, so to go on there is an error.
fn fill_from<F: PlacedRead>(file: &F, offset: u64, buf: &mut [u8]) -> io::Result<usize>
    ensures bound { IfOk result (λ n. n ≤ length buf.new) }
    ensures bytes { IfSome (F.known file.now) (λ bytes. GivesFrom bytes offset result buf.new) }
{
    let mut filled = 0;
    while filled < buf.len() {
        let Some(at) = offset.checked_add(filled as u64) else {
            return Err(ErrorKind::InvalidInput.into());
        };
        let count = read_again_at(file, at, &mut buf[filled..])?;
        if count == 0 {
            return Ok(filled);
        }
        filled += count;
    }
    Ok(filled)
}
