//! Bytes in memory as a device.
ghost use Rattle.std.specs.Prelude.{◌≡◌, true};

use crate::device::copy::copy_from;
use crate::device::read_at::Device;
use crate::device::source::SourceFault;

/// Bytes in memory as a device. It is honest, and no call of it fails.
#[derive(Drop)]
pub struct InMemory<'a> {
    bytes: &'a [u8],
}

impl<'a> InMemory<'a> {
    /// A device of these bytes.
    pub fn new(bytes: &'a [u8]) -> InMemory<'a>
        ensures { ⟦<InMemory<'a> as Device>⟧.seen result ≡ record
            { is_honest = true; bytes = bytes.now; failures = 0 } }
    {
        InMemory { bytes }
    }
}

impl<'a> Device for InMemory<'a> {
    ghost seen = { λ device. record {
      is_honest = true;
      bytes = device.bytes.now;
      failures = 0;
    } };

    fn len(&mut self) -> Result<u64, SourceFault> {
        Ok(self.bytes.len() as u64)
    }

    fn read_at(&mut self, offset: u64, buf: &mut [u8]) -> Result<usize, SourceFault> {
        Ok(copy_from(self.bytes, offset, buf))
    }
}
