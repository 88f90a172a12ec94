//! A sink into memory.
ghost use Rattle.std.specs.Prelude.{◌≡◌, true, []};

use prolly_io::{Sink, SinkFault};
use std::alloc::Global;

/// What was written, in memory. A write fails where memory for it is refused, and no other does.
#[derive(Drop)]
pub(crate) struct Gathered {
    bytes: Vec<u8>,
    failures: u64,
}

impl Gathered {
    /// A sink that has nothing yet.
    pub(crate) fn new(alloc: Global) -> Gathered
        ensures taken { (⟦<Gathered as Sink>⟧.seen result).taken ≡ [] }
        ensures keeping { (⟦<Gathered as Sink>⟧.seen result).is_keeping ≡ true }
    {
        Gathered {
            bytes: Vec::new(alloc),
            failures: 0,
        }
    }

    /// What it was given.
    pub(crate) fn into_bytes(self) -> Vec<u8>
        ensures { result.items ≡ (⟦<Gathered as Sink>⟧.seen self).taken }
    {
        self.bytes
    }
}

impl Sink for Gathered {
    ghost seen = { λ s. record {
      is_keeping = true;
      taken = s.bytes.items;
      settled = s.bytes.items;
      failures = s.failures;
    } };

    fn write(&mut self, buf: &[u8]) -> Result<usize, SinkFault> {
        if self.bytes.extend_from_slice(buf).is_err() {
            self.failures = self.failures.wrapping_add(1);
            return Err(SinkFault);
        }
        Ok(buf.len())
    }

    fn flush(&mut self) -> Result<(), SinkFault> {
        Ok(())
    }
}
