//! A source without an end.
ghost use Rattle.std.specs.Prelude.{◌≤◌};

use prolly_io::{Source, SourceFault};

/// A source that gives zeros for ever.
#[derive(Drop)]
pub struct Zeros;

impl Source for Zeros {
    ghost use Rattle.std.proofs.Common.{rules};
    ghost use Rattle.std.specs.Prelude.{[], true, false};

    ghost seen = { λ _. record { is_honest = false; is_steady = true; left = []; failures = 0 } };

    ghost left_are_bytes = { Prim.search rules };

    fn read(&mut self, buf: &mut [u8]) -> Result<usize, SourceFault> {
        buf.fill(0);
        Ok(buf.len())
    }
}
