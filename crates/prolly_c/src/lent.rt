//! Bytes in memory as a source.
ghost use Rattle.std.specs.Prelude.{◌≡◌, true, min, length, take, drop, ◌++◌};

use prolly_io::{Source, SourceFault};

/// Bytes that the caller has in memory, as a source. It is honest, and no read of it fails.
#[derive(Drop)]
pub(crate) struct Lent<'a> {
    left: &'a [u8],
}

impl<'a> Lent<'a> {
    /// A source of these bytes.
    pub(crate) fn new(bytes: &'a [u8]) -> Lent<'a>
        ensures left { (⟦<Lent<'a> as Source>⟧.seen result).left ≡ bytes.now }
        ensures honest { (⟦<Lent<'a> as Source>⟧.seen result).is_honest ≡ true }
    {
        Lent { left: bytes }
    }
}

impl<'a> Source for Lent<'a> {
    ghost use Rattle.prolly_io.specs.Bytes.{are_bytes};
    ghost use Rattle.prolly_io.specs.BytesLaws.{bytes_from_test};

    ghost seen = { λ s. record {
      is_honest = are_bytes s.left.now;
      is_steady = true;
      left = s.left.now;
      failures = 0;
    } };

    ghost left_are_bytes = { λ s told. bytes_from_test s.left.now told };

    fn read(&mut self, buf: &mut [u8]) -> Result<usize, SourceFault> {
        let count = copy_some(self.left, buf);
        self.left = &self.left[count..];
        Ok(count)
    }
}

/// Copies as many bytes as there are or have room, and answers how many.
fn copy_some(from: &[u8], to: &mut [u8]) -> usize
    ensures count { result ≡ min (length to.old) (length from.now) }
    ensures copied { to.new ≡ take result from.now ++ drop result to.old }
{
    let count = to.len().min(from.len());
    to[..count].copy_from_slice(&from[..count]);
    count
}
