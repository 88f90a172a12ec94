//! A source over a reader of the standard library.
ghost use Rattle.std.specs.Prelude.{◌≡◌, ◌≤◌, ◌<◌, ◌↔◌, true, false, length, IsTrue, IfOk, OnErr};
ghost use Rattle.prolly_io.specs.Failures.{CountsFailure};
ghost use Rattle.prolly_io.specs.Known.{known_bytes, are_known_bytes};
ghost use Rattle.prolly_io.specs.Source.{HandsOut};

use crate::device::retry::read_again;
use crate::device::source::{Source, SourceFault};
use std::io::Read;

/// A reader of std as a source. It is honest where the reader tells its bytes, and what it tells
/// are bytes: of that std promises nothing.
///
/// A read that was interrupted is tried again; every other error of the reader is a `SourceFault`,
/// also one that a second try might mend. An `Ok(0)` for a buffer that has room is the end for
/// good: a terminal, say, would give more after it.
#[derive(Drop)]
pub struct FromRead<R> {
    reader: R,
    has_ended: bool,
    failures: u64,
}

impl<R: Read> FromRead<R> {
    ghost use Rattle.prolly_io.specs.FromRead.{has_ended};

    /// A source of what the reader has left. It reads nothing yet.
    pub fn new(reader: R) -> FromRead<R>
        ensures left { (⟦<FromRead<R> as Source>⟧.seen result).left ≡ known_bytes
            (R.remaining reader) }
        ensures honest { (⟦<FromRead<R> as Source>⟧.seen result).is_honest ≡ are_known_bytes
            (R.remaining reader) }
        ensures failures { (⟦<FromRead<R> as Source>⟧.seen result).failures ≡ 0 }
        ensures begun { has_ended result ≡ false }
    {
        FromRead {
            reader,
            has_ended: false,
            failures: 0,
        }
    }
}

impl<R: Read> Source for FromRead<R> {
    ghost use Rattle.prolly_io.specs.FromRead.{has_ended, seen_of};
    ghost use Rattle.prolly_io.specs.BytesLaws.{bytes_left_are_bytes};

    ghost seen = { seen_of R.remaining };

    ghost left_are_bytes = { λ s told. bytes_left_are_bytes s.has_ended
        (R.remaining s.reader) told };

    fn read(&mut self, buf: &mut [u8]) -> Result<usize, SourceFault>
        ensures bound { IfOk result (λ n. n ≤ length buf.new) }
        ensures bytes { (seen_of R.remaining self.old).is_honest ≡ true →
            HandsOut (seen_of R.remaining self.old).left
            (seen_of R.remaining self.new).left result buf.new }
        ensures honest { (seen_of R.remaining self.old).is_honest ≡ true →
            (seen_of R.remaining self.new).is_honest ≡ true }
        ensures failures { CountsFailure self.old.failures self.new.failures result }

        // Once it has ended, the reader is left alone.
        ensures over { has_ended self.old ≡ true → (result ≡ Ok 0) × (self.new ≡ self.old) }
        ensures ends { IfOk result (λ n. 0 < length buf.old →
            (IsTrue (has_ended self.new) ↔ (n ≡ 0))) }
        ensures no_room { length buf.old ≡ 0 → has_ended self.new ≡ has_ended self.old }
        ensures goes_on { OnErr result (has_ended self.new ≡ false) }
    {
        if self.has_ended {
            return Ok(0);
        }
        match read_again(&mut self.reader, buf) {
            Ok(n) => {
                self.has_ended = n == 0 && !buf.is_empty();
                Ok(n)
            }
            Err(_) => {
                self.failures = self.failures.wrapping_add(1);
                Err(SourceFault)
            }
        }
    }
}
