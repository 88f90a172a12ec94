//! Sinks: where bytes are written to.
ghost use Rattle.std.specs.Prelude.{◌≡◌, ◌≤◌, true, length, IfOk, OnOk};
ghost use Rattle.prolly_io.specs.Failures.{CountsFailure};
ghost use Rattle.prolly_io.specs.Sink.{SinkView, Takes, CountsWriteFailure, IsSettled};

use std::error::Error;
use std::fmt;
use std::fmt::{Display, Formatter};

/// A write or a flush that failed.
#[derive(Clone, Copy, Debug, PartialEq, Eq)]
pub struct SinkFault;

impl Display for SinkFault {
    ghost use Rattle.std.specs.Prelude.{Some, codes};

    ghost output = { λ _. Some (codes "write failed") };

    fn fmt<W: fmt::Write>(&self, f: &mut Formatter<W>) -> fmt::Result {
        f.write_str("write failed")
    }
}

impl Error for SinkFault {}

/// What takes bytes, a part at a time.
pub trait Sink {
    /// What a contract sees of it: whether it keeps the bytes that it takes, which these are, which
    /// of them it does not hold back, and how many of its calls failed. A write that takes none of
    /// some bytes has failed too.
    ghost seen: { Self → SinkView };

    /// Takes bytes from the start of `buf`, and answers how many: as many as it likes, so a caller
    /// goes on with the rest.
    fn write(&mut self, buf: &[u8]) -> Result<usize, SinkFault>
        ensures bound { IfOk result (λ n. n ≤ length buf.now) }
        ensures bytes { (seen self.old).is_keeping ≡ true →
            Takes (seen self.old).taken (seen self.new).taken result buf.now }
        ensures keeping { (seen self.old).is_keeping ≡ true → (seen self.new).is_keeping ≡ true }
        ensures failures { CountsWriteFailure (seen self.old).failures
            (seen self.new).failures result buf.now };

    /// Has the bytes that were taken written out, where the sink holds some of them back.
    fn flush(&mut self) -> Result<(), SinkFault>
        ensures bytes { (seen self.old).is_keeping ≡ true →
            (seen self.new).taken ≡ (seen self.old).taken }
        ensures keeping { (seen self.old).is_keeping ≡ true → (seen self.new).is_keeping ≡ true }
        ensures settled { OnOk result (IsSettled (seen self.new)) }
        ensures failures { CountsFailure (seen self.old).failures (seen self.new).failures result };
}
