//! A sink over a writer of the standard library.
ghost use Rattle.std.specs.Prelude.{◌≡◌, is_some};
ghost use Rattle.prolly_io.specs.Known.{known_bytes};
ghost use Rattle.prolly_io.specs.Sink.{IsSettled};

use crate::device::retry::write_again;
use crate::device::sink::{Sink, SinkFault};
use std::io::Write;

/// A writer of std as a sink. It keeps its bytes where the writer tells them.
///
/// A write that was interrupted is tried again; every other error of the writer is a `SinkFault`,
/// also one that a second try might mend.
#[derive(Drop)]
pub struct ToWrite<W> {
    writer: W,
    failures: u64,
}

impl<W: Write> ToWrite<W> {
    /// A sink into the writer, behind the bytes that it holds already.
    ///
    /// It writes nothing yet.
    pub fn new(writer: W) -> ToWrite<W>
        ensures failures { (⟦<ToWrite<W> as Sink>⟧.seen result).failures ≡ 0 }
        ensures keeping { (⟦<ToWrite<W> as Sink>⟧.seen result).is_keeping ≡ is_some
            (W.contents writer) }
        ensures taken { (⟦<ToWrite<W> as Sink>⟧.seen result).taken ≡ known_bytes
            (W.contents writer) }
        ensures settled { IsSettled (⟦<ToWrite<W> as Sink>⟧.seen result) }
    {
        ToWrite {
            writer,
            failures: 0,
        }
    }

    /// The writer.
    pub fn writer(&self) -> &W
        ensures { known_bytes (W.contents result.now) ≡
            (⟦<ToWrite<W> as Sink>⟧.seen self.now).taken }
    {
        &self.writer
    }
}

impl<W: Write> Sink for ToWrite<W> {
    ghost use Rattle.prolly_io.specs.ToWrite.{seen_of};

    ghost seen = { seen_of W.contents };

    fn write(&mut self, buf: &[u8]) -> Result<usize, SinkFault> {
        match write_again(&mut self.writer, buf) {
            Ok(n) => {
                if n == 0 && !buf.is_empty() {
                    self.failures = self.failures.wrapping_add(1);
                }
                Ok(n)
            }
            Err(_) => {
                self.failures = self.failures.wrapping_add(1);
                Err(SinkFault)
            }
        }
    }

    fn flush(&mut self) -> Result<(), SinkFault> {
        match self.writer.flush() {
            Ok(()) => Ok(()),
            Err(_) => {
                self.failures = self.failures.wrapping_add(1);
                Err(SinkFault)
            }
        }
    }
}
