//! What commands write to.
use crate::patient::Patient;
use prolly_fault::Answer;
use prolly_io::{Buffered, Sink, ToWrite};
use std::alloc::AllocError;
use std::io;
use std::io::Write;
use std::rt::Stdout;

/// How many bytes are written at once.
const BUFFER_BYTES: usize = 65_536;

/// A buffer before this sink, for a command that writes as it goes.
pub fn buffered<W: Sink + Drop>(rt: &HostRuntime, sink: W) -> Result<Buffered<W>, AllocError> {
    Buffered::with_capacity(rt.alloc(), BUFFER_BYTES, sink)
}

/// A buffer before standard output, for a command that prints as it goes.
pub fn stdout_sink(rt: &HostRuntime) -> Result<Buffered<ToWrite<Patient<'_, Stdout>>>, AllocError> {
    buffered(rt, ToWrite::new(Patient::new(rt, rt.stdout())))
}

/// Prints an answer. Where standard error fails there is no one to tell; the status tells.
pub fn print(rt: &HostRuntime, answer: &Answer) -> io::Result<()> {
    let _ = Patient::new(rt, rt.stderr()).write_all(&answer.err);
    Patient::new(rt, rt.stdout()).write_all(&answer.out)
}
