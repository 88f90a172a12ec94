//! Standard streams that may be non-blocking.
use prolly_fault::LINE_START;
use prolly_io::FromRead;
use std::io::{ErrorKind, IsTerminal, Read, Write};
use std::rt::Stdin;
use std::time::Duration;
use std::{io, thread};

/// How long is waited before a call is made again, at first, in milliseconds. It doubles each time.
const FIRST_PAUSE: u64 = 1;

/// How long a pause is at most, in milliseconds. How many there are has no limit.
const MOST_PAUSE: u64 = 64;

/// A standard stream, of which a call waits until it is done.
///
/// Whoever starts a program may hand down a pipe that is non-blocking, as Node.js does: a call of it
/// fails where there is nothing to read yet, or no room to write. It is made again after a pause.
#[derive(Drop)]
pub struct Patient<'a, S> {
    rt: &'a HostRuntime,
    stream: S,
}

impl<'a, S> Patient<'a, S> {
    /// The stream, which is waited for.
    pub fn new(rt: &'a HostRuntime, stream: S) -> Patient<'a, S> {
        Patient { rt, stream }
    }
}

impl<S: Read> Read for Patient<'_, S> {
    fn read(&mut self, buf: &mut [u8]) -> io::Result<usize> {
        let mut pause = FIRST_PAUSE;
        for _ in 0..u64::MAX {
            match self.stream.read(buf) {
                Err(error) if error.kind() == ErrorKind::WouldBlock => {
                    pause = pause_and_double(self.rt, pause);
                }
                result => return result,
            }
        }
        self.stream.read(buf)
    }
}

impl<S: Write> Write for Patient<'_, S> {
    fn write(&mut self, buf: &[u8]) -> io::Result<usize> {
        let mut pause = FIRST_PAUSE;
        for _ in 0..u64::MAX {
            match self.stream.write(buf) {
                Err(error) if error.kind() == ErrorKind::WouldBlock => {
                    pause = pause_and_double(self.rt, pause);
                }
                result => return result,
            }
        }
        self.stream.write(buf)
    }

    fn flush(&mut self) -> io::Result<()> {
        self.stream.flush()
    }
}

/// Waits for so many milliseconds, and answers how many are waited the next time.
fn pause_and_double(rt: &HostRuntime, pause: u64) -> u64 {
    thread::sleep(rt, Duration::from_millis(pause));
    pause.saturating_mul(2).min(MOST_PAUSE)
}

/// Standard input, as the source of a command.
pub fn stdin_source(rt: &HostRuntime) -> FromRead<Patient<'_, Stdin>> {
    FromRead::new(Patient::new(rt, rt.stdin()))
}

/// Says that lines are read from the terminal, where standard input is one.
pub fn tell_of_terminal(rt: &HostRuntime) {
    if rt.stdin().is_terminal() {
        let _ = eprintln!(rt; "{LINE_START}reading lines from the terminal; Control-D ends them");
    }
}
