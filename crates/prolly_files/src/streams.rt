//! What standard input and standard output are.
use crate::found::Found;
use crate::refusal::Refusal;
use prolly_fault::NameFault;
use std::fs;
use std::fs::{File, OpenOptions};
use std::os::fd::AsRawFd;

/// The folder in which the system has a name for each open file of a process.
const OPEN_FILES: &str = "/proc/self/fd";

/// A standard stream.
#[derive(Clone, Copy)]
pub enum Stream {
    /// Standard input.
    Input,
    /// Standard output.
    Output,
}

impl Stream {
    /// What the stream is; of a closed one, what [`ClosedStreams`] holds in its place. Where the
    /// system has no names for open files it can't be told, and is refused.
    pub fn found(self, rt: &HostRuntime) -> Result<Found, Refusal> {
        match Found::at(rt, self.path()) {
            Ok(Found::Nothing) if fs::metadata(rt, OPEN_FILES).is_err() => {}
            Ok(found) => return Ok(found),
            Err(_) => {}
        }
        Err(Refusal::of_name(rt, NameFault::CannotOpen, self.name()))
    }

    /// What the stream is, where the system tells that, for a command that prints only its answer.
    pub fn seen(self, rt: &HostRuntime) -> Found {
        match Found::at(rt, self.path()) {
            Ok(found) => found,
            Err(_) => Found::Nothing,
        }
    }

    /// The name by which a fault tells of it.
    pub fn name(self) -> &'static str {
        match self {
            Stream::Input => "standard input",
            Stream::Output => "standard output",
        }
    }

    /// The name that the system has for it.
    fn path(self) -> &'static str {
        match self {
            Stream::Input => "/proc/self/fd/0",
            Stream::Output => "/proc/self/fd/1",
        }
    }
}

/// The numbers of standard streams that were closed when the program began.
///
/// The system gives the least number that is free to the next file that is opened. Without these a
/// file of the user's would be read as standard input, or would get the answer as standard output.
#[derive(Drop)]
pub struct ClosedStreams {
    _held: [Option<File>; 3],
}

impl ClosedStreams {
    /// Takes the numbers. What stands behind them is a folder, or else a device that is opened in the
    /// wrong way: it can't be used, as the closed stream could not.
    pub fn hold(rt: &HostRuntime) -> ClosedStreams {
        ClosedStreams {
            _held: [hold_next(rt), hold_next(rt), hold_next(rt)],
        }
    }
}

/// Takes the next number that is free, where it is that of a standard stream.
fn hold_next(rt: &HostRuntime) -> Option<File> {
    let file = match fs::open(rt, "/") {
        Ok(folder) => folder,
        Err(_) => unusable_device(rt)?,
    };
    if file.as_raw_fd() <= 2 {
        Some(file)
    } else {
        None
    }
}

/// The device that has nothing, opened to be written where it is standard input, and else to be read.
fn unusable_device(rt: &HostRuntime) -> Option<File> {
    let device = fs::open(rt, "/dev/null").ok()?;
    if device.as_raw_fd() != 0 {
        return Some(device);
    }
    drop(device);
    OpenOptions::new().write(true).open(rt, "/dev/null").ok()
}
