//! The files and streams of a command: what their names lead to, and how they are read, written and
//! put in their place.
#![tactic(auto)]

mod found;
mod inputs;
mod output;
mod patient;
mod refusal;
mod sinks;
mod streams;

pub use found::{FileId, FileStamp, Found};
pub use inputs::{Chunks, Input, InputName, refuse_printed_input, refuse_read_twice};
pub use output::{CHUNK_FILE_LETTERS, Output, OutputKind, RunFile, RunFiles, Target};
pub use patient::{Patient, stdin_source, tell_of_terminal};
pub use refusal::{Refusal, told};
pub use sinks::{buffered, print, stdout_sink};
pub use streams::{ClosedStreams, Stream};
