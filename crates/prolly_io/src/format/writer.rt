//! The writer of a chunk file.
ghost use Rattle.std.specs.Prelude.{◌≡◌, ◌≢◌, ◌↔◌, ◌<◌, true, false, [], ◌++◌, IsErr, OnOk, OnErr};
ghost use Rattle.std.specs.Prelude.{IfOk};
ghost use Rattle.prolly_entry.specs.declared.version.Version.TheVariants.{One};
ghost use Rattle.prolly_tree.specs.Events.{greatest_count};
ghost use Rattle.prolly_tree.specs.File.{header, end_record};
ghost use Rattle.prolly_io.specs.Writer.{WritesHeader, next_count};
ghost use Rattle.prolly_io.specs.Writes.{Writes};
ghost use Rattle.prolly_io.specs.Failures.{CountsFailure};
ghost use Rattle.prolly_io.specs.Frame.{framed};
ghost use Rattle.prolly_io.specs.Sink.{IsSettled, TakesPrefix};

use crate::device::{Sink, SinkFault};
use crate::format::frame::{end_record, frame_start};
use crate::format::header::Header;
use prolly_entry::{Ref, Version};
use std::error::Error;
use std::fmt;
use std::fmt::{Display, Formatter};
use std::marker::Model;

/// A part of a file was not written whole: the sink failed, in this call or a former one.
#[derive(Clone, Copy, Debug, PartialEq, Eq)]
pub struct WriteFault;

impl Display for WriteFault {
    ghost use Rattle.std.specs.Prelude.{Some, codes};

    ghost output = { λ _. Some (codes "write failed") };

    fn fmt<W: fmt::Write>(&self, f: &mut Formatter<W>) -> fmt::Result {
        f.write_str("write failed")
    }
}

impl Error for WriteFault {}

impl From<SinkFault> for WriteFault {
    ghost from_gives = { λ _ _. Unit {0} };

    fn from(_: SinkFault) -> Self {
        WriteFault
    }
}

/// The writer of a chunk file, which counts its chunks.
///
/// It takes no memory and holds no sink: each call is lent the one that it writes to, which is to
/// be the same for all calls of a writer. A short write goes on where it stopped, and a write that
/// takes none of some bytes is a failure. After a `WriteFault` each further call answers
/// `WriteFault` too, and leaves the sink alone, since no one can tell how much of the file is
/// there.
#[derive(Drop)]
pub struct FileWriter {
    chunks: u64,
    has_failed: bool,
}

impl Model for FileWriter {
    ghost use Rattle.prolly_io.specs.Writer.{Progress};

    ghost Value = { Progress };

    ghost view = { λ w. record { chunks = w.chunks; has_failed = w.has_failed } };
}

impl FileWriter {
    /// Writes the header of a file of version One, whose cut has this number of bits. Any number is
    /// written, also one that no cut has.
    pub fn begin<W: Sink>(sink: &mut W, bits: u8) -> Result<FileWriter, WriteFault>
        ensures { WritesHeader One bits (W.seen sink.old) (W.seen sink.new) result }
    {
        FileWriter::begin_as(sink, Version::One, bits)
    }

    /// Writes the header of a file of this version, whose cut has this number of bits. Any number
    /// is written, also one that no cut has.
    pub fn begin_as<W: Sink>(
        sink: &mut W,
        version: Version,
        bits: u8,
    ) -> Result<FileWriter, WriteFault>
        ensures { WritesHeader version bits (W.seen sink.old) (W.seen sink.new) result }
    {
        write_all(sink, &Header { version, bits }.to_bytes())?;
        Ok(FileWriter {
            chunks: 0,
            has_failed: false,
        })
    }

    /// The number of chunks that were written. It stays at the greatest `u64` once it is there.
    pub fn chunks(&self) -> u64
        ensures { result ≡ self.now.chunks }
    {
        self.chunks
    }

    /// Writes the frame of a chunk of these bytes: nine bytes in writes of their own, and then the
    /// chunk's, straight from the slice. Takes time linear in them.
    pub fn chunk<W: Sink>(&mut self, sink: &mut W, bytes: &[u8]) -> Result<(), WriteFault>
        ensures written { (W.seen sink.old).is_keeping ≡ true →
            OnOk result ((W.seen sink.new).taken ≡ (W.seen sink.old).taken ++ framed bytes.now) }
        ensures part { (W.seen sink.old).is_keeping ≡ true →
            OnErr result (TakesPrefix ((W.seen sink.old).taken) ((W.seen sink.new).taken)
            (framed bytes.now)) }
        ensures counted { OnOk result (self.new
            ≡ record { chunks = next_count self.old.chunks; has_failed = false }) }
        ensures failed { OnErr result (self.new
            ≡ record { chunks = self.old.chunks; has_failed = true }) }

        ensures fault { self.old.has_failed ≡ false →
            (IsErr result ↔ ((W.seen sink.new).failures ≢ (W.seen sink.old).failures)) }
        ensures failures { self.old.has_failed ≡ false →
            CountsFailure ((W.seen sink.old).failures) ((W.seen sink.new).failures) result }
        ensures keeping { (W.seen sink.old).is_keeping ≡ true →
            (W.seen sink.new).is_keeping ≡ true }

        // After a fault the sink is left alone.
        ensures faulty { self.old.has_failed ≡ true → IsErr result }
        ensures alone { self.old.has_failed ≡ true → sink.new ≡ sink.old }
    {
        if self.has_failed || write_frame(sink, bytes).is_err() {
            self.has_failed = true;
            return Err(WriteFault);
        }
        self.chunks = self.chunks.saturating_add(1);
        Ok(())
    }

    /// Writes the end record, with the reference of the root and the number of chunks, flushes the
    /// sink, and answers the number. That the reference is the one of the last chunk is not looked
    /// at.
    ///
    /// A file with as many chunks as the greatest `u64` has no number to write: see `chunks`.
    pub fn end<W: Sink>(self, sink: &mut W, root: &Ref) -> Result<u64, WriteFault>
        requires { self.chunks < greatest_count }
        ensures written { (W.seen sink.old).is_keeping ≡ true →
            OnOk result ((W.seen sink.new).taken
            ≡ (W.seen sink.old).taken ++ end_record root.now.0 self.chunks) }
        ensures settled { OnOk result (IsSettled (W.seen sink.new)) }
        ensures part { (W.seen sink.old).is_keeping ≡ true →
            OnErr result (TakesPrefix ((W.seen sink.old).taken) ((W.seen sink.new).taken)
            (end_record root.now.0 self.chunks)) }
        ensures count { IfOk result (λ chunks. chunks ≡ self.chunks) }

        ensures fault { self.has_failed ≡ false →
            (IsErr result ↔ ((W.seen sink.new).failures ≢ (W.seen sink.old).failures)) }
        ensures failures { self.has_failed ≡ false →
            CountsFailure ((W.seen sink.old).failures) ((W.seen sink.new).failures) result }
        ensures keeping { (W.seen sink.old).is_keeping ≡ true →
            (W.seen sink.new).is_keeping ≡ true }

        // After a fault the sink is left alone.
        ensures faulty { self.has_failed ≡ true → IsErr result }
        ensures alone { self.has_failed ≡ true → sink.new ≡ sink.old }
    {
        if self.has_failed || write_whole(sink, &end_record(root, self.chunks)).is_err() {
            return Err(WriteFault);
        }
        Ok(self.chunks)
    }
}

/// Writes all of these bytes, and flushes the sink.
pub fn write_whole<W: Sink>(sink: &mut W, bytes: &[u8]) -> Result<(), WriteFault>
    ensures writes { Writes bytes.now (W.seen sink.old) (W.seen sink.new) result }
    ensures settled { OnOk result (IsSettled (W.seen sink.new)) }
{
    write_all(sink, bytes)?;
    sink.flush()?;
    Ok(())
}

/// Writes the frame of a chunk, its start and then its bytes, and does not flush the sink.
pub fn write_frame<W: Sink>(sink: &mut W, bytes: &[u8]) -> Result<(), WriteFault>
    ensures { Writes (framed bytes.now) (W.seen sink.old) (W.seen sink.new) result }
{
    write_all(sink, &frame_start(bytes.len() as u64))?;
    write_all(sink, bytes)
}

/// Writes all of these bytes, in as many writes as the sink wants, and does not flush the sink. No
/// write is of no bytes, so an `Ok(0)` is always a failure.
pub fn write_all<W: Sink>(sink: &mut W, bytes: &[u8]) -> Result<(), WriteFault>
    ensures writes { Writes bytes.now (W.seen sink.old) (W.seen sink.new) result }
    ensures nothing { bytes.now ≡ [] → sink.new ≡ sink.old }
{
    let mut rest = bytes;
    while !rest.is_empty() {
        match sink.write(rest) {
            Ok(0) | Err(_) => return Err(WriteFault),
            Ok(count) => rest = &rest[count..],
        }
    }
    Ok(())
}
