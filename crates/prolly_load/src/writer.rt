//! A record file as an end that records go into.
ghost use Rattle.std.specs.Prelude.{◌≡◌, [], true, false, length, min};
ghost use Rattle.prolly_io.specs.Sink.{IsSettled};
ghost use Rattle.prolly_io.specs.Writes.{Writes};
ghost use Rattle.prolly_load.specs.Writer.{IsWritten, new_writing, outcome};

use crate::passed::Passed;
use prolly_entry::{Record, append_record};
use prolly_io::{Sink, write_all};
use prolly_link::{End, Out};
use std::alloc::Global;
use std::marker::Model;
use std::snapshot::Snapshot;
use std::sync::Wait;

/// An end that writes the records that are sent to a sink, one spelling behind another: the record
/// file of the records, where their keys rise. Their order is not looked at.
///
/// Once a call of the sink has failed, the sink is left alone, and each record that is sent is
/// handed back. So who sends stops there, as at want of memory; [`WrittenRecords::has_failed`]
/// tells which it was.
///
/// Makes one call of the sink for each record, or more where the sink takes only a part, and a
/// flush at the end. Holds the spelling of one record, in memory that it keeps.
#[derive(Drop)]
pub struct RecordWriter<W: Sink> {
    sink: W,
    // The spelling of the record that was sent last.
    spelling: Vec<u8>,
    count: u64,
    has_failed: bool,
    // For contracts alone: the sink as it was at first, and the records that were sent.
    begun: Snapshot<W>,
    sent: Passed<Record>,
}

impl<W: Sink> Model for RecordWriter<W> {
    ghost use Rattle.std.specs.Prelude.{◌≡◌, length, min};
    ghost use Rattle.prolly_load.specs.Writer.{Writing, AreWritten};

    ghost Value = { Writing };

    ghost view = { λ w. record {
      begun = W.seen w.begun.value;
      sink = W.seen w.sink;
      records = w.sent;
      has_failed = w.has_failed;
    } };

    ghost invariant = { λ w. AreWritten (record {
      begun = W.seen w.begun.value;
      sink = W.seen w.sink;
      records = w.sent;
      has_failed = w.has_failed;
    }) × (w.count ≡ min (length w.sent) 0xFFFF_FFFF_FFFF_FFFF) };
}

impl<W: Sink> RecordWriter<W> {
    /// A writer into this sink, behind the bytes that it took already. It writes nothing yet.
    pub fn new(alloc: Global, sink: W) -> RecordWriter<W>
        ensures { result ≡ new_writing (W.seen sink) }
    {
        RecordWriter {
            spelling: Vec::new(alloc),
            count: 0,
            has_failed: false,
            begun: Snapshot::of(&sink),
            sent: Passed::new(),
            sink,
        }
    }
}

impl<W: Sink> Out<Record> for RecordWriter<W> {
    ghost use Rattle.prolly_load.specs.Writer.{link_to};

    type Closed = WrittenRecords<W>;

    ghost link = { λ w. link_to w.begun };

    ghost sent = { λ w. w.records };

    ghost closed_link = { λ c. link_to c.writing.begun };

    ghost all_sent = { λ c. c.writing.records };

    ghost end_sent = { λ c. c.end };

    fn send<R: Wait>(&mut self, _rt: &R, item: Record) -> Result<(), Record> {
        if self.has_failed {
            return Err(item);
        }
        self.spelling.clear();
        if let Err(_) = append_record(&mut self.spelling, &item) {
            return Err(item);
        }
        if let Err(_) = write_all(&mut self.sink, &self.spelling) {
            self.has_failed = true;
            return Err(item);
        }
        self.count = self.count.saturating_add(1);
        self.sent.add(&item);
        Ok(())
    }

    fn close<R: Wait>(self, _rt: &R, end: End) -> WrittenRecords<W> {
        let RecordWriter {
            mut sink,
            spelling: _,
            count,
            has_failed,
            begun,
            sent,
        } = self;
        let has_failed = finish(&mut sink, has_failed);
        WrittenRecords {
            sink,
            count,
            has_failed,
            end,
            begun,
            sent,
        }
    }
}

/// Flushes a sink of which no call has failed, and answers whether one has now.
fn finish<W: Sink>(sink: &mut W, has_failed: bool) -> bool
    ensures alone { has_failed ≡ true → (result ≡ true) × (sink.new ≡ sink.old) }
    ensures flushed { has_failed ≡ false →
        Writes [] (W.seen sink.old) (W.seen sink.new) (outcome result) }
    ensures settled { result ≡ false → IsSettled (W.seen sink.new) }
{
    has_failed || sink.flush().is_err()
}

/// What a writer of records leaves once it is closed.
#[derive(Drop)]
pub struct WrittenRecords<W: Sink> {
    sink: W,
    count: u64,
    has_failed: bool,
    end: End,
    // For contracts alone, as the writer had them.
    begun: Snapshot<W>,
    sent: Passed<Record>,
}

impl<W: Sink> Model for WrittenRecords<W> {
    ghost use Rattle.std.specs.Prelude.{◌≡◌, length, min};
    ghost use Rattle.prolly_load.specs.Writer.{Written, IsWritten};

    ghost Value = { Written };

    ghost view = { λ c. record {
      writing = record {
        begun = W.seen c.begun.value;
        sink = W.seen c.sink;
        records = c.sent;
        has_failed = c.has_failed;
      };
      end = c.end;
    } };

    ghost invariant = { λ c. IsWritten (record {
      begun = W.seen c.begun.value;
      sink = W.seen c.sink;
      records = c.sent;
      has_failed = c.has_failed;
    }) × (c.count ≡ min (length c.sent) 0xFFFF_FFFF_FFFF_FFFF) };
}

impl<W: Sink> WrittenRecords<W> {
    /// Whether a call of the sink failed. Then a part of the file is written, and no one can tell
    /// how much of it.
    pub fn has_failed(&self) -> bool
        ensures failed { result ≡ self.now.writing.has_failed }
        ensures written { IsWritten self.now.writing }
    {
        self.has_failed
    }

    /// The end that was sent.
    pub fn end(&self) -> End
        ensures { result ≡ self.now.end }
    {
        self.end
    }

    /// How many records were sent, or the greatest number where there were more.
    pub fn count(&self) -> u64
        ensures { result ≡ min (length self.now.writing.records) 0xFFFF_FFFF_FFFF_FFFF }
    {
        self.count
    }

    /// The sink, as the writes left it.
    pub fn into_sink(self) -> W
        ensures sink { W.seen result ≡ self.writing.sink }
        ensures written { IsWritten self.writing }
    {
        self.sink
    }
}
