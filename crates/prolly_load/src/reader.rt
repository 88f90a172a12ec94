//! A record file as an end that gives its records.
ghost use Rattle.std.specs.Prelude.{◌≡◌, IfOk};
ghost use Rattle.prolly_load.specs.Reader.{new_reading};

use crate::buffer::Buffer;
use crate::loader::next_of;
use crate::passed::Passed;
use prolly_entry::Record;
use prolly_io::Source;
use prolly_link::{End, In, Next};
use std::alloc::{AllocError, Global};
use std::marker::Model;
use std::snapshot::Snapshot;
use std::sync::Wait;

/// An end that gives the records of a record file: the good ones of what a source has left, at most
/// `limit`, and then how the file ends. It is for whoever takes the records of files in one thread;
/// [`load`](crate::load) sends the same over a link.
///
/// It stops where the source has no more bytes, and at the first flaw, failed read or refused
/// memory. The source is not read while the bytes at hand decide a record or a flaw, nor once the
/// end was given. A fault names the file by its number, and a record by its place among the file's
/// records, counted from 0.
///
/// Takes time linear in the bytes, and copies each record's bytes once. Holds one buffer of 130
/// KiB, however long the file is, and offers each read 64 KiB or more.
#[derive(Drop)]
pub struct RecordReader<S: Source> {
    alloc: Global,
    file: u32,
    limit: u32,
    source: S,
    buffer: Buffer,
    // How many records were given.
    count: u32,
    // The end, once it was given.
    end: Option<End>,
    // For contracts alone: the source as it was at first, and the records that were given.
    begun: Snapshot<S>,
    given: Passed<Record>,
}

impl<S: Source> Model for RecordReader<S> {
    ghost use Rattle.prolly_load.specs.Reader.{Reading, IsReading, progress_of};

    ghost Value = { Reading };

    ghost view = { λ r. record {
      file = r.file;
      limit = r.limit;
      begun = S.seen r.begun.value;
      source = S.seen r.source;
      records = r.given;
      progress = progress_of r.end;
    } };

    ghost invariant = { λ r. IsReading r.file r.limit r.count (S.seen r.begun.value)
        (S.seen r.source) r.buffer r.given r.end };
}

impl<S: Source + Drop> RecordReader<S> {
    /// A reader of the file of this number, which allows `limit` records. It reads nothing yet.
    pub fn new(
        alloc: Global,
        file: u32,
        source: S,
        limit: u32,
    ) -> Result<RecordReader<S>, AllocError>
        ensures { IfOk result (λ reader. reader ≡ new_reading file limit (S.seen source)) }
    {
        Ok(RecordReader {
            alloc,
            file,
            limit,
            buffer: Buffer::new(alloc)?,
            count: 0,
            end: None,
            begun: Snapshot::of(&source),
            given: Passed::new(),
            source,
        })
    }
}

impl<S: Source> RecordReader<S> {
    /// The source, as the reads left it.
    pub fn into_source(self) -> S
        ensures { S.seen result ≡ self.source }
    {
        self.source
    }
}

impl<S: Source> In<Record> for RecordReader<S> {
    ghost use Rattle.prolly_link.specs.Identity.{no_link};
    ghost use Rattle.prolly_link.specs.Growth.{items_between, between_nothing};
    ghost use Rattle.prolly_load.specs.Reader.{IsLaterReading};
    ghost use Rattle.prolly_load.specs.ReaderLaws.{reading_same, reading_more, given_in_both};
    ghost use Rattle.prolly_load.specs.ReaderLaws.{ended_gives_none};

    ghost link = { λ _. no_link };

    ghost progress = { λ r. r.progress };

    ghost Follows = { IsLaterReading };

    ghost received = { λ a b. items_between a.records b.records };

    ghost stays = { reading_same };

    ghost received_none = { λ a. (between_nothing a.records).1 };

    ghost goes_on = { reading_more };

    ghost received_both = { given_in_both };

    ghost ended_gives_nothing = { ended_gives_none };

    ghost ended_stays = { λ a b h. h.later.progress_stays };

    fn recv<R: Wait>(&mut self, _rt: &R) -> Next<Record> {
        if let Some(end) = self.end {
            return Next::End(end);
        }
        match next_of(
            self.alloc,
            self.file,
            &mut self.source,
            &mut self.buffer,
            self.limit,
            self.count,
        ) {
            Ok(record) => {
                self.count += 1;
                self.given.add(&record);
                Next::Item(record)
            }
            Err(end) => {
                self.end = Some(end);
                Next::End(end)
            }
        }
    }
}
