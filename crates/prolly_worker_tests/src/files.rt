//! Record files as ends in one thread: their reader and their writer.
ghost use Rattle.std.specs.Prelude.{◌<◌};

use crate::links::comparing::{expect_bytes, expect_eq, expect_sent};
use crate::loading::{FILES, READ_FAILED, THREE_PUTS, bytes_of, expect_records};
use prolly_entry::Record;
use prolly_io::{FromRead, ScriptSink, ScriptSource, Source};
use prolly_link::{ClosedList, End, In, Next, Out};
use prolly_load::{RecordReader, RecordWriter, WrittenRecords};
use prolly_merge::merge_two;
use std::alloc::{AllocError, Global};
use std::process::Abort;
use std::sync::Wait;
use std::test::Fail;

/// What a reader has left to give, and its end.
pub(crate) fn read_rest<S: Source, R: Abort + Wait>(
    rt: &R,
    alloc: Global,
    reader: &mut RecordReader<S>,
) -> Result<ClosedList<Record>, AllocError> {
    let mut items = Vec::new(alloc);
    for _ in rt.forever() {
        match reader.recv(rt) {
            Next::Item(record) => items.push(record)?,
            Next::End(last) => return Ok(ClosedList { items, last }),
            Next::Lost => panic!(rt; "a file has no sender to lose"),
        }
    }
    unreachable!()
}

/// Reads a file by reads of so many bytes, of which one may fail, and fails unless its first
/// records are given, so many of them, and then this end, again and again.
fn expect_read<R: Abort + Wait>(
    rt: &R,
    alloc: Global,
    file: &[u8],
    step: usize,
    fail_at: Option<u64>,
    limit: u32,
    count: usize,
    end: End,
) -> Result<(), Fail>
    requires { 0 < step }
{
    let source = ScriptSource::new(file.to_vec(alloc)?, step, fail_at);
    let mut reader = RecordReader::new(alloc, 0, source, limit)?;
    let given = read_rest(rt, alloc, &mut reader)?;
    expect_records(rt, alloc, &given, file, count, end)?;
    for _ in 0..2 {
        let again = read_rest(rt, alloc, &mut reader)?;
        expect_sent(rt, (again.items.len() as u64, again.last), (0, end));
    }
    Ok(())
}

#[test]
fn files_are_read_as_they_are_loaded(rt: HostRuntime) -> Result<(), Fail> {
    for &(file, limit, count, end) in &FILES {
        for step in [1, 4_096] {
            expect_read(&rt, rt.alloc(), file, step, None, limit, count, end)?;
        }
    }
    Ok(())
}

// A read gives a byte, so the reads before the failed one gave a record for eight of them. The read
// behind the failed one would give the next byte.
#[test]
fn a_failed_read_is_the_end(rt: HostRuntime) -> Result<(), Fail> {
    for fail_at in 1..27 {
        let count = (fail_at as usize - 1) / 8;
        let end = if fail_at < 26 {
            READ_FAILED
        } else {
            End::Clean
        };
        let fail_at = Some(fail_at);
        expect_read(&rt, rt.alloc(), THREE_PUTS, 1, fail_at, 1_000, count, end)?;
    }
    Ok(())
}

// A read gives a record, so the third one is left.
#[test]
fn a_reader_reads_no_more_than_it_needs(rt: HostRuntime) -> Result<(), Fail> {
    let source = ScriptSource::new(THREE_PUTS.to_vec(rt.alloc())?, 8, None);
    let mut reader = RecordReader::new(rt.alloc(), 0, source, 1_000)?;
    for _ in 0..2 {
        assert!(&rt; matches!(reader.recv(&rt), Next::Item(_)));
    }
    let mut left = [0; 24];
    let count = reader.into_source().read(&mut left)?;
    expect_bytes(&rt, &left[..count], &THREE_PUTS[16..]);
    Ok(())
}

/// Sends the records to a writer, and answers what it leaves, and how many it handed back.
pub(crate) fn write_all_of(
    rt: &impl Wait,
    alloc: Global,
    sink: ScriptSink,
    records: Vec<Record>,
) -> (WrittenRecords<ScriptSink>, u64) {
    let mut writer = RecordWriter::new(alloc, sink);
    let mut refused = 0u64;
    for record in records {
        if let Err(_) = writer.send(rt, record) {
            refused = refused.saturating_add(1);
        }
    }
    (writer.close(rt, End::Clean), refused)
}

/// Writes what was read of a file to a sink that takes so many bytes at a time, and fails unless it
/// is the file again.
fn expect_written<R: Abort + Wait>(
    rt: &R,
    alloc: Global,
    file: &[u8],
    step: usize,
) -> Result<(), Fail> {
    let mut reader = RecordReader::new(alloc, 0, FromRead::new(file), 1_000)?;
    let given = read_rest(rt, alloc, &mut reader)?;
    let good = bytes_of(alloc, &given.items)?;
    let count = given.items.len() as u64;
    let sink = ScriptSink::new(alloc, step, None);
    let (written, refused) = write_all_of(rt, alloc, sink, given.items);
    expect_eq(rt, &(written.has_failed(), refused), &(false, 0));
    expect_sent(rt, (written.count(), written.end()), (count, End::Clean));
    expect_bytes(rt, written.into_sink().taken(), &good);
    Ok(())
}

#[test]
fn what_is_read_is_written_as_it_was(rt: HostRuntime) -> Result<(), Fail> {
    for &(file, _, _, _) in &FILES {
        for step in [1, 4_096] {
            expect_written(&rt, rt.alloc(), file, step)?;
        }
    }
    Ok(())
}

/// Writes three records to a sink of which this call fails, where each takes three calls, and fails
/// unless so many are sent, so many are handed back and so many bytes are taken.
fn expect_write_failed<R: Abort + Wait>(
    rt: &R,
    alloc: Global,
    fail_at: u64,
    count: u64,
    refused: u64,
    len: usize,
) -> Result<(), Fail> {
    let mut reader = RecordReader::new(alloc, 0, FromRead::new(THREE_PUTS), 1_000)?;
    let records = read_rest(rt, alloc, &mut reader)?.items;
    let sink = ScriptSink::new(alloc, 3, Some(fail_at));
    let (written, back) = write_all_of(rt, alloc, sink, records);
    expect_eq(rt, &(written.has_failed(), back), &(true, refused));
    expect_sent(rt, (written.count(), written.end()), (count, End::Clean));
    let sink = written.into_sink();
    let taken = sink.taken();
    expect_eq(
        rt,
        &(THREE_PUTS.starts_with(taken), taken.len()),
        &(true, len),
    );
    Ok(())
}

/// The call that fails, of which the tenth is the flush, how many records are sent, how many are
/// handed back, and how many bytes are taken.
const FAILURES: [(u64, u64, u64, usize); 10] = [
    (1, 0, 3, 0),
    (2, 0, 3, 3),
    (3, 0, 3, 6),
    (4, 1, 2, 8),
    (5, 1, 2, 11),
    (6, 1, 2, 14),
    (7, 2, 1, 16),
    (8, 2, 1, 19),
    (9, 2, 1, 22),
    (10, 3, 0, 24),
];

#[test]
fn after_a_failed_write_each_record_is_handed_back(rt: HostRuntime) -> Result<(), Fail> {
    for &(fail_at, count, refused, len) in &FAILURES {
        expect_write_failed(&rt, rt.alloc(), fail_at, count, refused, len)?;
    }
    Ok(())
}

/// The record files that put 1 at a, b and c, and that removes b and puts 2 at d; and what comes of
/// both.
const LATER: &[u8] = b"\0\x01b\xFF\xFF\xFF\xFF\0\x01d\0\0\0\x012";

const BOTH: &[u8] =
    b"\0\x01a\0\0\0\x011\0\x01b\xFF\xFF\xFF\xFF\0\x01c\0\0\0\x011\0\x01d\0\0\0\x012";

#[test]
fn two_files_are_merged_into_one(rt: HostRuntime) -> Result<(), Fail> {
    let alloc = rt.alloc();
    let left = RecordReader::new(alloc, 0, FromRead::new(THREE_PUTS), 1_000)?;
    let right = RecordReader::new(alloc, 1, FromRead::new(LATER), 1_000)?;
    let writer = RecordWriter::new(alloc, ScriptSink::new(alloc, 4_096, None));
    let merged = merge_two(&rt, left, right, writer);
    expect_eq(&rt, &merged.out.has_failed(), &false);
    expect_sent(&rt, (merged.out.count(), merged.out.end()), (4, End::Clean));
    expect_bytes(&rt, merged.out.into_sink().taken(), BOTH);
    Ok(())
}
