//! The loader, over sources that end and fail in many ways.
ghost use Rattle.std.specs.Prelude.{◌<◌};

use crate::links::comparing::expect_sent;
use prolly_entry::{Record, append_record};
use prolly_io::{FromRead, ScriptSource, Source};
use prolly_link::{ClosedList, End, ListOut, RunFault};
use prolly_load::{Loaded, load};
use prolly_test_parts::Zeros;
use sources::Watched;
use std::alloc::{AllocError, Global};
use std::process::Abort;
use std::sync::Wait;
use std::test::Fail;

mod sources;

/// The record file that puts 1 at a, b and c, eight bytes a record.
pub(crate) const THREE_PUTS: &[u8] = b"\0\x01a\0\0\0\x011\0\x01b\0\0\0\x011\0\x01c\0\0\0\x011";

/// Loads a source as file 0 into a list.
pub(crate) fn load_all<S: Source>(
    rt: &impl Wait,
    alloc: Global,
    source: S,
    limit: u32,
) -> Loaded<S, ListOut<Record>> {
    load(rt, alloc, 0, source, limit, ListOut::new(alloc))
}

/// The bytes of these records in a file.
pub(crate) fn bytes_of(alloc: Global, records: &[Record]) -> Result<Vec<u8>, AllocError> {
    let mut bytes = Vec::new(alloc);
    for record in records {
        append_record(&mut bytes, record)?;
    }
    Ok(bytes)
}

/// Fails unless the first records of a file were sent, so many of them, and then this end.
pub(crate) fn expect_records(
    rt: &impl Abort,
    alloc: Global,
    sent: &ClosedList<Record>,
    file: &[u8],
    count: usize,
    end: End,
) -> Result<(), Fail> {
    assert!(rt; file.starts_with(&bytes_of(alloc, &sent.items)?));
    expect_sent(
        rt,
        (sent.items.len() as u64, sent.last),
        (count as u64, end),
    );
    Ok(())
}

/// Loads a file by reads of so many bytes, of which one may fail, and fails unless its first
/// records are sent, so many of them, and then this end.
fn expect_loaded<R: Abort + Wait>(
    rt: &R,
    alloc: Global,
    file: &[u8],
    step: usize,
    fail_at: Option<u64>,
    limit: u32,
    count: usize,
    end: End,
) -> Result<(), Fail>
    requires { 0 < step }
{
    let source = ScriptSource::new(file.to_vec(alloc)?, step, fail_at);
    let sent = load_all(rt, alloc, source, limit).out;
    expect_records(rt, alloc, &sent, file, count, end)
}

const CUT: End = End::Fault(RunFault::Truncated { file: 0, place: 0 });

const FIRST_KEY_TOO_LONG: End = End::Fault(RunFault::KeyTooLong { file: 0, place: 0 });

const SECOND_KEY_TOO_LONG: End = End::Fault(RunFault::KeyTooLong { file: 0, place: 1 });

const VALUE_TOO_LONG: End = End::Fault(RunFault::ValueTooLong { file: 0, place: 0 });

const OUT_OF_ORDER: End = End::Fault(RunFault::OutOfOrder { file: 0, place: 1 });

const TOO_MANY: End = End::Fault(RunFault::TooManyRecords { file: 0 });

pub(crate) const READ_FAILED: End = End::Fault(RunFault::Read { file: 0 });

/// Record files, the limit of records, how many are sent, and the end.
pub(crate) const FILES: [(&[u8], u32, usize, End); 17] = [
    (
        b"\0\x01a\0\0\0\x011\0\x01a\0\0\0\x012",
        1000,
        1,
        OUT_OF_ORDER,
    ),
    (b"\0", 1000, 0, CUT),
    (b"\0\x01", 1000, 0, CUT),
    (b"\0\x01a\0\0", 1000, 0, CUT),
    (b"\0\x01a\0\0\0\x021", 1000, 0, CUT),
    (b"\0\x01a\xFF\xFF\xFF", 1000, 0, CUT),
    (b"\x04\x01", 1000, 0, FIRST_KEY_TOO_LONG),
    (b"\0\x01a\0\0\0\x011\x04\x01", 1000, 1, SECOND_KEY_TOO_LONG),
    (b"\0\0\0\x01\0\x01", 1000, 0, VALUE_TOO_LONG),
    (b"\0\x01a\xFF\xFF\xFF\xFE", 1000, 0, VALUE_TOO_LONG),
    (b"\0\x01a\0\0\0\x011\0\x01b\0\0\0\x011\0", 2, 2, TOO_MANY),
    (b"\0\x01a\0\0\0\x011\0\x01b\0\0\0\x011", 2, 2, End::Clean),
    (b"\0\x01a\xFF\xFF\xFF\xFF\0", 1, 1, TOO_MANY),
    (b"\0\x01a\xFF\xFF\xFF\xFF", 1000, 1, End::Clean),
    (
        b"\0\x011\0\0\0\x011\0\x012\0\0\0\x011\0\x017\0\0\0\x011",
        1000,
        3,
        End::Clean,
    ),
    (
        b"\0\x01a\xFF\xFF\xFF\xFF\0\x01a\0\0\0\x011",
        1000,
        1,
        OUT_OF_ORDER,
    ),
    (
        b"\0\x015\xFF\xFF\xFF\xFF\0\x013\0\0\0\x011",
        1000,
        1,
        OUT_OF_ORDER,
    ),
];

#[test]
fn files_end_as_they_read_in_steps_of_any_size(rt: HostRuntime) -> Result<(), Fail> {
    for &(file, limit, count, end) in &FILES {
        for step in [1, 7, 8, 10, 4096] {
            expect_loaded(&rt, rt.alloc(), file, step, None, limit, count, end)?;
        }
    }
    Ok(())
}

#[test]
fn every_prefix_is_clean_or_cut(rt: HostRuntime) -> Result<(), Fail> {
    for len in 0..THREE_PUTS.len() {
        let source = FromRead::new(&THREE_PUTS[..len]);
        let sent = load_all(&rt, rt.alloc(), source, 1000).out;
        let count = len / 8;
        let end = if len % 8 == 0 {
            End::Clean
        } else {
            End::Fault(RunFault::Truncated {
                file: 0,
                place: count as u32,
            })
        };
        expect_records(&rt, rt.alloc(), &sent, THREE_PUTS, count, end)?;
    }
    Ok(())
}

// A read gives a byte, so the reads before the failed one gave a record for eight of them.
#[test]
fn what_was_read_before_a_failure_is_sent(rt: HostRuntime) -> Result<(), Fail> {
    for fail_at in 1..27 {
        let count = (fail_at as usize - 1) / 8;
        let end = if fail_at < 26 {
            READ_FAILED
        } else {
            End::Clean
        };
        let fail_at = Some(fail_at);
        expect_loaded(&rt, rt.alloc(), THREE_PUTS, 1, fail_at, 1000, count, end)?;
    }
    Ok(())
}

/// Record files, how many bytes a read gives, the limit of records, how many are sent, and the end.
const DECIDED_FILES: [(&[u8], usize, u32, usize, End); 4] = [
    (
        b"\0\x01a\0\0\0\x011\x04\x01",
        10,
        1000,
        1,
        SECOND_KEY_TOO_LONG,
    ),
    (
        b"\0\x01a\0\0\0\x011\0\x01b\0\0\0\x011\0",
        17,
        2,
        2,
        TOO_MANY,
    ),
    (
        b"\0\x01a\0\0\0\x011\0\x01a\0\0\0\0",
        15,
        1000,
        1,
        OUT_OF_ORDER,
    ),
    (
        b"\0\x01a\0\0\0\x011\0\x01b\0\0\0\x011",
        8,
        1000,
        1,
        READ_FAILED,
    ),
];

// The second read would fail.
#[test]
fn nothing_is_read_while_the_bytes_decide(rt: HostRuntime) -> Result<(), Fail> {
    for &(file, step, limit, count, end) in &DECIDED_FILES {
        expect_loaded(&rt, rt.alloc(), file, step, Some(2), limit, count, end)?;
    }
    Ok(())
}

#[test]
fn zeros_for_ever_are_out_of_order(rt: HostRuntime) -> Result<(), Fail> {
    let sent = load_all(&rt, rt.alloc(), Zeros, 2).out;
    expect_records(&rt, rt.alloc(), &sent, b"\0\0\0\0\0\0", 1, OUT_OF_ORDER)
}

/// Appends the record that puts a value of a letter at a key of that letter.
fn append_put(
    alloc: Global,
    file: &mut Vec<u8>,
    letter: u8,
    key_len: u16,
    value_len: u32,
) -> Result<(), Fail> {
    file.extend_from_slice(&key_len.to_be_bytes())?;
    file.extend_from_slice(&vec![in alloc; letter; key_len as usize]?)?;
    file.extend_from_slice(&value_len.to_be_bytes())?;
    file.extend_from_slice(&vec![in alloc; letter; value_len as usize]?)?;
    Ok(())
}

/// Four good records of the greatest sizes, and where the last key is repeated one more. Together
/// they are longer than the buffer, so that a key moves in it.
fn longest_records(alloc: Global, repeats: bool) -> Result<Vec<u8>, Fail> {
    let mut file = Vec::new(alloc);
    append_put(alloc, &mut file, b'j', 0, 65_536)?;
    append_put(alloc, &mut file, b'k', 1_024, 0)?;
    append_put(alloc, &mut file, b'l', 1_024, 65_536)?;
    append_put(alloc, &mut file, b'm', 1_024, 65_536)?;
    if repeats {
        append_put(alloc, &mut file, b'm', 1_024, 1)?;
    }
    Ok(file)
}

/// Loads a file by reads of so many bytes, and fails unless its first four records are sent, and
/// then this end, and each read had room.
fn expect_room<R: Abort + Wait>(
    rt: &R,
    alloc: Global,
    file: &[u8],
    step: usize,
    end: End,
) -> Result<(), Fail>
    requires { 0 < step }
{
    let script = ScriptSource::new(file.to_vec(alloc)?, step, None);
    let loaded = load_all(rt, alloc, Watched::new(script), 1000);
    assert!(rt; loaded.source.least_room() >= 4_096);
    expect_records(rt, alloc, &loaded.out, file, 4, end)
}

#[test]
fn longest_records_fit_and_reads_have_room(rt: HostRuntime) -> Result<(), Fail> {
    let alloc = rt.alloc();
    let good = longest_records(alloc, false)?;
    let repeated = longest_records(alloc, true)?;
    let fault = End::Fault(RunFault::OutOfOrder { file: 0, place: 4 });
    for step in [1, 7, 8, 10, 4_096, 70_000] {
        expect_room(&rt, alloc, &good, step, End::Clean)?;
        expect_room(&rt, alloc, &repeated, step, fault)?;
    }
    Ok(())
}
