//! Builds whose chunk file has a length and a report that were worked out from the format.
ghost use Rattle.std.specs.Prelude.{◌<◌};

use super::faults::{OUT_OF_ORDER, THREE_PUTS, WRITE_FAILED, expect_begun, source_of};
use super::*;
use prolly_io::{FromRead, ToWrite};
use prolly_test_parts::{chunk_file, joined};

const FIVE: &[u8] = b"a1b1c1d1e1";

/// Record files, the map that they come to, the length of its chunk file, and the numbers of
/// chunks, pairs and levels.
const WHOLE_FILES: [(&[&[u8]], &[u8], usize, (u64, u64, u8)); 13] = [
    (&[], b"", 45, (1, 0, 1)),
    (&[b""], b"", 45, (1, 0, 1)),
    (&[b"a-"], b"", 45, (1, 0, 1)),
    (&[b"a1"], b"a1", 53, (1, 1, 1)),
    (&[b"a1b1", b"a-"], b"b1", 53, (1, 1, 1)),
    (&[b"a1", b"a-", b"a2"], b"a2", 53, (1, 1, 1)),
    (&[b"a1", b"b1", b"a-", b""], b"b1", 53, (1, 1, 1)),
    (&[b"a1b1"], b"a1b1", 127, (3, 2, 2)),
    (&[b"a1b1c1"], b"a1b1c1", 234, (6, 3, 3)),
    (&[b"a1", b"b1", b"c1", b"d1"], b"a1b1c1d1", 275, (7, 4, 3)),
    (&[FIVE], FIVE, 415, (11, 5, 4)),
    (&[b"a1d1", b"b1", b"c1e1"], FIVE, 415, (11, 5, 4)),
    (&[b"a0c0e0", FIVE], FIVE, 415, (11, 5, 4)),
];

/// The capacity of the links, and the size of a batch.
const LINKS: [(u32, u32); 5] = [(4, 1), (1, 1), (1, 2), (1, 3), (1, 1_024)];

/// Builds from these files over links of each size, and compares the chunk file and the numbers.
fn expect_over_links<R: Wait + Threads + Sync + Abort>(
    rt: &R,
    alloc: Global,
    files: &[&[u8]],
    file: &[u8],
    numbers: (u64, u64, u8),
) -> Result<(), Fail> {
    for &(capacity, batch) in &LINKS {
        let config = settings_of(0, 12, capacity, batch, Version::One)?;
        let report = expect_file(rt, alloc, &config, &OpenGate, files, file)?;
        expect_numbers(rt, &report, numbers);
    }
    Ok(())
}

#[test]
fn links_of_any_size_give_the_same(rt: HostRuntime) -> Result<(), Fail> {
    for &(files, map, length, numbers) in &WHOLE_FILES {
        let file = file_of(rt.alloc(), map)?;
        assert!(rt; file.len() == length);
        expect_over_links(&rt, rt.alloc(), files, &file, numbers)?;
    }
    Ok(())
}

/// Maps, the stages they are built with, the fault, if any, and how many bytes are written in
/// version Two.
const VERSION_TWO: [(&[u8], u8, Option<RunFault>, usize); 4] = [
    (b"a1", 12, None, 53),
    (b"a1b1", 12, None, 143),
    (b"a1b1c1", 12, None, 274),
    (b"a1b1c1", 2, Some(RunFault::TooTall), 132),
];

/// So many first bytes of the chunk file of a map in version Two, which has at least as many.
fn begun_in_version_two(
    rt: &impl Abort,
    alloc: Global,
    map: &[u8],
    taken: usize,
) -> Result<Vec<u8>, Fail> {
    let mut begun = file_cut(alloc, 0, Version::Two, map)?;
    begun.truncate(taken);
    assert!(rt; begun.len() == taken);
    assert!(rt; begun.starts_with(b"PRLY\x02"));
    Ok(begun)
}

#[test]
fn version_two_is_longer(rt: HostRuntime) -> Result<(), Fail> {
    for &(map, stages, fault, taken) in &VERSION_TWO {
        let begun = begun_in_version_two(&rt, rt.alloc(), map, taken)?;
        let config = settings_of(0, stages, 4, 1, Version::Two)?;
        let sources = sources_of(rt.alloc(), &[map])?;
        let sink = open_sink(rt.alloc());
        expect_taken(&rt, rt.alloc(), &config, sources, sink, fault, &begun);
    }
    Ok(())
}

/// The record file of a=1 and a=2.
const KEY_TWICE: &[u8] = b"\0\x01a\0\0\0\x011\0\x01a\0\0\0\x012";

/// A record file, the capacity of the links, how many bytes a source gives and a sink takes at a
/// time, the call of the sink that fails, the fault, and how many bytes are written.
const SMALL_STEPS: [(
    &[u8],
    u32,
    usize,
    usize,
    Option<u64>,
    Option<RunFault>,
    usize,
); 6] = [
    (THREE_PUTS, 1, 1, 65_536, None, None, 234),
    (THREE_PUTS, 4, 4_096, 1, None, None, 234),
    (THREE_PUTS, 4, 4_096, 1, Some(3), WRITE_FAILED, 2),
    (THREE_PUTS, 4, 4_096, 1, Some(235), WRITE_FAILED, 234),
    (THREE_PUTS, 4, 4_096, 0, None, WRITE_FAILED, 0),
    (KEY_TWICE, 4, 4_096, 1, Some(10), OUT_OF_ORDER, 9),
];

// A source gives a byte at a read, and a sink takes a byte at a write, or none. A fault of a file
// is told also where the sink has failed.
#[test]
fn devices_go_in_small_steps(rt: HostRuntime) -> Result<(), Fail> {
    let alloc = rt.alloc();
    for &(file, capacity, step, sink_step, fail_at, fault, taken) in &SMALL_STEPS {
        let config = Config::new(0, 12, capacity, 1_000)?;
        let sources = source_of(alloc, file, step, None)?;
        let sink = ScriptSink::new(alloc, sink_step, fail_at);
        expect_begun(&rt, alloc, &config, sources, sink, fault, b"a1b1c1", taken)?;
    }
    Ok(())
}

/// The chunk file of three puts, from a reader of std to a writer of std.
fn file_by_std<R: Wait + Threads + Sync>(rt: &R, alloc: Global) -> Result<Vec<u8>, Fail> {
    let config = settings(12)?;
    let mut sources = Vec::new(alloc);
    sources.push(FromRead::new(THREE_PUTS))?;
    let mut out = Vec::new(alloc);
    let mut sink = ToWrite::new(&mut out);
    build(rt, alloc, &config, &mut sources, &mut sink, &OpenGate)?;
    Ok(out)
}

#[test]
fn readers_and_writers_of_std_serve(rt: HostRuntime) -> Result<(), Fail> {
    let out = file_by_std(&rt, rt.alloc())?;
    assert!(rt; out.len() == 234);
    expect_bytes(&rt, &out, &file_of(rt.alloc(), b"a1b1c1")?);
    Ok(())
}

/// The record of a key and a value of these lengths.
fn record_of_lengths(alloc: Global, key: u16, value: u32) -> Result<Vec<u8>, Fail> {
    Ok(joined(
        alloc,
        &[
            &key.to_be_bytes(),
            &vec![in alloc; b'k'; key as usize]?,
            &value.to_be_bytes(),
            &vec![in alloc; b'v'; value as usize]?,
        ],
    )?)
}

/// The chunk file of this one record: its leaf is a zero and the record.
fn file_of_record(alloc: Global, record: &[u8]) -> Result<Vec<u8>, Fail> {
    let leaf = joined(alloc, &[b"\0", record])?;
    Ok(chunk_file(alloc, [1, 0], &[&leaf])?)
}

#[test]
fn the_longest_keys_and_values_are_built(rt: HostRuntime) -> Result<(), Fail> {
    let alloc = rt.alloc();
    let config = settings(12)?;
    for (key, value, length) in [(1_024, 0, 1_075), (0, 65_536, 65_587)] {
        let record = record_of_lengths(alloc, key, value)?;
        let file = file_of_record(alloc, &record)?;
        assert!(rt; file.len() == length);
        let sources = source_of(alloc, &record, 4_096, None)?;
        expect_taken(&rt, alloc, &config, sources, open_sink(alloc), None, &file);
    }
    Ok(())
}
