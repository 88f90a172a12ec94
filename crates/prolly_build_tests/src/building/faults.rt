//! Builds that end in a fault.
ghost use Rattle.std.specs.Prelude.{◌<◌};

use super::*;

/// Builds from these sources, and fails unless there is this fault, or none, and the sink has taken
/// this many first bytes of the chunk file of a map, or all.
pub(super) fn expect_begun<R: Wait + Threads + Sync + Abort>(
    rt: &R,
    alloc: Global,
    config: &Config,
    sources: Vec<ScriptSource>,
    sink: ScriptSink,
    fault: Option<RunFault>,
    map: &[u8],
    taken: usize,
) -> Result<(), Fail> {
    let mut begun = file_of(alloc, map)?;
    begun.truncate(taken);
    expect_taken(rt, alloc, config, sources, sink, fault, &begun);
    Ok(())
}

/// The same over a sink that takes all.
fn expect_fault<R: Wait + Threads + Sync + Abort>(
    rt: &R,
    alloc: Global,
    config: &Config,
    sources: Vec<ScriptSource>,
    fault: Option<RunFault>,
    map: &[u8],
    taken: usize,
) -> Result<(), Fail> {
    let sink = open_sink(alloc);
    expect_begun(rt, alloc, config, sources, sink, fault, map, taken)
}

pub(super) const OUT_OF_ORDER: Option<RunFault> = Some(RunFault::OutOfOrder { file: 0, place: 1 });

const TOO_TALL: Option<RunFault> = Some(RunFault::TooTall);

pub(super) const WRITE_FAILED: Option<RunFault> = Some(RunFault::Write);

/// Record files, the stages and the limit of records they are built with, the fault, if any, the map
/// of the file that is begun, and how many bytes of it are written. Where there is a fault it has no
/// end record, which has 29 bytes.
const FAULTY_FILES: [(&[&[u8]], u8, u32, Option<RunFault>, &[u8], usize); 14] = [
    (&[b"a1a2"], 12, 1_000, OUT_OF_ORDER, b"a1", 24),
    (&[b"a1a2", b""], 12, 1_000, OUT_OF_ORDER, b"a1", 24),
    (
        &[b"5131", b"112171"],
        12,
        1_000,
        OUT_OF_ORDER,
        b"112151",
        116,
    ),
    (&[b"5131", b"5131"], 12, 1_000, OUT_OF_ORDER, b"51", 24),
    (&[b"5-31", b"112171"], 12, 1_000, OUT_OF_ORDER, b"1121", 98),
    (&[b"a-a1"], 12, 1_000, OUT_OF_ORDER, b"", 6),
    (
        &[b"a1b1", b"c1c2"],
        12,
        1_000,
        Some(RunFault::OutOfOrder { file: 1, place: 1 }),
        b"a1b1c1",
        116,
    ),
    (
        &[b"", b"a1b1c1"],
        12,
        2,
        Some(RunFault::TooManyRecords { file: 1 }),
        b"a1b1",
        98,
    ),
    (&[b"a1b1", b"c1d1"], 12, 2, None, b"a1b1c1d1", 275),
    (&[b"a1b1c1"], 2, 1_000, TOO_TALL, b"a1b1c1", 116),
    (&[b"a1b1c1", b""], 2, 3, TOO_TALL, b"a1b1c1", 116),
    (&[b"a1", b"b1"], 1, 1, TOO_TALL, b"a1b1", 24),
    (
        &[b"a1b1c1d1d1"],
        2,
        1_000,
        Some(RunFault::OutOfOrder { file: 0, place: 4 }),
        b"a1b1c1d1",
        134,
    ),
    (
        &[b"a1b1c1d1d1", b""],
        2,
        5,
        Some(RunFault::OutOfOrder { file: 0, place: 4 }),
        b"a1b1c1d1",
        134,
    ),
];

#[test]
fn inputs_have_faults(rt: HostRuntime) -> Result<(), Fail> {
    let alloc = rt.alloc();
    for &(files, stages, limit, fault, map, taken) in &FAULTY_FILES {
        let config = Config::new(0, stages, 4, limit)?;
        let sources = sources_of(alloc, files)?;
        expect_fault(&rt, alloc, &config, sources, fault, map, taken)?;
    }
    Ok(())
}

/// A source of these bytes alone.
pub(super) fn source_of(
    alloc: Global,
    file: &[u8],
    step: usize,
    fail_at: Option<u64>,
) -> Result<Vec<ScriptSource>, Fail>
    requires { 0 < step }
{
    let mut sources = Vec::new(alloc);
    sources.push(ScriptSource::new(file.to_vec(alloc)?, step, fail_at))?;
    Ok(sources)
}

const CUT: Option<RunFault> = Some(RunFault::Truncated { file: 0, place: 0 });

const LONG_KEY: Option<RunFault> = Some(RunFault::KeyTooLong { file: 0, place: 0 });

const LONG_VALUE: Option<RunFault> = Some(RunFault::ValueTooLong { file: 0, place: 0 });

const MANY: Option<RunFault> = Some(RunFault::TooManyRecords { file: 0 });

const READ_FAILED: Option<RunFault> = Some(RunFault::Read { file: 0 });

const SECOND_LONG_KEY: Option<RunFault> = Some(RunFault::KeyTooLong { file: 0, place: 1 });

/// Record files, the limit of records they are built with, how many bytes a read gives, the read
/// that would fail, the fault, and how many bytes of the chunk file of a=1 and b=1 are written.
const CUT_FILES: [(&[u8], u32, usize, Option<u64>, Option<RunFault>, usize); 13] = [
    (b"\0", 1_000, 4_096, None, CUT, 6),
    (b"\0\x01", 1_000, 4_096, None, CUT, 6),
    (b"\0\x01a\0\0", 1_000, 4_096, None, CUT, 6),
    (b"\0\x01a\0\0\0\x021", 1_000, 4_096, None, CUT, 6),
    (b"\0\x01a\xFF\xFF\xFF", 1_000, 4_096, None, CUT, 6),
    (b"\x04\x01", 1_000, 4_096, None, LONG_KEY, 6),
    (b"\0\0\0\x01\0\x01", 1_000, 4_096, None, LONG_VALUE, 6),
    (
        b"\0\x01a\xFF\xFF\xFF\xFE",
        1_000,
        4_096,
        None,
        LONG_VALUE,
        6,
    ),
    (b"\0\x01a\xFF\xFF\xFF\xFF\0", 1, 4_096, None, MANY, 6),
    (
        b"\0\x01a\0\0\0\x011\0\x01b\0\0\0\x011\0",
        2,
        4_096,
        None,
        MANY,
        98,
    ),
    (
        b"\0\x01a\0\0\0\x011\0\x01b\0\0\0\x011",
        2,
        4_096,
        None,
        None,
        127,
    ),
    (
        b"\0\x01a\0\0\0\x011\0\x01b\0\0\0\x011",
        1_000,
        8,
        Some(2),
        READ_FAILED,
        24,
    ),
    (
        b"\0\x01a\0\0\0\x011\x04\x01",
        1_000,
        10,
        Some(2),
        SECOND_LONG_KEY,
        24,
    ),
];

// Where a read would fail, it is the second one.
#[test]
fn files_are_cut_and_second_reads_fail(rt: HostRuntime) -> Result<(), Fail> {
    let alloc = rt.alloc();
    for &(file, limit, step, fail_at, fault, taken) in &CUT_FILES {
        let config = Config::new(0, 12, 4, limit)?;
        let sources = source_of(alloc, file, step, fail_at)?;
        expect_fault(&rt, alloc, &config, sources, fault, b"a1b1", taken)?;
    }
    Ok(())
}

/// The record file of a=1, b=1 and c=1.
pub(super) const THREE_PUTS: &[u8] = b"\0\x01a\0\0\0\x011\0\x01b\0\0\0\x011\0\x01c\0\0\0\x011";

/// The first and the last of the reads of which one fails, the fault, and how many bytes are
/// written.
const FAILED_READS: [(u64, u64, Option<RunFault>, usize); 5] = [
    (1, 8, READ_FAILED, 6),
    (9, 16, READ_FAILED, 24),
    (17, 24, READ_FAILED, 98),
    (25, 25, READ_FAILED, 116),
    (26, 26, None, 234),
];

// A read gives a byte, so the reads before the failed one gave a record for eight of them. The 26th
// would come after the end of the file.
#[test]
fn reads_fail(rt: HostRuntime) -> Result<(), Fail> {
    let alloc = rt.alloc();
    let config = settings(12)?;
    for &(first, last, fault, taken) in &FAILED_READS {
        for fail_at in first..=last {
            let sources = source_of(alloc, THREE_PUTS, 1, Some(fail_at))?;
            expect_fault(&rt, alloc, &config, sources, fault, b"a1b1c1", taken)?;
        }
    }
    Ok(())
}

// A write takes a byte. The last call is the flush, before which the file is whole.
#[test]
fn writes_fail(rt: HostRuntime) -> Result<(), Fail> {
    let alloc = rt.alloc();
    let config = settings(3)?;
    for taken in 0..=234 {
        let sources = sources_of(alloc, &[b"a1b1c1"])?;
        let sink = ScriptSink::new(alloc, 1, Some(taken as u64 + 1));
        expect_begun(
            &rt,
            alloc,
            &config,
            sources,
            sink,
            WRITE_FAILED,
            b"a1b1c1",
            taken,
        )?;
    }
    Ok(())
}
