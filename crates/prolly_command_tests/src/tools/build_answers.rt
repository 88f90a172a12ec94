//! What `build` answers.
use super::expect_answer;
use prolly_entry::Ref;
use prolly_link::RunFault;
use prolly_report::Report;
use prolly_runs::answer_build;
use std::test::Fail;

/// The root of the chunk file of a=1, b=1 and c=1, of 0 bits.
const ROOT_OF_THREE: Ref = Ref([
    0x99, 0x9E, 0x24, 0x8A, 0x92, 0x65, 0x82, 0x5B, 0x3A, 0x39, 0x54, 0x9B, 0xFA, 0x46, 0xB9, 0xE3,
    0x36, 0x06, 0x4F, 0x9C,
]);

#[test]
fn shows_the_report(rt: HostRuntime) -> Result<(), Fail> {
    let report = Report {
        root: ROOT_OF_THREE,
        chunks: 6,
        pairs: 3,
        levels: 3,
    };
    let answer = answer_build(rt.alloc(), &Ok(report))?;
    let line = b"j6f292kicm15mehpaidvkhlpscr0cjss 6 3 3\n";
    expect_answer(&rt, &answer, 0, line, b"");
    Ok(())
}

/// Each fault of a run, the status, and the line on standard error.
const FAULTS: &[(RunFault, u8, &[u8])] = &[
    (RunFault::Memory, 6, b"prolly: out of memory\n"),
    (
        RunFault::Read { file: 10 },
        5,
        b"prolly: file 10: read failed\n",
    ),
    (
        RunFault::Truncated {
            file: 2,
            place: 4_294_967_295,
        },
        3,
        b"prolly: file 2: record 4294967295 is cut\n",
    ),
    (
        RunFault::KeyTooLong { file: 3, place: 40 },
        3,
        b"prolly: file 3: record 40: key too long\n",
    ),
    (
        RunFault::ValueTooLong { file: 15, place: 0 },
        3,
        b"prolly: file 15: record 0: value too long\n",
    ),
    (
        RunFault::OutOfOrder { file: 0, place: 1 },
        3,
        b"prolly: file 0: record 1: key out of order\n",
    ),
    (
        RunFault::TooManyRecords { file: 7 },
        3,
        b"prolly: file 7: too many records\n",
    ),
    (RunFault::Write, 5, b"prolly: write failed\n"),
    (RunFault::TooTall, 7, b"prolly: tree too tall\n"),
    (
        RunFault::NoThread,
        6,
        b"prolly: a thread could not be started\n",
    ),
    (RunFault::Lost, 6, b"prolly: a worker was lost\n"),
    (RunFault::TooManyFiles, 3, b"prolly: too many files\n"),
];

#[test]
fn tells_each_fault(rt: HostRuntime) -> Result<(), Fail> {
    for &(fault, status, line) in FAULTS {
        let answer = answer_build(rt.alloc(), &Err(fault))?;
        expect_answer(&rt, &answer, status, b"", line);
    }
    Ok(())
}
