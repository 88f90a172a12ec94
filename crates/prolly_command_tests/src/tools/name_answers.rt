//! What is told of an output that is an input, or holds something else.
use super::expect_answer;
use prolly_fault::{Answer, NameFault};
use std::test::Fail;

/// What is wrong with the output, and the line that tells it.
const LINES: &[(NameFault, &[u8])] = &[
    (
        NameFault::IsPrintedTo,
        b"prolly: standard output is also an input: day one.rec\n",
    ),
    (
        NameFault::NotChunkFile,
        b"prolly: OUT is not a chunk file: day one.rec\n",
    ),
    (
        NameFault::NotProof,
        b"prolly: OUT is not a proof: day one.rec\n",
    ),
    (
        NameFault::NotRecordFile,
        b"prolly: OUT is not a record file: day one.rec\n",
    ),
    (
        NameFault::NotLines,
        b"prolly: OUT is not a file of lines: day one.rec\n",
    ),
    (
        NameFault::NotEmpty,
        b"prolly: OUT is not empty, and no files are named after it: day one.rec\n",
    ),
    (
        NameFault::IsBusy,
        b"prolly: another run writes OUT: day one.rec\n",
    ),
];

#[test]
fn tells_what_the_output_is_not(rt: HostRuntime) -> Result<(), Fail> {
    for &(fault, line) in LINES {
        let answer = Answer::of_name(rt.alloc(), fault, "day one.rec")?;
        expect_answer(&rt, &answer, 5, b"", line);
    }
    Ok(())
}
