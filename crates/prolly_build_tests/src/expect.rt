//! What came out, compared with what is expected. A comparison that can show both its sides makes a
//! large proof, so that it stands here once.
use prolly_build::Report;
use prolly_link::RunFault;
use std::fmt::Debug;
use std::process::Abort;

/// Fails unless the value is the one that is expected.
pub(crate) fn expect_eq<T: PartialEq + Debug>(rt: &impl Abort, value: &T, expected: &T) {
    assert_eq!(rt; value, expected);
}

/// Fails unless the bytes are those that are expected.
pub(crate) fn expect_bytes(rt: &impl Abort, bytes: &[u8], expected: &[u8]) {
    expect_eq(rt, &bytes, &expected);
}

/// Fails unless a build ended in the fault that is expected, or in none, gave back so many sources,
/// and wrote those bytes.
pub(crate) fn expect_outcome(
    rt: &impl Abort,
    outcome: (Option<RunFault>, usize, &[u8]),
    expected: (Option<RunFault>, usize, &[u8]),
) {
    expect_eq(rt, &outcome, &expected);
}

/// Fails unless these are the numbers of chunks, pairs and levels of a report.
pub(crate) fn expect_numbers(rt: &impl Abort, report: &Report, expected: (u64, u64, u8)) {
    expect_eq(rt, &(report.chunks, report.pairs, report.levels), &expected);
}
