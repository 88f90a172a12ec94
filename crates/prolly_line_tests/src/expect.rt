//! Values, compared. A comparison that can show both its sides makes a large proof, so that it
//! stands here once.
use std::fmt::Debug;
use std::process::Abort;

/// Fails unless the value is the one that is expected.
pub(crate) fn expect_eq<T: PartialEq + Debug>(rt: &impl Abort, value: &T, expected: &T) {
    assert_eq!(rt; value, expected);
}

/// Fails unless the bytes are those that are expected.
pub(crate) fn expect_bytes(rt: &impl Abort, bytes: &[u8], expected: &[u8]) {
    expect_eq(rt, &bytes, &expected);
}
