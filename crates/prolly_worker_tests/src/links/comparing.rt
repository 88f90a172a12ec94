//! What came out, compared with what is expected. A comparison that can show both its sides makes a
//! large proof, so that it stands here once.
use prolly_link::{End, Out};
use std::fmt::Debug;
use std::process::Abort;
use std::sync::Wait;

/// Fails unless the value is the one that is expected.
pub(crate) fn expect_eq<T: PartialEq + Debug>(rt: &impl Abort, value: &T, expected: &T) {
    assert_eq!(rt; value, expected);
}

/// Fails unless the bytes are those that are expected.
pub(crate) fn expect_bytes(rt: &impl Abort, bytes: &[u8], expected: &[u8]) {
    expect_eq(rt, &bytes, &expected);
}

/// Fails unless so many items were sent, and then the end that is expected.
pub(crate) fn expect_sent(rt: &impl Abort, sent: (u64, End), expected: (u64, End)) {
    expect_eq(rt, &sent, &expected);
}

/// Sends these, and fails unless each of them is taken.
pub(crate) fn expect_all_taken<T: Drop, O: Out<T>>(
    rt: &(impl Abort + Wait),
    out: &mut O,
    items: Vec<T>,
) {
    for item in items {
        assert!(rt; out.send(rt, item).is_ok());
    }
}
