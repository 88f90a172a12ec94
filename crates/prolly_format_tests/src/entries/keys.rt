//! The order of keys.
use crate::expect::expect_eq;
use prolly_entry::key_order;
use std::cmp::Ordering;

const ORDERS: [(&[u8], &[u8], Ordering); 5] = [
    (b"", b"a", Ordering::Less),
    (b"a", b"a\0", Ordering::Less),
    (b"a\xFF", b"b", Ordering::Less),
    (b"\x80", b"\x7F", Ordering::Greater),
    (b"a", b"a", Ordering::Equal),
];

#[test]
fn compares_bytes_unsigned_and_prefixes_first(rt: HostRuntime) {
    for case in &ORDERS {
        let (one, other, _) = *case;
        expect_eq(&rt, &(one, other, key_order(one, other)), case);
    }
}
