//! Child entries, as they are spelled.
use crate::expect::expect_eq;
use prolly_entry::{ChildAt, Version, front_child, front_child_as};

/// A child whose greatest key is `a` and whose reference begins the SHA-512 of `abc`, with a count
/// of 5 behind it.
const ENTRY: [u8; 31] = [
    0x00, 0x01, 0x61, 0xdd, 0xaf, 0x35, 0xa1, 0x93, 0x61, 0x7a, 0xba, 0xcc, 0x41, 0x73, 0x49, 0xae,
    0x20, 0x41, 0x31, 0x12, 0xe6, 0xfa, 0x4e, 0x00, 0x00, 0x00, 0x00, 0x00, 0x00, 0x00, 0x05,
];

/// Where the key of a child ends, and where its entry does.
fn ends(child: Option<ChildAt>) -> Option<(usize, usize)> {
    match child {
        Some(child) => Some((child.key_end, child.len)),
        None => None,
    }
}

#[test]
fn finds_an_entry_once_it_is_whole(rt: HostRuntime) {
    expect_eq(&rt, &ends(front_child(&ENTRY[..22])), &None);
    expect_eq(&rt, &ends(front_child(&ENTRY[..23])), &Some((3, 23)));
    expect_eq(&rt, &ends(front_child(&ENTRY)), &Some((3, 23)));
}

#[test]
fn wants_a_count_in_version_two(rt: HostRuntime) {
    let cut = front_child_as(Version::Two, &ENTRY[..23]);
    expect_eq(&rt, &ends(cut), &None);
    let whole = front_child_as(Version::Two, &ENTRY);
    expect_eq(&rt, &ends(whole), &Some((3, 31)));
}

#[test]
fn refuses_a_key_over_the_limit(rt: HostRuntime) {
    let mut bytes = [0; 2_002];
    bytes[0] = 0x04;
    expect_eq(&rt, &ends(front_child(&bytes)), &Some((1_026, 1_046)));
    bytes[1] = 0x01;
    expect_eq(&rt, &ends(front_child(&bytes)), &None);
}
