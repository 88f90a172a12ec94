//! What bytes begin with.
use crate::expect::expect_eq;
use prolly_entry::{Front, FrontRecord, front_pair, front_record};

/// What bytes begin with, in a word, and where the key, what stands before the value, and the whole
/// end.
type Told = (&'static str, [usize; 3]);

const PAIR_FRONTS: &[(&[u8], Told)] = &[
    (b"", ("more", [0; 3])),
    (b"\x05", ("more", [0; 3])),
    (b"\0\x01a", ("more", [0; 3])),
    (b"\0\x01a\xFF", ("more", [0; 3])),
    (b"\x04\x01", ("key too long", [0; 3])),
    (b"\0\0\0\x01\0\x01", ("value too long", [0; 3])),
    (b"\0\x01a\0\0\0\x011 and more", ("pair", [3, 7, 8])),
    (REMOVAL, ("value too long", [0; 3])),
];

const REMOVAL: &[u8] = b"\0\x01a\xFF\xFF\xFF\xFF";

fn told_pair(front: Front) -> Told {
    match front {
        Front::Pair {
            key_end,
            value_start,
            len,
        } => ("pair", [key_end, value_start, len]),
        Front::More => ("more", [0; 3]),
        Front::KeyTooLong => ("key too long", [0; 3]),
        Front::ValueTooLong => ("value too long", [0; 3]),
    }
}

fn told_record(front: FrontRecord) -> Told {
    match front {
        FrontRecord::Remove { key_end, len } => ("removal", [key_end, key_end, len]),
        FrontRecord::Put {
            key_end,
            value_start,
            len,
        } => ("put", [key_end, value_start, len]),
        FrontRecord::More => ("more", [0; 3]),
        FrontRecord::KeyTooLong => ("key too long", [0; 3]),
        FrontRecord::ValueTooLong => ("value too long", [0; 3]),
    }
}

#[test]
fn finds_what_bytes_begin_with(rt: HostRuntime) {
    for &(bytes, front) in PAIR_FRONTS {
        expect_eq(&rt, &told_pair(front_pair(bytes)), &front);
    }
}

/// Bytes that begin with a removal, with a part of one, and with what is nearly one.
const RECORD_FRONTS: &[(&[u8], Told)] = &[
    (REMOVAL, ("removal", [3, 3, 7])),
    (b"\0\x01a\xFF\xFF\xFF", ("more", [0; 3])),
    (b"\0\x01a\xFF\xFF\xFF\xFE", ("value too long", [0; 3])),
];

#[test]
fn finds_a_removal(rt: HostRuntime) {
    for &(bytes, front) in RECORD_FRONTS {
        expect_eq(&rt, &told_record(front_record(bytes)), &front);
    }
}
