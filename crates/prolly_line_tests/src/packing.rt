//! Lines of text, as they are packed.
use crate::expect::{expect_bytes, expect_eq};
use prolly_test_parts::joined;
use prolly_text::{LineForm, LinesFault, Notation, PackFault, pack_lines, pack_lines_in};
use std::alloc::Global;
use std::process::Abort;
use std::test::Fail;

/// Lines in hexadecimal, their number, and the records that they stand for.
pub(crate) const HEX_LINES: &[(&[u8], u64, &[u8])] = &[
    (b"", 0, b""),
    (
        b"61 31\n62 31\n",
        2,
        b"\0\x01a\0\0\0\x011\0\x01b\0\0\0\x011",
    ),
    (b"61 31\n62 31", 2, b"\0\x01a\0\0\0\x011\0\x01b\0\0\0\x011"),
    (b" \n", 1, b"\0\0\0\0\0\0"),
    (b"61 -\n", 1, b"\0\x01a\xFF\xFF\xFF\xFF"),
    (b"6A 6a\n", 1, b"\0\x01j\0\0\0\x01j"),
    (
        b"62 31\n61 31\n",
        2,
        b"\0\x01b\0\0\0\x011\0\x01a\0\0\0\x011",
    ),
];

/// Lines of which one is not in hexadecimal, and the first such line.
const FAULTY_HEX_LINES: &[(&[u8], u64)] = &[
    (b"61\n", 0),
    (b"\n", 0),
    (b"61 31\r\n", 0),
    (b"61  31\n", 0),
    (b"61 31 \n", 0),
    (b"61 3\n", 0),
    (b"61 3g\n", 0),
    (b"- 31\n", 0),
    (b"61 --\n", 0),
    (b"61 31\n62 31\n\n", 2),
    (b"61 31\n62\n63\n", 1),
];

/// Packs lines in hexadecimal behind bytes that stay as they are, and compares what comes of it.
fn expect_packed(
    rt: &impl Abort,
    alloc: Global,
    text: &[u8],
    packed: Result<u64, PackFault>,
    records: &[u8],
) -> Result<(), Fail> {
    let mut out = b"kept".to_vec(alloc)?;
    expect_eq(rt, &pack_lines(alloc, text, &mut out), &packed);
    expect_bytes(rt, &out, &joined(alloc, &[b"kept", records])?);
    Ok(())
}

#[test]
fn packs_lines(rt: HostRuntime) -> Result<(), Fail> {
    for &(text, count, records) in HEX_LINES {
        expect_packed(&rt, rt.alloc(), text, Ok(count), records)?;
    }
    Ok(())
}

#[test]
fn names_the_first_faulty_line(rt: HostRuntime) -> Result<(), Fail> {
    for &(text, line) in FAULTY_HEX_LINES {
        expect_packed(&rt, rt.alloc(), text, Err(PackFault::BadLine { line }), b"")?;
    }
    Ok(())
}

/// Lines of text, whether a key alone is its removal, their number, and the records that they stand
/// for.
pub(crate) const TEXT_LINES: &[(&[u8], bool, u64, &[u8])] = &[
    (b"a\t1\n", false, 1, b"\0\x01a\0\0\0\x011"),
    // The escapes as the manual of PostgreSQL's COPY lists them.
    (
        b"\\b\\f\\n\\r\\t\\v\\x41\t\\\\",
        false,
        1,
        b"\0\x07\x08\x0c\x0a\x0d\x09\x0b\x41\0\0\0\x01\\",
    ),
    (b"\t\n", false, 1, b"\0\0\0\0\0\0"),
    (
        b"a\n\n",
        true,
        2,
        b"\0\x01a\xff\xff\xff\xff\0\0\xff\xff\xff\xff",
    ),
    (b"\xff\t", true, 1, b"\0\x01\xff\0\0\0\0"),
    // A byte order mark is a key as any other, but at the start of the text.
    (
        b"a\t\n\xEF\xBB\xBF\t\n",
        false,
        2,
        b"\0\x01a\0\0\0\0\0\x03\xEF\xBB\xBF\0\0\0\0",
    ),
    (
        b"\\xEF\xBB\xBF\t\n",
        false,
        1,
        b"\0\x03\xEF\xBB\xBF\0\0\0\0",
    ),
];

/// Lines of which one is no text, whether a key alone is its removal, and the first such line.
pub(crate) const FAULTY_TEXT_LINES: &[(&[u8], bool, u64)] = &[
    (b"a\n", false, 0),
    (b"a\t1\n\n", false, 1),
    (b"a\t1\t2\n", true, 0),
    (b"a\t1\r\n", true, 0),
    (b"\\q\t1\n", true, 0),
    (b"\\q\n", true, 0),
    (b"a\t1\nb\t\\\n", true, 1),
    (b"\\x4\t1\n", true, 0),
    (b"\\x4g\t1\n", true, 0),
    (b"\\101\t1\n", true, 0),
];

/// The same of lines of text, of which a key alone is a removal where that is asked for.
fn expect_text_packed(
    rt: &impl Abort,
    alloc: Global,
    (text, removals): (&[u8], bool),
    packed: Result<u64, LinesFault>,
    records: &[u8],
) -> Result<(), Fail> {
    let form = LineForm {
        notation: Notation::Text,
        removals,
    };
    let mut out = b"kept".to_vec(alloc)?;
    expect_eq(rt, &pack_lines_in(alloc, form, text, &mut out), &packed);
    expect_bytes(rt, &out, &joined(alloc, &[b"kept", records])?);
    Ok(())
}

#[test]
fn lines_of_text_are_packed(rt: HostRuntime) -> Result<(), Fail> {
    for &(text, removals, count, records) in TEXT_LINES {
        expect_text_packed(&rt, rt.alloc(), (text, removals), Ok(count), records)?;
    }
    Ok(())
}

#[test]
fn names_the_first_faulty_line_of_text(rt: HostRuntime) -> Result<(), Fail> {
    for &(text, removals, line) in FAULTY_TEXT_LINES {
        let fault = LinesFault::BadText { line };
        expect_text_packed(&rt, rt.alloc(), (text, removals), Err(fault), b"")?;
    }
    Ok(())
}

/// Texts that begin with a byte order mark, in a form, and what packing them comes to.
const MARKED_TEXTS: &[(Notation, &[u8], LinesFault)] = &[
    (
        Notation::Text,
        b"\xEF\xBB\xBFa\t1\n",
        LinesFault::ByteOrderMark,
    ),
    (Notation::Text, b"\xEF\xBB\xBF", LinesFault::ByteOrderMark),
    (
        Notation::Hex,
        b"\xEF\xBB\xBF61 31\n",
        LinesFault::Pack(PackFault::BadLine { line: 0 }),
    ),
];

#[test]
fn refuses_a_byte_order_mark(rt: HostRuntime) -> Result<(), Fail> {
    for &(notation, text, fault) in MARKED_TEXTS {
        let form = LineForm {
            notation,
            removals: false,
        };
        let mut out = Vec::new(rt.alloc());
        expect_eq(
            &rt,
            &pack_lines_in(rt.alloc(), form, text, &mut out),
            &Err(fault),
        );
    }
    Ok(())
}

/// A line of a key and a value of so many bytes.
fn line_of(alloc: Global, key: usize, value: usize) -> Result<Vec<u8>, Fail> {
    let mut line = Vec::new(alloc);
    for _ in 0..key {
        line.extend_from_slice(b"61")?;
    }
    line.push(b' ')?;
    for _ in 0..value {
        line.extend_from_slice(b"31")?;
    }
    Ok(line)
}

/// How many bytes a key and a value have, and what packing their line comes to.
const LIMITS: &[(usize, usize, Result<u64, PackFault>)] = &[
    (1_024, 65_536, Ok(1)),
    (1_025, 65_537, Err(PackFault::KeyTooLong { line: 0 })),
    (1_024, 65_537, Err(PackFault::ValueTooLong { line: 0 })),
];

#[test]
fn keeps_the_limits(rt: HostRuntime) -> Result<(), Fail> {
    for &(key, value, packed) in LIMITS {
        let line = line_of(rt.alloc(), key, value)?;
        let mut out = Vec::new(rt.alloc());
        expect_eq(&rt, &pack_lines(rt.alloc(), &line, &mut out), &packed);
    }
    Ok(())
}
