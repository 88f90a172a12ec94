//! What `get`, `scan`, `nth` and `check` answer.
use super::expect_answer;
use prolly_answer::{
    answer_check, answer_get, answer_get_by_root, answer_get_in, answer_nth, answer_nth_by_root,
    answer_nth_in, answer_scan, answer_scan_in,
};
use prolly_check::OneThread;
use prolly_entry::{Ref, Sha512Cut, Version};
use prolly_file::scratch_as;
use prolly_io::{FromRead, ScriptDevice};
use prolly_root::FileChunks;
use prolly_test_parts::pairs_of;
use prolly_text::Notation;
use std::alloc::Global;
use std::process::Abort;
use std::test::Fail;

/// The chunk file of a=1, b=1 and c=1, of 0 bits, and the root.
fn tree_of_three(alloc: Global, version: Version) -> Result<(Vec<u8>, Ref), Fail> {
    let mut file = Vec::new(alloc);
    let cut = Sha512Cut::new(0).ok_or("bits")?;
    let pairs = pairs_of(alloc, &[b"a", b"b", b"c"])?;
    let root = scratch_as(alloc, cut, version, &pairs, 12, &mut file)?;
    Ok((file, root))
}

/// The chunk file of a=1, b=1 and c=1, of 0 bits.
pub(crate) fn file_of_three(alloc: Global, version: Version) -> Result<Vec<u8>, Fail> {
    Ok(tree_of_three(alloc, version)?.0)
}

/// The root of its tree.
pub(crate) fn root_of_three(alloc: Global, version: Version) -> Result<Ref, Fail> {
    Ok(tree_of_three(alloc, version)?.1)
}

/// The chunks of a file; at 1 its first read fails, and at 0 none does.
pub(crate) fn chunks_of(
    alloc: Global,
    file: &[u8],
    fail_at: u64,
) -> Result<FileChunks<ScriptDevice>, Fail> {
    let device = ScriptDevice::new(file.to_vec(alloc)?, Some(fail_at));
    Ok(FileChunks::new(device))
}

/// Keys, the status, and what is shown in hexadecimal and as text.
const VALUES: &[(&[u8], u8, &[u8], &[u8])] = &[
    (b"a", 0, b"31\n", b"1\n"),
    (b"c", 0, b"31\n", b"1\n"),
    (b"", 1, b"", b""),
    (b"b\0", 1, b"", b""),
    (b"z", 1, b"", b""),
];

#[test]
fn a_value_is_shown_or_the_status_tells_that_there_is_none(rt: HostRuntime) -> Result<(), Fail> {
    let alloc = rt.alloc();
    let file = file_of_three(alloc, Version::One)?;
    for &(key, status, hex, text) in VALUES {
        let answer = answer_get(alloc, &mut FromRead::new(file.as_slice()), key)?;
        expect_answer(&rt, &answer, status, hex, b"");
        let mut source = FromRead::new(file.as_slice());
        let answer = answer_get_in(&OneThread, alloc, &mut source, key, Notation::Text)?;
        expect_answer(&rt, &answer, status, text, b"");
    }
    Ok(())
}

#[test]
fn by_the_root_a_value_is_shown_or_a_failed_read_is(rt: HostRuntime) -> Result<(), Fail> {
    let alloc = rt.alloc();
    let version = Version::Two;
    let (file, root) = tree_of_three(alloc, version)?;
    for &(key, status, hex, text) in VALUES {
        let mut chunks = chunks_of(alloc, &file, 0)?;
        let answer = answer_get_by_root(alloc, &mut chunks, version, &root, key, Notation::Hex)?;
        expect_answer(&rt, &answer, status, hex, b"");
        let answer = answer_get_by_root(alloc, &mut chunks, version, &root, key, Notation::Text)?;
        expect_answer(&rt, &answer, status, text, b"");
    }
    let mut chunks = chunks_of(alloc, &file, 1)?;
    let answer = answer_get_by_root(alloc, &mut chunks, version, &root, b"a", Notation::Hex)?;
    expect_answer(&rt, &answer, 5, b"", b"prolly: chunk file: read failed\n");
    Ok(())
}

/// The key from which on pairs are wanted, how many at most, and what is shown in hexadecimal and
/// as text.
const SCANS: &[(&[u8], u32, &[u8], &[u8])] = &[
    (b"b", 5, b"62 31\n63 31\n", b"b\t1\nc\t1\n"),
    (b"b", 1, b"62 31\n", b"b\t1\n"),
    (b"", 0, b"", b""),
    (b"", 10, b"61 31\n62 31\n63 31\n", b"a\t1\nb\t1\nc\t1\n"),
];

#[test]
fn a_line_is_shown_for_each_pair_of_a_scan(rt: HostRuntime) -> Result<(), Fail> {
    let alloc = rt.alloc();
    let file = file_of_three(alloc, Version::One)?;
    for &(from, limit, hex, text) in SCANS {
        let answer = answer_scan(alloc, &mut FromRead::new(file.as_slice()), from, limit)?;
        expect_answer(&rt, &answer, 0, hex, b"");
        let mut source = FromRead::new(file.as_slice());
        let answer = answer_scan_in(&OneThread, alloc, &mut source, from, limit, Notation::Text)?;
        expect_answer(&rt, &answer, 0, text, b"");
    }
    Ok(())
}

/// The version of a file, a number, the status, and what is shown in hexadecimal, as text, and on
/// standard error.
const NUMBERS: &[(Version, u64, u8, &[u8], &[u8], &[u8])] = &[
    (Version::Two, 0, 0, b"61 31\n", b"a\t1\n", b""),
    (Version::Two, 2, 0, b"63 31\n", b"c\t1\n", b""),
    (Version::Two, 3, 1, b"", b"", b""),
    (
        Version::One,
        0,
        4,
        b"",
        b"",
        b"prolly: chunk file: no counts\n",
    ),
];

#[test]
fn the_pair_of_a_number_is_shown(rt: HostRuntime) -> Result<(), Fail> {
    let alloc = rt.alloc();
    for &(version, n, status, hex, text, err) in NUMBERS {
        let file = file_of_three(alloc, version)?;
        let answer = answer_nth(alloc, &mut FromRead::new(file.as_slice()), n)?;
        expect_answer(&rt, &answer, status, hex, err);
        let mut source = FromRead::new(file.as_slice());
        let answer = answer_nth_in(&OneThread, alloc, &mut source, n, Notation::Text)?;
        expect_answer(&rt, &answer, status, text, err);
    }
    Ok(())
}

#[test]
fn by_the_root_the_pair_of_a_number_is_shown(rt: HostRuntime) -> Result<(), Fail> {
    let alloc = rt.alloc();
    for &(version, n, status, hex, text, err) in NUMBERS {
        let (file, root) = tree_of_three(alloc, version)?;
        let mut chunks = chunks_of(alloc, &file, 0)?;
        let answer = answer_nth_by_root(alloc, &mut chunks, version, &root, n, Notation::Hex)?;
        expect_answer(&rt, &answer, status, hex, err);
        let answer = answer_nth_by_root(alloc, &mut chunks, version, &root, n, Notation::Text)?;
        expect_answer(&rt, &answer, status, text, err);
    }
    Ok(())
}

/// The version of a tree, the status where the first read fails, and what is told. Where there are
/// no counts, nothing is read.
const UNREAD: &[(Version, u8, &[u8])] = &[
    (Version::One, 4, b"prolly: chunk file: no counts\n"),
    (Version::Two, 5, b"prolly: chunk file: read failed\n"),
];

#[test]
fn by_the_root_no_pair_is_shown_where_a_read_fails(rt: HostRuntime) -> Result<(), Fail> {
    let alloc = rt.alloc();
    for &(version, status, err) in UNREAD {
        let (file, root) = tree_of_three(alloc, version)?;
        let mut chunks = chunks_of(alloc, &file, 1)?;
        let answer = answer_nth_by_root(alloc, &mut chunks, version, &root, 0, Notation::Hex)?;
        expect_answer(&rt, &answer, status, b"", err);
    }
    Ok(())
}

#[test]
fn a_lawful_file_is_told_with_its_root(rt: HostRuntime) -> Result<(), Fail> {
    let file = file_of_three(rt.alloc(), Version::One)?;
    let answer = answer_check(rt.alloc(), &mut FromRead::new(file.as_slice()))?;
    let line = b"ok j6f292kicm15mehpaidvkhlpscr0cjss 0 6\n";
    expect_answer(&rt, &answer, 0, line, b"");
    Ok(())
}
