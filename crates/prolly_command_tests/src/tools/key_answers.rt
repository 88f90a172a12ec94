//! Lists of keys out of lines, and what `get` answers of many keys.
use super::expect_answer;
use super::look_up_answers::{file_of_three, root_of_three};
use crate::expect::{expect_bytes, expect_eq};
use prolly_answer::{
    answer_get_keys, answer_get_keys_by_root, answer_prove_set_by_root, answer_verify_set,
    read_keys,
};
use prolly_check::OneThread;
use prolly_entry::Version;
use prolly_fault::{Answer, Fault};
use prolly_io::{FromRead, ScriptDevice, ScriptSink, ScriptSource};
use prolly_range::{KeySet, SortedKeys};
use prolly_root::FileChunks;
use prolly_text::{KeysFault, Notation, keys_of_lines};
use std::alloc::{AllocError, Global};
use std::process::Abort;
use std::test::Fail;

/// Lines, and the keys that they stand for.
const LISTS: &[(Notation, &[u8], &[&[u8]])] = &[
    (Notation::Hex, b"", &[]),
    (Notation::Hex, b"\n61\n6100\n7A", &[b"", b"a", b"a\0", b"z"]),
    (
        Notation::Text,
        b"\na\na\\x00\n\xff\n",
        &[b"", b"a", b"a\0", b"\xff"],
    ),
    // A byte order mark is a part of a key as any other, but at the start of the text.
    (
        Notation::Text,
        b"a\n\xEF\xBB\xBF\n\xEF\xBB\xBFa\n",
        &[b"a", b"\xEF\xBB\xBF", b"\xEF\xBB\xBFa"],
    ),
    (Notation::Text, b"\\xEF\xBB\xBFa\n", &[b"\xEF\xBB\xBFa"]),
];

/// Lines of which one is at fault, and the first such line.
const FAULTY_LISTS: &[(Notation, &[u8], KeysFault)] = &[
    (Notation::Hex, b"61\n6\n5\n", KeysFault::BadLine { line: 1 }),
    (Notation::Hex, b"61 31\n", KeysFault::BadLine { line: 0 }),
    (Notation::Hex, b"61\n61\n", KeysFault::NotRising { line: 1 }),
    (Notation::Hex, b"61\n\n", KeysFault::NotRising { line: 1 }),
    (Notation::Text, b"a\nb\t1\n", KeysFault::BadText { line: 1 }),
    (
        Notation::Text,
        b"a\nc\nb\n",
        KeysFault::NotRising { line: 2 },
    ),
];

/// Lists that begin with a byte order mark, and what is told of them: nothing else of a text, and in
/// hexadecimal that it is no digit.
const MARKED_LISTS: &[(Notation, &[u8], KeysFault)] = &[
    (
        Notation::Text,
        b"\xEF\xBB\xBFapple\nbanana\n",
        KeysFault::ByteOrderMark,
    ),
    (Notation::Text, b"\xEF\xBB\xBFa", KeysFault::ByteOrderMark),
    (Notation::Text, b"\xEF\xBB\xBF", KeysFault::ByteOrderMark),
    (
        Notation::Text,
        b"\xEF\xBB\xBF\\q\n",
        KeysFault::ByteOrderMark,
    ),
    (
        Notation::Hex,
        b"\xEF\xBB\xBF61\n",
        KeysFault::BadLine { line: 0 },
    ),
];

#[test]
fn lines_are_read_as_keys(rt: HostRuntime) -> Result<(), Fail> {
    let alloc = rt.alloc();
    for &(notation, text, keys) in LISTS {
        let Ok(read) = keys_of_lines(alloc, notation, text) else {
            return Err("keys".into());
        };
        expect_eq(&rt, &read.len(), &keys.len());
        for (key, expected) in read.iter().zip(keys) {
            expect_bytes(&rt, key, expected);
        }
    }
    Ok(())
}

#[test]
fn the_first_line_that_is_no_greater_key_is_named(rt: HostRuntime) -> Result<(), Fail> {
    let alloc = rt.alloc();
    for &(notation, text, fault) in FAULTY_LISTS {
        let told = keys_of_lines(alloc, notation, text).err();
        expect_eq(&rt, &told, &Some(fault));
    }
    let mut long = vec![in alloc; b'a'; 1_024]?;
    expect_eq(
        &rt,
        &keys_of_lines(alloc, Notation::Text, &long).err(),
        &None,
    );
    long.push(b'a')?;
    let told = keys_of_lines(alloc, Notation::Text, &long).err();
    expect_eq(&rt, &told, &Some(KeysFault::KeyTooLong { line: 0 }));
    Ok(())
}

#[test]
fn a_byte_order_mark_before_keys_is_refused(rt: HostRuntime) -> Result<(), Fail> {
    for &(notation, text, fault) in MARKED_LISTS {
        let told = keys_of_lines(rt.alloc(), notation, text).err();
        expect_eq(&rt, &told, &Some(fault));
    }
    Ok(())
}

#[test]
fn a_file_of_keys_is_read_or_its_fault_is_told(rt: HostRuntime) -> Result<(), Fail> {
    let alloc = rt.alloc();
    let mut good = FromRead::new(KEYS);
    let Ok(keys) = read_keys(alloc, Notation::Text, &mut good) else {
        return Err("keys".into());
    };
    expect_eq(&rt, &keys.len(), &5);
    let mut falling = FromRead::new(b"61\n6\n".as_slice());
    let fault = read_keys(alloc, Notation::Hex, &mut falling).err();
    expect_eq(
        &rt,
        &fault,
        &Some(Fault::Keys(KeysFault::BadLine { line: 1 })),
    );
    let mut failing = ScriptSource::new(KEYS.to_vec(alloc)?, 4, Some(2));
    let fault = read_keys(alloc, Notation::Text, &mut failing).err();
    expect_eq(&rt, &fault, &Some(Fault::Read));
    Ok(())
}

/// Some keys of the map of a=1, b=1 and c=1, and some that it has not.
const KEYS: &[u8] = b"\na\nbb\nc\nz\n";

/// Their lines in both notations.
const LINES: &[(Notation, &[u8])] = &[
    (Notation::Hex, b"\n61 31\n6262\n63 31\n7a\n"),
    (Notation::Text, b"\na\t1\nbb\nc\t1\nz\n"),
];

/// The keys.
fn keys(alloc: Global) -> Result<Vec<Vec<u8>>, Fail> {
    match keys_of_lines(alloc, Notation::Text, KEYS) {
        Ok(keys) => Ok(keys),
        Err(_) => Err("keys".into()),
    }
}

/// What is answered by the root, over a device and a sink whose calls of these numbers fail; 0 for
/// none.
fn answer_by_root(
    alloc: Global,
    notation: Notation,
    fail_at: (u64, u64),
) -> Result<(Answer, ScriptSink), Fail> {
    let version = Version::Two;
    let root = root_of_three(alloc, version)?;
    let device = ScriptDevice::new(file_of_three(alloc, version)?, Some(fail_at.0));
    let mut sink = ScriptSink::new(alloc, 5, Some(fail_at.1));
    let answer = answer_get_keys_by_root(
        alloc,
        &mut FileChunks::new(device),
        version,
        &root,
        &keys(alloc)?,
        notation,
        &mut sink,
    )?;
    Ok((answer, sink))
}

#[test]
fn a_line_is_written_for_each_key(rt: HostRuntime) -> Result<(), Fail> {
    let alloc = rt.alloc();
    let file = file_of_three(alloc, Version::One)?;
    for &(notation, lines) in LINES {
        let mut source = FromRead::new(file.as_slice());
        let mut sink = ScriptSink::new(alloc, 5, None);
        let keys = keys(alloc)?;
        let answer = answer_get_keys(&OneThread, alloc, &mut source, &keys, notation, &mut sink)?;
        expect_answer(&rt, &answer, 0, b"", b"");
        expect_bytes(&rt, sink.taken(), lines);
        let (answer, sink) = answer_by_root(alloc, notation, (0, 0))?;
        expect_answer(&rt, &answer, 0, b"", b"");
        expect_bytes(&rt, sink.taken(), lines);
    }
    Ok(())
}

#[test]
fn keys_are_answered_up_to_a_fault(rt: HostRuntime) -> Result<(), Fail> {
    let alloc = rt.alloc();
    let mut bad = file_of_three(alloc, Version::One)?;
    bad.push(0)?;
    let mut source = FromRead::new(bad.as_slice());
    let mut sink = ScriptSink::new(alloc, 5, None);
    let keys = keys(alloc)?;
    let notation = Notation::Text;
    let answer = answer_get_keys(&OneThread, alloc, &mut source, &keys, notation, &mut sink)?;
    expect_eq(&rt, &answer.status, &4);
    expect_bytes(&rt, sink.taken(), b"");
    let (answer, sink) = answer_by_root(alloc, notation, (0, 3))?;
    expect_answer(&rt, &answer, 5, b"", b"prolly: write failed\n");
    expect_bytes(&rt, sink.taken(), b"\na\t1\n");
    let (answer, sink) = answer_by_root(alloc, notation, (1, 0))?;
    expect_answer(&rt, &answer, 5, b"", b"prolly: chunk file: read failed\n");
    expect_bytes(&rt, sink.taken(), b"");
    Ok(())
}

/// The proof of the keys.
fn proof(alloc: Global, version: Version) -> Result<Vec<u8>, Fail> {
    let keys = keys(alloc)?;
    let mut chunks = FileChunks::new(ScriptDevice::new(file_of_three(alloc, version)?, None));
    let root = root_of_three(alloc, version)?;
    let mut sink = ScriptSink::new(alloc, 5, None);
    let set = KeySet::Keys(SortedKeys::new(&keys).ok().ok_or("rising")?);
    answer_prove_set_by_root(alloc, &mut chunks, version, &root, set, &mut sink)?;
    Ok(sink.taken().to_vec(alloc)?)
}

/// What is answered to these bytes as the proof of the keys, over a sink whose call of this number
/// fails; 0 for none.
fn verified(
    alloc: Global,
    notation: Notation,
    proof: &[u8],
    fail_at: u64,
) -> Result<(Answer, ScriptSink), Fail> {
    let keys = keys(alloc)?;
    let version = Version::Two;
    let root = root_of_three(alloc, version)?;
    let mut source = ScriptSource::new(proof.to_vec(alloc)?, 7, None);
    let mut sink = ScriptSink::new(alloc, 99, Some(fail_at));
    let set = KeySet::Keys(SortedKeys::new(&keys).ok().ok_or("rising")?);
    let answer = answer_verify_set(alloc, &mut source, notation, version, &root, set, &mut sink)?;
    Ok((answer, sink))
}

#[test]
fn a_proof_of_keys_shows_a_line_for_each(rt: HostRuntime) -> Result<(), Fail> {
    let alloc = rt.alloc();
    let proof = proof(alloc, Version::Two)?;
    for &(notation, lines) in LINES {
        let (answer, sink) = verified(alloc, notation, &proof, 0)?;
        expect_answer(&rt, &answer, 0, b"", b"");
        expect_bytes(&rt, sink.taken(), lines);
    }
    Ok(())
}

#[test]
fn a_proof_of_keys_shows_what_is_known_before_a_fault(rt: HostRuntime) -> Result<(), Fail> {
    let alloc = rt.alloc();
    let proof = proof(alloc, Version::Two)?;
    let cut = &proof[..proof.len().saturating_sub(1)];
    let (answer, sink) = verified(alloc, Notation::Text, cut, 0)?;
    expect_answer(&rt, &answer, 4, b"", b"prolly: proof: truncated\n");
    expect_bytes(&rt, sink.taken(), b"\na\t1\n");
    let (answer, sink) = verified(alloc, Notation::Text, &proof, 2)?;
    expect_answer(&rt, &answer, 5, b"", b"prolly: write failed\n");
    expect_bytes(&rt, sink.taken(), b"\na\t1\n");
    Ok(())
}
