//! What is read, shown and proved of many keys where memory is refused.
use super::rooted::{chunks_of_one, root_of_one};
use super::{FILE_OF_ONE, expect_begun};
use crate::expect::{expect_bytes, expect_eq};
use prolly_answer::{
    answer_get_keys, answer_get_keys_by_root, answer_prove_set, answer_prove_set_by_root,
    answer_verify_set, read_keys,
};
use prolly_check::OneThread;
use prolly_entry::Version;
use prolly_fault::Fault;
use prolly_io::{FromRead, ScriptSink};
use prolly_range::{KeySet, SortedKeys};
use prolly_text::{KeysFault, Notation, keys_of_lines};
use std::alloc::Global;
use std::process::Abort;
use std::test::Fail;

/// Two keys, and their lines.
const KEYS: &[&[u8]] = &[b"a", b"b"];

const LINES: &[u8] = b"61\n62\n";

/// The keys.
fn keys(alloc: Global) -> Result<Vec<Vec<u8>>, Fail> {
    let mut keys = Vec::new(alloc);
    for key in KEYS {
        keys.push(key.to_vec(alloc)?)?;
    }
    Ok(keys)
}

/// Fails unless these are the keys, or memory was refused.
fn expect_keys(rt: &impl Abort, read: Result<Vec<Vec<u8>>, bool>) {
    match read {
        Ok(keys) => {
            expect_eq(rt, &keys.len(), &KEYS.len());
            for (key, expected) in keys.iter().zip(KEYS) {
                expect_bytes(rt, key, expected);
            }
        }
        Err(is_memory) => expect_eq(rt, &is_memory, &true),
    }
}

#[test]
fn keys_are_read_or_want_memory(rt: HostRuntime) {
    let alloc = rt.alloc();
    let keys = keys_of_lines(alloc, Notation::Hex, LINES);
    expect_keys(&rt, keys.map_err(|fault| fault == KeysFault::Memory));
    let keys = read_keys(alloc, Notation::Hex, &mut FromRead::new(LINES));
    expect_keys(&rt, keys.map_err(|fault| fault.status() == 6));
}

/// What there is at the keys in the tree of a=1.
const FOUND: &[u8] = b"61 31\n62\n";

#[test]
fn what_keys_have_is_written_or_wants_memory(rt: HostRuntime) -> Result<(), Fail> {
    let (alloc, hex) = (rt.alloc(), Notation::Hex);
    let keys = keys(alloc)?;
    let mut source = FromRead::new(FILE_OF_ONE);
    let mut sink = ScriptSink::new(alloc, 4_096, None);
    let answer = answer_get_keys(&OneThread, alloc, &mut source, &keys, hex, &mut sink);
    expect_begun(&rt, answer, 0, sink.taken(), FOUND);

    let mut chunks = chunks_of_one(alloc)?;
    let (version, root) = (Version::One, root_of_one());
    let mut sink = ScriptSink::new(alloc, 4_096, None);
    let answer = answer_get_keys_by_root(alloc, &mut chunks, version, &root, &keys, hex, &mut sink);
    expect_begun(&rt, answer, 0, sink.taken(), FOUND);
    Ok(())
}

/// What proves what the tree of a=1 has at the keys, and in any range.
const PROOF: &[u8] = b"PRLP\x11C\0\0\0\0\0\0\0\x09\0\0\x01a\0\0\0\x011";

/// Proves what there is at the keys of a set, and verifies it.
fn expect_proved(
    rt: &impl Abort,
    alloc: Global,
    set: KeySet<'_>,
    shown: &[u8],
) -> Result<(), Fail> {
    let (version, root) = (Version::One, root_of_one());
    let mut sink = ScriptSink::new(alloc, 4_096, None);
    let mut source = FromRead::new(FILE_OF_ONE);
    let answer = answer_prove_set(&OneThread, alloc, &mut source, set, &mut sink);
    expect_begun(rt, answer, 0, sink.taken(), PROOF);

    let mut sink = ScriptSink::new(alloc, 4_096, None);
    let mut chunks = chunks_of_one(alloc)?;
    let answer = answer_prove_set_by_root(alloc, &mut chunks, version, &root, set, &mut sink);
    expect_begun(rt, answer, 0, sink.taken(), PROOF);

    let mut sink = ScriptSink::new(alloc, 4_096, None);
    let mut proof = FromRead::new(PROOF);
    let hex = Notation::Hex;
    let answer = answer_verify_set(alloc, &mut proof, hex, version, &root, set, &mut sink);
    expect_begun(rt, answer, 0, sink.taken(), shown);
    Ok(())
}

#[test]
fn a_set_is_proved_and_verified_or_wants_memory(rt: HostRuntime) -> Result<(), Fail> {
    let alloc = rt.alloc();
    let keys = keys(alloc)?;
    let sorted = SortedKeys::new(&keys).ok().ok_or("rising")?;
    expect_proved(&rt, alloc, KeySet::Keys(sorted), FOUND)?;
    let range = KeySet::Range {
        from: b"a",
        to: Some(b"b"),
    };
    expect_proved(&rt, alloc, range, b"61 31\n")
}
