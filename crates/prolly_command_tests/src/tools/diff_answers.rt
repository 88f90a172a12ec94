//! What `diff` answers of two checked files, and by their roots: the same.
use super::expect_answer;
use super::look_up_answers::file_of_three;
use crate::expect::{expect_bytes, expect_eq};
use prolly_answer::{RootDiff, answer_diff, answer_diff_by_root};
use prolly_check::OneThread;
use prolly_entry::{Pair, Ref, Sha512Cut, Version};
use prolly_fault::Answer;
use prolly_file::scratch_as;
use prolly_io::{FromRead, ScriptDevice, ScriptSink};
use prolly_root::FileChunks;
use prolly_text::{Notation, RecordForm};
use std::alloc::Global;
use std::process::Abort;
use std::test::Fail;

/// More calls than a difference of these files makes of either device.
const MOST_CALLS: u64 = 500;

/// Keys are below this number.
const KEYS: u8 = 40;

/// A map: most of its pairs are drawn from the one number, and some from the other.
type Drawn = Option<(u64, u64)>;

/// Pairs of maps: one is empty, both are the same, some pairs differ, all do.
const MAPS: &[(Drawn, Drawn)] = &[
    (None, None),
    (None, Some((1, 1))),
    (Some((1, 1)), None),
    (Some((1, 1)), Some((1, 1))),
    (Some((1, 1)), Some((1, 2))),
    (Some((1, 3)), Some((1, 2))),
    (Some((2, 4)), Some((2, 5))),
    (Some((6, 6)), Some((7, 7))),
];

/// The bits of the old tree and of the new one.
const BITS: &[(u8, u8)] = &[(0, 0), (1, 1), (2, 2), (4, 4), (0, 1), (2, 0), (1, 4)];

/// A number that is drawn.
fn draw(seed: u64, key: u8) -> u64 {
    let mut drawn = seed.wrapping_mul(1_000_003).wrapping_add(u64::from(key));
    for _ in 0..3 {
        drawn = (drawn ^ (drawn >> 29)).wrapping_mul(0x9E37_79B9_7F4A_7C15);
    }
    drawn >> 40
}

/// The pairs of a map.
fn pairs_of(alloc: Global, drawn: Drawn) -> Result<Vec<Pair>, Fail> {
    let mut pairs = Vec::new(alloc);
    let Some((most, some)) = drawn else {
        return Ok(pairs);
    };
    for key in 0..KEYS {
        let seed = if draw(some, key) % 8 == 0 { some } else { most };
        let pair = draw(seed, key);
        if pair % 4 != 0 {
            let value = [b'0', b'1', b'2', b'3'];
            let length = (pair / 4 % 4) as usize;
            pairs.push(Pair::copy_of(alloc, &[key], &value[..length])?)?;
        }
    }
    Ok(pairs)
}

/// A chunk file, with what is to be known of it.
#[derive(Drop)]
struct Made {
    version: Version,
    root: Ref,
    file: Vec<u8>,
}

impl Made {
    /// The file of a map.
    fn of(alloc: Global, version: Version, bits: u8, drawn: Drawn) -> Result<Made, Fail> {
        let cut = Sha512Cut::new(bits).ok_or("bits")?;
        let mut file = Vec::new(alloc);
        let pairs = pairs_of(alloc, drawn)?;
        let root = scratch_as(alloc, cut, version, &pairs, 40, &mut file)?;
        Ok(Made {
            version,
            root,
            file,
        })
    }
}

/// What is answered of the checked files, with the line of the numbers.
fn checked(
    alloc: Global,
    old: &Made,
    new: &Made,
    form: Option<RecordForm>,
    sink: &mut ScriptSink,
) -> Result<Answer, Fail> {
    let mut before = FromRead::new(old.file.as_slice());
    let mut after = FromRead::new(new.file.as_slice());
    let answer = answer_diff(&OneThread, alloc, &mut before, &mut after, form, true, sink)?;
    Ok(answer)
}

/// What is answered by the roots, where the calls of these numbers of the devices fail; 0 for none.
fn rooted(
    alloc: Global,
    old: &Made,
    new: &Made,
    form: Option<RecordForm>,
    fail_at: (u64, u64),
    sink: &mut ScriptSink,
) -> Result<Answer, Fail> {
    let before = ScriptDevice::new(old.file.to_vec(alloc)?, Some(fail_at.0));
    let after = ScriptDevice::new(new.file.to_vec(alloc)?, Some(fail_at.1));
    let diff = RootDiff {
        version: new.version,
        old: &old.root,
        new: &new.root,
        form,
        stat: true,
    };
    let mut before = FileChunks::new(before);
    let mut after = FileChunks::new(after);
    let answer = answer_diff_by_root(alloc, &mut before, &mut after, &diff, sink)?;
    Ok(answer)
}

/// Fails unless both answers are the same, and what is written.
fn expect_same(rt: &impl Abort, alloc: Global, old: &Made, new: &Made) -> Result<(), Fail> {
    for form in [None, Some(RecordForm::Lines(Notation::Hex))] {
        let mut lines = ScriptSink::new(alloc, 4_096, None);
        let expected = checked(alloc, old, new, form, &mut lines)?;
        let mut sink = ScriptSink::new(alloc, 4_096, None);
        let answer = rooted(alloc, old, new, form, (0, 0), &mut sink)?;
        expect_answer(rt, &answer, expected.status, &expected.out, b"");
        expect_bytes(rt, sink.taken(), lines.taken());
    }
    Ok(())
}

#[test]
fn the_numbers_by_the_roots_are_those_of_checked_files(rt: HostRuntime) -> Result<(), Fail> {
    let alloc = rt.alloc();
    for version in [Version::One, Version::Two] {
        for &(before, after) in BITS {
            for &(old, new) in MAPS {
                let old = Made::of(alloc, version, before, old)?;
                let new = Made::of(alloc, version, after, new)?;
                expect_same(&rt, alloc, &old, &new)?;
            }
        }
    }
    Ok(())
}

/// Fails unless the answer is this, or tells of a call that failed, behind a first part of the
/// lines. Tells whether one did.
fn expect_cut(
    rt: &impl Abort,
    answer: &Answer,
    expected: &Answer,
    taken: &[u8],
    lines: &[u8],
) -> bool {
    if answer.status == expected.status {
        expect_answer(rt, answer, expected.status, &expected.out, b"");
        expect_bytes(rt, taken, lines);
        return false;
    }
    expect_eq(rt, &answer.status, &5);
    expect_bytes(rt, &answer.out, b"");
    expect_eq(rt, &lines.starts_with(taken), &true);
    true
}

/// Lets the first call of one device fail, then the second, and so on to the one that is not made.
/// Gives its number.
fn first_unmade(
    rt: &impl Abort,
    alloc: Global,
    old: &Made,
    new: &Made,
    is_old: bool,
) -> Result<u64, Fail> {
    let form = Some(RecordForm::Lines(Notation::Hex));
    let mut lines = ScriptSink::new(alloc, 4_096, None);
    let expected = checked(alloc, old, new, form, &mut lines)?;
    for number in 1..=MOST_CALLS {
        let fail_at = if is_old { (number, 0) } else { (0, number) };
        let mut sink = ScriptSink::new(alloc, 4_096, None);
        let answer = rooted(alloc, old, new, form, fail_at, &mut sink)?;
        if !expect_cut(rt, &answer, &expected, sink.taken(), lines.taken()) {
            return Ok(number);
        }
    }
    Err("too many calls".into())
}

#[test]
fn no_numbers_are_shown_where_a_call_fails(rt: HostRuntime) -> Result<(), Fail> {
    let alloc = rt.alloc();
    let old = Made::of(alloc, Version::Two, 1, Some((1, 1)))?;
    let new = Made::of(alloc, Version::Two, 1, Some((1, 2)))?;
    for is_old in [true, false] {
        let unmade = first_unmade(&rt, alloc, &old, &new, is_old)?;
        expect_eq(&rt, &(unmade > 10), &true);
    }
    Ok(())
}

/// The line of a=1, and of a=1, b=1 and c=1, of 0 bits and version Two.
const LINE: &[u8] = b"added 2 changed 0 removed 0 chunks 5 bytes 176\n";

#[test]
fn the_numbers_are_shown_and_nothing_is_written(rt: HostRuntime) -> Result<(), Fail> {
    let alloc = rt.alloc();
    let root = Ref::from_text(b"a5ncvh138tevh93qdn92a4mlvku8m62f").ok_or("the text of a root")?;
    let old = Made {
        version: Version::Two,
        root: Ref::of(b"\0\0\x01a\0\0\0\x011"),
        file: b"PRLY\x02\0C\0\0\0\0\0\0\0\x09\0\0\x01a\0\0\0\x011E\
              \xE4\xB1\x1C\x59\x64\x6C\xA2\x86\xE7\x47\
              \xDF\x19\x87\xE5\xE5\x3D\x53\x57\xE2\x04\0\0\0\0\0\0\0\x01"
            .to_vec(alloc)?,
    };
    let new = Made {
        version: Version::Two,
        root,
        file: file_of_three(alloc, Version::Two)?,
    };
    // A sink of which each call fails.
    let mut sink = ScriptSink::new(alloc, 4_096, Some(1));
    let answer = rooted(alloc, &old, &new, None, (0, 0), &mut sink)?;
    expect_answer(&rt, &answer, 1, LINE, b"");
    expect_bytes(&rt, sink.taken(), b"");
    Ok(())
}
