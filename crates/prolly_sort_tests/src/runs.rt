//! Runs of a few records.
use crate::expect::{expect_bytes, expect_eq};
use prolly_entry::{Pair, Record};
use prolly_io::{ScriptSink, WriteFault};
use prolly_sort::{DoubledKey, PushFault, Run, SortedRun};
use std::alloc::Global;
use std::process::Abort;
use std::test::Fail;

/// More than any run here takes.
pub(crate) const AMPLE: u32 = 1_000_000;

/// The record that puts this value of one byte at the key, or removes the key.
pub(crate) fn record_of(alloc: Global, key: &[u8], value: Option<u8>) -> Result<Record, Fail> {
    let key = Vec::from_slice(alloc, key)?;
    match value {
        Some(value) => Ok(Record::put(Pair::new(key, Vec::from_slice(alloc, &[value])?)?)),
        None => Ok(Record::remove(key)?),
    }
}

/// A run of records, each spelled as its key of one byte and its value, where a dash removes the
/// key.
pub(crate) fn run_of(alloc: Global, records: &[(u8, u8)]) -> Result<Run, Fail> {
    let mut run = Run::new(alloc, AMPLE);
    for &(key, value) in records {
        let value = if value == b'-' { None } else { Some(value) };
        run.push(&record_of(alloc, &[key], value)?)?;
    }
    Ok(run)
}

/// The record file of a run in order.
pub(crate) fn file_of(alloc: Global, sorted: &SortedRun) -> Result<ScriptSink, Fail> {
    let mut sink = ScriptSink::new(alloc, 3, None);
    sorted.write_records(&mut sink)?;
    Ok(sink)
}

/// The record file in which a is 2, b is removed and c is 1.
const THREE: &[u8] = b"\0\x01a\0\0\0\x012\0\x01b\xFF\xFF\xFF\xFF\0\x01c\0\0\0\x011";

/// The records of that file, in four orders, with others of its keys before them.
const ORDERS: [&[(u8, u8)]; 4] = [
    &[(b'a', b'2'), (b'b', b'-'), (b'c', b'1')],
    &[(b'c', b'1'), (b'b', b'-'), (b'a', b'2')],
    &[
        (b'b', b'1'),
        (b'a', b'-'),
        (b'a', b'2'),
        (b'c', b'1'),
        (b'b', b'-'),
    ],
    &[(b'a', b'1'), (b'b', b'-'), (b'c', b'1'), (b'a', b'2')],
];

#[test]
fn the_last_record_of_a_key_counts(rt: HostRuntime) -> Result<(), Fail> {
    for records in &ORDERS {
        let sorted = run_of(rt.alloc(), records)?.sort();
        expect_eq(&rt, &sorted.len(), &3);
        expect_bytes(&rt, file_of(rt.alloc(), &sorted)?.taken(), THREE);
    }
    Ok(())
}

#[test]
fn records_are_given_by_their_numbers(rt: HostRuntime) -> Result<(), Fail> {
    let sorted = run_of(rt.alloc(), &[(b'b', b'-'), (b'a', b'1'), (b'a', b'2')])?.sort();
    expect_eq(
        &rt,
        &sorted.get(0),
        &Some((b"a".as_slice(), Some(b"2".as_slice()))),
    );
    expect_eq(&rt, &sorted.get(1), &Some((b"b".as_slice(), None)));
    expect_eq(&rt, &sorted.get(2), &None);
    Ok(())
}

#[test]
fn a_run_tells_whether_its_keys_rise(rt: HostRuntime) -> Result<(), Fail> {
    for (records, rises) in [
        ([].as_slice(), true),
        (&[(b'b', b'1')], true),
        (ORDERS[0], true),
        (ORDERS[1], false),
        (&[(b'a', b'1'), (b'a', b'1')], false),
        (&[(b'b', b'1'), (b'a', b'1'), (b'c', b'1')], false),
    ] {
        expect_eq(&rt, &run_of(rt.alloc(), records)?.is_rising(), &rises);
    }
    Ok(())
}

/// Fails unless the records of these numbers are told as those of one key.
fn expect_doubled(
    rt: &impl Abort,
    alloc: Global,
    records: &[(u8, u8)],
    first: u64,
    second: u64,
) -> Result<(), Fail> {
    match run_of(alloc, records)?.sort_unique() {
        Ok(_) => Err(Fail::from("no key came twice")),
        Err(fault) => {
            expect_eq(rt, &fault, &DoubledKey { first, second });
            Ok(())
        }
    }
}

#[test]
fn a_key_that_came_twice_is_told(rt: HostRuntime) -> Result<(), Fail> {
    let alloc = rt.alloc();
    expect_doubled(&rt, alloc, &[(b'a', b'1'), (b'a', b'1')], 0, 1)?;
    expect_doubled(
        &rt,
        alloc,
        &[(b'b', b'1'), (b'a', b'1'), (b'b', b'-')],
        0,
        2,
    )?;
    let both = [
        (b'b', b'1'),
        (b'b', b'2'),
        (b'a', b'1'),
        (b'a', b'2'),
        (b'a', b'3'),
    ];
    expect_doubled(&rt, alloc, &both, 2, 3)
}

#[test]
fn keys_that_came_once_are_put_in_order(rt: HostRuntime) -> Result<(), Fail> {
    for records in &[&ORDERS[0], &ORDERS[1]] {
        let sorted = run_of(rt.alloc(), records)?.sort_unique()?;
        expect_bytes(&rt, file_of(rt.alloc(), &sorted)?.taken(), THREE);
    }
    Ok(())
}

/// Keys that rise. The first one is the front that all of them have in common, and some of them have
/// the same eight bytes behind it.
const FRONTED: [&[u8]; 5] = [
    b"https://example.org/",
    b"https://example.org/\0",
    b"https://example.org/1",
    b"https://example.org/12345678",
    b"https://example.org/123456780",
];

/// A run of these keys, the greatest first.
fn fronted_run(alloc: Global) -> Result<Run, Fail> {
    let mut run = Run::new(alloc, AMPLE);
    for key in FRONTED.iter().rev() {
        run.push(&record_of(alloc, key, None)?)?;
    }
    Ok(run)
}

#[test]
fn keys_with_one_front_are_put_in_order(rt: HostRuntime) -> Result<(), Fail> {
    let alloc = rt.alloc();
    for sorted in [
        fronted_run(alloc)?.sort(),
        fronted_run(alloc)?.sort_unique()?,
    ] {
        expect_eq(&rt, &sorted.len(), &FRONTED.len());
        for (number, key) in FRONTED.iter().enumerate() {
            expect_eq(&rt, &sorted.get(number), &Some((*key, None)));
        }
    }
    Ok(())
}

#[test]
fn a_front_that_came_twice_is_told(rt: HostRuntime) -> Result<(), Fail> {
    let mut run = fronted_run(rt.alloc())?;
    run.push(&record_of(rt.alloc(), FRONTED[0], None)?)?;
    match run.sort_unique() {
        Ok(_) => Err(Fail::from("no key came twice")),
        Err(fault) => {
            expect_eq(
                &rt,
                &fault,
                &DoubledKey {
                    first: 4,
                    second: 5,
                },
            );
            Ok(())
        }
    }
}

/// Pushes a=1 and then b=1, which take 32 bytes of the budget each, and compares the answers.
fn expect_pushed(
    rt: &impl Abort,
    alloc: Global,
    budget: u32,
    answers: [Result<(), PushFault>; 2],
) -> Result<(), Fail> {
    let mut run = Run::new(alloc, budget);
    let pushed = [
        run.push(&record_of(alloc, b"a", Some(b'1'))?),
        run.push(&record_of(alloc, b"b", Some(b'1'))?),
    ];
    expect_eq(rt, &pushed, &answers);
    let taken = answers.iter().filter(|answer| answer.is_ok()).count();
    expect_eq(rt, &run.len(), &taken);
    Ok(())
}

#[test]
fn a_run_is_full_where_its_budget_ends(rt: HostRuntime) -> Result<(), Fail> {
    let full = Err(PushFault::Full);
    expect_pushed(&rt, rt.alloc(), 64, [Ok(()), Ok(())])?;
    expect_pushed(&rt, rt.alloc(), 63, [Ok(()), full])?;
    expect_pushed(&rt, rt.alloc(), 32, [Ok(()), full])?;
    expect_pushed(&rt, rt.alloc(), 31, [full, full])?;
    expect_pushed(&rt, rt.alloc(), 0, [full, full])
}

#[test]
fn each_call_of_the_sink_may_fail(rt: HostRuntime) -> Result<(), Fail> {
    let sorted = run_of(rt.alloc(), ORDERS[2])?.sort();
    for number in 1..8u64 {
        let mut sink = ScriptSink::new(rt.alloc(), 4, Some(number));
        expect_eq(&rt, &sorted.write_records(&mut sink), &Err(WriteFault));
        expect_eq(&rt, &THREE.starts_with(sink.taken()), &true);
    }
    Ok(())
}

#[test]
fn faults_are_shown(rt: HostRuntime) -> Result<(), Fail> {
    let shown = [
        format!(in rt.alloc(); "{}", PushFault::Full)?,
        format!(in rt.alloc(); "{}", PushFault::Memory)?,
        format!(in rt.alloc();
            "{}",
            DoubledKey {
                first: 3,
                second: 15
            }
        )?,
    ];
    let texts = [
        "run is full",
        "out of memory",
        "records 3 and 15 have one key",
    ];
    for (shown, text) in shown.iter().zip(&texts) {
        expect_bytes(&rt, shown.as_bytes(), text.as_bytes());
    }
    Ok(())
}
