//! Runs and sorters of records that are drawn, beside what a table of their keys has at last.
ghost use Rattle.std.specs.Prelude.{◌<◌};

use crate::expect::{expect_bytes, expect_eq};
use crate::files::{Failing, Files};
use crate::runs::{AMPLE, file_of, record_of};
use crate::sorters::{TWO_A_HALF, records_at, sorted};
use prolly_entry::Record;
use prolly_sort::{Run, Sorter, SorterFault};
use std::alloc::Global;
use std::process::Abort;
use std::sync::Wait;
use std::test::Fail;

/// Fronts that all keys of a run have in common.
const FRONTS: [&[u8]; 2] = [b"", b"https://example.org/"];

/// What stands behind the front of keys that rise.
const KEYS: [&[u8]; 12] = [
    b"",
    b"\0",
    b"\0\0",
    b"\0\x01",
    b"\x01",
    b"a",
    b"a\0",
    b"aaaaaaaa",
    b"aaaaaaaab",
    b"b",
    b"\x80",
    b"\xFF",
];

/// A key: a front, and what stands behind it.
fn key_of(alloc: Global, front: &[u8], rest: &[u8]) -> Result<Vec<u8>, Fail> {
    let mut key = Vec::from_slice(alloc, front)?;
    key.extend_from_slice(rest)?;
    Ok(key)
}

/// Numbers that are drawn.
#[derive(Drop)]
struct Drawn {
    state: u64,
}

impl Drawn {
    /// A number below this one.
    fn below(&mut self, bound: u64) -> u64
        requires { 0 < bound }
        ensures { result < bound }
    {
        self.state = self
            .state
            .wrapping_mul(6_364_136_223_846_793_005)
            .wrapping_add(1_442_695_041);
        (self.state >> 33) % bound
    }

    /// A record of one of the keys with this front, and what the keys have at last with it.
    fn record(
        &mut self,
        alloc: Global,
        front: &[u8],
        last: &mut [Option<Option<u8>>; 12],
    ) -> Result<Record, Fail> {
        let number = self.below(12) as usize;
        let value = match self.below(4) {
            0 => None,
            _ => Some(self.below(256) as u8),
        };
        last[number] = Some(value);
        record_of(alloc, &key_of(alloc, front, KEYS[number])?, value)
    }
}

/// The record file of what each key with this front has at last: nothing, a value of one byte, or
/// that it is removed.
fn expected_file(
    alloc: Global,
    front: &[u8],
    last: &[Option<Option<u8>>; 12],
) -> Result<Vec<u8>, Fail> {
    let mut file = Vec::new(alloc);
    for (rest, change) in KEYS.iter().zip(last) {
        if let Some(value) = change {
            let key = key_of(alloc, front, rest)?;
            file.extend_from_slice(&[0, (key.len() % 256) as u8])?;
            file.extend_from_slice(&key)?;
            match value {
                Some(value) => file.extend_from_slice(&[0, 0, 0, 1, *value])?,
                None => file.extend_from_slice(b"\xFF\xFF\xFF\xFF")?,
            }
        }
    }
    Ok(file)
}

/// Draws up to 99 records, and compares the file of their run with what the keys have at last.
fn expect_drawn(rt: &impl Abort, alloc: Global, front: &[u8], seed: u64) -> Result<(), Fail> {
    let mut drawn = Drawn { state: seed };
    let mut run = Run::new(alloc, AMPLE);
    let mut last = [None; 12];
    for _ in 0..drawn.below(100) {
        run.push(&drawn.record(alloc, front, &mut last)?)?;
    }
    let sorted = run.sort();
    expect_bytes(
        rt,
        file_of(alloc, &sorted)?.taken(),
        &expected_file(alloc, front, &last)?,
    );
    Ok(())
}

#[test]
fn drawn_records_come_in_order(rt: HostRuntime) -> Result<(), Fail> {
    for front in FRONTS {
        for seed in 0..300u64 {
            expect_drawn(&rt, rt.alloc(), front, seed)?;
        }
    }
    Ok(())
}

/// The same of a sorter of up to 199 records, of which its budget holds one or some.
fn expect_sorted(
    rt: &(impl Abort + Wait),
    alloc: Global,
    front: &[u8],
    seed: u64,
) -> Result<(), Fail> {
    let mut drawn = Drawn { state: seed };
    let mut files = Files::new(alloc, Failing::Nothing);
    let mut sorter = Sorter::new(alloc, 60 + drawn.below(400) as u32);
    let mut last = [None; 12];
    for _ in 0..drawn.below(200) {
        let record = drawn.record(alloc, front, &mut last)?;
        sorter.push(rt, &mut files, &record)?;
    }
    let sorted = sorter.finish(rt, &mut files)?;
    expect_bytes(
        rt,
        sorted.file.taken(),
        &expected_file(alloc, front, &last)?,
    );
    Ok(())
}

#[test]
fn drawn_records_are_merged_in_order(rt: HostRuntime) -> Result<(), Fail> {
    for front in FRONTS {
        for seed in 0..30u64 {
            expect_sorted(&rt, rt.alloc(), front, seed)?;
        }
    }
    Ok(())
}

/// Draws up to 99 keys below 2,000, and puts records at them in order where each is to come once. So
/// in about half of the cases all keys differ.
fn expect_unique(rt: &(impl Abort + Wait), alloc: Global, seed: u64) -> Result<(), Fail> {
    let mut drawn = Drawn { state: seed };
    let mut keys = Vec::new(alloc);
    for _ in 0..drawn.below(100) {
        keys.push(drawn.below(2_000) as u16)?;
    }
    let mut files = Files::new(alloc, Failing::Nothing);
    let records = records_at(alloc, &keys)?;
    match sorted(rt, &mut files, Sorter::unique(alloc, TWO_A_HALF), &records) {
        Ok(sorted) => {
            keys.sort()?;
            keys.dedup();
            expect_eq(rt, &sorted.len, &(keys.len() as u64));
            expect_eq(rt, &keys.len(), &records.len());
        }
        Err(SorterFault::Doubled { first, second }) => {
            expect_eq(rt, &(first < second), &true);
            expect_eq(rt, &keys.get(first as usize), &keys.get(second as usize));
        }
        Err(SorterFault::Store(fault)) => return Err(Fail::from(fault)),
    }
    Ok(())
}

#[test]
fn drawn_keys_that_come_twice_are_told(rt: HostRuntime) -> Result<(), Fail> {
    for seed in 0..100u64 {
        expect_unique(&rt, rt.alloc(), seed)?;
    }
    Ok(())
}
