//! Calls that are refused memory: they say so, and a run that does not take a record is as it was.
//!
//! `tests/growths_of_calls.py` refuses these tests each growth in turn. Where it is one for a
//! test's own values, the test ends in want of memory; where it is one of the calls that are
//! tested, the test goes on.
use crate::expect::{expect_bytes, expect_eq};
use crate::files::{Failing, Files};
use crate::runs::{AMPLE, record_of};
use crate::sorters::{
    TWO_A_HALF, TWO_A_RUN, falling as falling_numbers, file_below, records_at, sorted,
};
use prolly_entry::Record;
use prolly_io::{ScriptSink, ScriptSource};
use prolly_sort::{DoubledKey, PushFault, Run, Sorter, SorterFault, StoreFault};
use std::alloc::Global;
use std::process::Abort;
use std::sync::Wait;
use std::test::Fail;

/// Takes a record, at a second try where memory was refused.
fn push(rt: &impl Abort, run: &mut Run, record: &Record) {
    if let Err(fault) = run.push(record) {
        expect_eq(rt, &fault, &PushFault::Memory);
        expect_eq(rt, &run.push(record), &Ok(()));
    }
}

/// A run of 40 keys of one byte, the greatest first, and their values.
fn falling(rt: &impl Abort, alloc: Global) -> Result<Run, Fail> {
    let mut run = Run::new(alloc, AMPLE);
    for number in 0..40u8 {
        push(
            rt,
            &mut run,
            &record_of(alloc, &[99 - number], Some(number))?,
        );
    }
    push(rt, &mut run, &record_of(alloc, &[80], None)?);
    expect_eq(rt, &run.len(), &41);
    Ok(run)
}

#[test]
fn a_run_is_put_in_order(rt: HostRuntime) -> Result<(), Fail> {
    let sorted = falling(&rt, rt.alloc())?.sort();
    expect_eq(&rt, &sorted.len(), &40);
    expect_eq(&rt, &sorted.get(0), &Some((&[60], Some(&[39]))));
    expect_eq(&rt, &sorted.get(20), &Some((&[80], None)));
    Ok(())
}

#[test]
fn a_key_that_came_twice_is_told(rt: HostRuntime) -> Result<(), Fail> {
    let Err(two) = falling(&rt, rt.alloc())?.sort_unique() else {
        return Err(Fail::from("no key came twice"));
    };
    let told = DoubledKey {
        first: 19,
        second: 40,
    };
    expect_eq(&rt, &two, &told);
    Ok(())
}

/// Puts records at six falling keys in order, in three runs. A sink in memory that is refused some
/// tells a failed write.
fn expect_sorted(
    rt: &(impl Abort + Wait),
    alloc: Global,
    sorter: Sorter<ScriptSink, ScriptSource>,
) -> Result<(), Fail> {
    let records = records_at(alloc, &falling_numbers(alloc, 0, 6)?)?;
    let expected = file_below(alloc, 6)?;
    let mut files = Files::new(alloc, Failing::Nothing);
    match sorted(rt, &mut files, sorter, &records) {
        Ok(sorted) => expect_bytes(rt, sorted.file.taken(), &expected),
        Err(SorterFault::Store(StoreFault::Write)) => {}
        Err(fault) => expect_eq(rt, &fault, &SorterFault::Store(StoreFault::Memory)),
    }
    Ok(())
}

#[test]
fn a_sorter_puts_records_in_order_or_wants_memory(rt: HostRuntime) -> Result<(), Fail> {
    expect_sorted(&rt, rt.alloc(), Sorter::new(rt.alloc(), TWO_A_RUN))
}

#[test]
fn a_unique_sorter_puts_records_in_order_or_wants_memory(rt: HostRuntime) -> Result<(), Fail> {
    expect_sorted(&rt, rt.alloc(), Sorter::unique(rt.alloc(), TWO_A_HALF))
}
