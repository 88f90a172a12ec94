//! Sorters of records that fill many runs, over files in memory.
use crate::expect::{expect_bytes, expect_eq};
use crate::files::{Failing, Files};
use crate::runs::record_of;
use prolly_entry::Record;
use prolly_io::{ScriptSink, ScriptSource};
use prolly_sort::{SortedFile, Sorter, SorterFault, StoreFault};
use std::alloc::Global;
use std::process::Abort;
use std::sync::Wait;
use std::test::Fail;

/// A budget that two records of [`records_at`] fill.
pub(crate) const TWO_A_RUN: u32 = 66;

/// One of which two records and two numbers fill a half each.
pub(crate) const TWO_A_HALF: u32 = 160;

/// Puts records in order.
pub(crate) fn sorted<R: Wait>(
    rt: &R,
    files: &mut Files,
    mut sorter: Sorter<ScriptSink, ScriptSource>,
    records: &[Record],
) -> Result<SortedFile<ScriptSink>, SorterFault> {
    for record in records {
        sorter.push(rt, files, record)?;
    }
    sorter.finish(rt, files)
}

/// Records that put 1 at these keys of two bytes.
pub(crate) fn records_at(alloc: Global, keys: &[u16]) -> Result<Vec<Record>, Fail> {
    let mut records = Vec::new(alloc);
    for key in keys {
        records.push(record_of(alloc, &key.to_be_bytes(), Some(1))?)?;
    }
    Ok(records)
}

/// The numbers from the first up to the end, the greatest first.
pub(crate) fn falling(alloc: Global, first: u16, end: u16) -> Result<Vec<u16>, Fail> {
    let mut numbers = Vec::new(alloc);
    for number in first..end {
        numbers.push(number)?;
    }
    numbers.reverse();
    Ok(numbers)
}

/// The record file that puts 1 at each key of two bytes below this number.
pub(crate) fn file_below(alloc: Global, end: u16) -> Result<Vec<u8>, Fail> {
    let mut file = Vec::new(alloc);
    for key in 0..end {
        file.extend_from_slice(&[0, 2])?;
        file.extend_from_slice(&key.to_be_bytes())?;
        file.extend_from_slice(&[0, 0, 0, 1, 1])?;
    }
    Ok(file)
}

/// Puts twice as many falling records as there are to be runs in order, and compares the file and
/// how many were made. All but the last are opened.
fn expect_merged(
    rt: &(impl Abort + Wait),
    alloc: Global,
    runs: u16,
    made: u64,
) -> Result<(), Fail> {
    let end = runs.saturating_mul(2);
    let mut files = Files::new(alloc, Failing::Nothing);
    let records = records_at(alloc, &falling(alloc, 0, end)?)?;
    let sorted = sorted(rt, &mut files, Sorter::new(alloc, TWO_A_RUN), &records)?;
    expect_bytes(rt, sorted.file.taken(), &file_below(alloc, end)?);
    expect_eq(rt, &sorted.len, &u64::from(end));
    expect_eq(rt, &files.made, &made);
    expect_eq(rt, &files.opened.saturating_add(1), &made);
    Ok(())
}

#[test]
fn runs_are_merged_sixteen_at_a_time(rt: HostRuntime) -> Result<(), Fail> {
    expect_merged(&rt, rt.alloc(), 1, 1)?;
    expect_merged(&rt, rt.alloc(), 2, 3)?;
    expect_merged(&rt, rt.alloc(), 16, 17)?;
    expect_merged(&rt, rt.alloc(), 17, 19)?;
    expect_merged(&rt, rt.alloc(), 256, 273)?;
    expect_merged(&rt, rt.alloc(), 300, 320)
}

#[test]
fn rising_records_make_one_file(rt: HostRuntime) -> Result<(), Fail> {
    let alloc = rt.alloc();
    let mut keys = falling(alloc, 0, 600)?;
    keys.reverse();
    let mut files = Files::new(alloc, Failing::Nothing);
    let sorter = Sorter::new(alloc, TWO_A_RUN);
    let sorted = sorted(&rt, &mut files, sorter, &records_at(alloc, &keys)?)?;
    expect_bytes(&rt, sorted.file.taken(), &file_below(alloc, 600)?);
    expect_eq(&rt, &files.made, &1);
    expect_eq(&rt, &files.opened, &0);
    Ok(())
}

/// Compares the answer of a unique sorter of records at these keys.
fn expect_unique(
    rt: &(impl Abort + Wait),
    alloc: Global,
    keys: &[u16],
    answer: Result<(), SorterFault>,
) -> Result<(), Fail> {
    let mut files = Files::new(alloc, Failing::Nothing);
    let sorter = Sorter::unique(alloc, TWO_A_HALF);
    match sorted(rt, &mut files, sorter, &records_at(alloc, keys)?) {
        Ok(_) => expect_eq(rt, &Ok(()), &answer),
        Err(fault) => expect_eq(rt, &Err(fault), &answer),
    }
    Ok(())
}

#[test]
fn a_key_that_came_twice_is_told_wherever_it_came(rt: HostRuntime) -> Result<(), Fail> {
    let alloc = rt.alloc();
    let told = |first, second| Err(SorterFault::Doubled { first, second });
    expect_unique(&rt, alloc, &[5, 5], told(0, 1))?;
    expect_unique(&rt, alloc, &[9, 8, 7, 9], told(0, 3))?;
    expect_unique(&rt, alloc, &[1, 2, 3, 4, 5, 6, 7, 2], told(1, 7))?;

    // Of runs that were merged before.
    let mut keys = falling(alloc, 0, 100)?;
    keys.push(70)?;
    keys.extend_from_slice(&falling(alloc, 200, 300)?)?;
    expect_unique(&rt, alloc, &keys, told(29, 100))
}

#[test]
fn keys_that_came_once_are_put_in_order_by_a_sorter(rt: HostRuntime) -> Result<(), Fail> {
    let alloc = rt.alloc();
    let mut files = Files::new(alloc, Failing::Nothing);
    let records = records_at(alloc, &falling(alloc, 0, 100)?)?;
    let sorted = sorted(&rt, &mut files, Sorter::unique(alloc, TWO_A_HALF), &records)?;
    expect_bytes(&rt, sorted.file.taken(), &file_below(alloc, 100)?);
    Ok(())
}

/// Puts records at these keys in order, each key once, and compares how many files were made and
/// opened.
fn expect_files(
    rt: &(impl Abort + Wait),
    alloc: Global,
    keys: &[u16],
    made: u64,
    opened: u64,
) -> Result<(), Fail> {
    let mut files = Files::new(alloc, Failing::Nothing);
    let records = records_at(alloc, keys)?;
    let sorted = sorted(rt, &mut files, Sorter::unique(alloc, TWO_A_HALF), &records)?;
    expect_eq(rt, &sorted.len, &(keys.len() as u64));
    expect_eq(rt, &files.made, &made);
    expect_eq(rt, &files.opened, &opened);
    Ok(())
}

#[test]
fn numbers_that_fit_make_no_file(rt: HostRuntime) -> Result<(), Fail> {
    let alloc = rt.alloc();
    expect_files(&rt, alloc, &[], 1, 0)?;
    expect_files(&rt, alloc, &[8, 7], 1, 0)?;

    // A run of two records goes on in its file, and so does one of two numbers.
    expect_files(&rt, alloc, &[7, 8, 9], 2, 0)?;

    // Two runs and the merged one, of records and of numbers.
    expect_files(&rt, alloc, &[9, 8, 7], 6, 4)
}

/// Fails unless the fault is told where this call fails, of a sorter of 17 runs.
fn expect_failing(
    rt: &(impl Abort + Wait),
    alloc: Global,
    failing: Failing,
    fault: StoreFault,
) -> Result<(), Fail> {
    let mut files = Files::new(alloc, failing);
    let records = records_at(alloc, &falling(alloc, 0, 34)?)?;
    match sorted(rt, &mut files, Sorter::new(alloc, TWO_A_RUN), &records) {
        Ok(_) => Err(Fail::from("nothing failed")),
        Err(told) => {
            expect_eq(rt, &told, &SorterFault::Store(fault));
            Ok(())
        }
    }
}

#[test]
fn each_file_may_not_be_made(rt: HostRuntime) -> Result<(), Fail> {
    for file in 1..20u64 {
        expect_failing(&rt, rt.alloc(), Failing::Making(file), StoreFault::Make)?;
    }
    Ok(())
}

#[test]
fn each_write_may_fail(rt: HostRuntime) -> Result<(), Fail> {
    for file in 1..20u64 {
        // The merged files of 32 and 34 records, and runs of 2. Each is flushed at its end.
        let calls = match file {
            17 => 33,
            19 => 35,
            _ => 3u64,
        };
        for call in 1..calls + 1 {
            let failing = Failing::Writing { file, call };
            expect_failing(&rt, rt.alloc(), failing, StoreFault::Write)?;
        }
    }
    Ok(())
}

#[test]
fn each_file_may_not_be_read(rt: HostRuntime) -> Result<(), Fail> {
    for file in 1..19u64 {
        expect_failing(&rt, rt.alloc(), Failing::Opening(file), StoreFault::Read)?;
        for call in 1..3u64 {
            let failing = Failing::Reading { file, call };
            expect_failing(&rt, rt.alloc(), failing, StoreFault::Read)?;
        }
    }
    Ok(())
}

#[test]
fn a_record_that_takes_more_than_the_budget_wants_memory(rt: HostRuntime) -> Result<(), Fail> {
    let alloc = rt.alloc();
    let mut files = Files::new(alloc, Failing::Nothing);
    match sorted(
        &rt,
        &mut files,
        Sorter::new(alloc, 32),
        &records_at(alloc, &[7])?,
    ) {
        Ok(_) => return Err(Fail::from("the record was taken")),
        Err(fault) => expect_eq(&rt, &fault, &SorterFault::Store(StoreFault::Memory)),
    }
    Ok(())
}

#[test]
fn faults_of_sorters_are_shown(rt: HostRuntime) -> Result<(), Fail> {
    for (fault, text) in [
        (SorterFault::Store(StoreFault::Memory), "out of memory"),
        (
            SorterFault::Store(StoreFault::Make),
            "a file for a run can't be made",
        ),
        (SorterFault::Store(StoreFault::Write), "write failed"),
        (
            SorterFault::Store(StoreFault::Read),
            "the file of a run can't be read",
        ),
        (SorterFault::Store(StoreFault::TooMany), "too many records"),
        (
            SorterFault::Doubled {
                first: 3,
                second: 15,
            },
            "records 3 and 15 have one key",
        ),
    ] {
        let shown = format!(in rt.alloc(); "{}", fault)?;
        expect_bytes(&rt, shown.as_bytes(), text.as_bytes());
    }
    Ok(())
}
