//! Runs of several tables, whose first bytes do not tell their keys apart.
use crate::expect::expect_eq;
use crate::runs::{AMPLE, record_of};
use prolly_sort::{Run, SortedRun};
use std::alloc::Global;
use std::process::Abort;
use std::test::Fail;

/// How many rows each table has.
const ROWS: u32 = 100;

/// The key of a row: the front of its table, and six digits.
fn row_key(alloc: Global, table: &str, row: u32) -> Result<Vec<u8>, Fail> {
    Ok(format!(in alloc; "{table}{row:06}")?.into_bytes())
}

/// Puts a value at each row of a table, in another order than that of the rows.
fn push_table(alloc: Global, run: &mut Run, table: &str, value: u8) -> Result<(), Fail> {
    for number in 0..ROWS {
        let key = row_key(alloc, table, number * 37 % ROWS)?;
        run.push(&record_of(alloc, &key, Some(value))?)?;
    }
    Ok(())
}

/// Appends the keys of a table in the order of its rows.
fn append_keys(alloc: Global, keys: &mut Vec<Vec<u8>>, table: &str) -> Result<(), Fail> {
    for row in 0..ROWS {
        keys.push(row_key(alloc, table, row)?)?;
    }
    Ok(())
}

/// Fails unless the run has just these keys, in this order, all with this value.
fn expect_keys(rt: &impl Abort, sorted: &SortedRun, keys: &[Vec<u8>], value: u8) {
    expect_eq(rt, &sorted.len(), &keys.len());
    for (number, key) in keys.iter().enumerate() {
        let value = [value];
        let expected = Some((key.as_slice(), Some(value.as_slice())));
        expect_eq(rt, &sorted.get(number), &expected);
    }
}

/// Tables whose fronts rise. Some of these begin alike.
const TABLES: [&str; 4] = ["order:", "order:line:", "user:", "user:mail-addresses:"];

#[test]
fn tables_are_put_in_order(rt: HostRuntime) -> Result<(), Fail> {
    let alloc = rt.alloc();
    let mut run = Run::new(alloc, AMPLE);
    for value in [b'1', b'2'] {
        for table in TABLES.iter().rev() {
            push_table(alloc, &mut run, table, value)?;
        }
    }
    let mut keys = Vec::new(alloc);
    for table in TABLES {
        append_keys(alloc, &mut keys, table)?;
    }
    expect_keys(&rt, &run.sort(), &keys, b'2');
    Ok(())
}

#[test]
fn keys_that_begin_as_no_other_does_are_put_in_order(rt: HostRuntime) -> Result<(), Fail> {
    let alloc = rt.alloc();
    let mut run = Run::new(alloc, AMPLE);
    run.push(&record_of(alloc, b"zebra", Some(b'1'))?)?;
    push_table(alloc, &mut run, "https://example.org/", b'1')?;
    run.push(&record_of(alloc, b"ftp:", Some(b'1'))?)?;
    let mut keys = Vec::new(alloc);
    keys.push(Vec::from_slice(alloc, b"ftp:")?)?;
    append_keys(alloc, &mut keys, "https://example.org/")?;
    keys.push(Vec::from_slice(alloc, b"zebra")?)?;
    expect_keys(&rt, &run.sort_unique()?, &keys, b'1');
    Ok(())
}
