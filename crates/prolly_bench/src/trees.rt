//! What a walk over two trees takes, beside their check.
use anyhow::{Result, bail};
use prolly_check::{Tree, check};
use prolly_diff::Differences;
use prolly_io::FromRead;
use std::alloc::Global;
use std::fs;
use std::fs::Files;
use std::io::Print;
use std::time::{Clock, Instant};

/// The greatest length of a file.
const FILE_LIMIT: u32 = u32::MAX;

/// Times the walk over two trees that differ in so many keys.
pub fn time_diff<R: Print + Clock + Files>(
    rt: &R,
    alloc: Global,
    names: (&str, &str),
    changes: u32,
) -> Result<()> {
    let start = Instant::now(rt)?;
    let old = checked(rt, alloc, names.0)?;
    let new = checked(rt, alloc, names.1)?;
    let checking = start.elapsed(rt)?.as_micros();
    let start = Instant::now(rt)?;
    let count = count_changes(Differences::new(&old, &new));
    let walking = start.elapsed(rt)?.as_micros();
    if count != changes {
        bail!("there are {count} changes");
    }
    println!(rt; "diff of {count} changes: check {checking} us, walk {walking} us")?;
    Ok(())
}

/// The tree of a file.
fn checked<R: Files>(rt: &R, alloc: Global, name: &str) -> Result<Tree> {
    match check(alloc, &mut FromRead::new(fs::open(rt, name)?), FILE_LIMIT) {
        Ok(tree) => Ok(tree),
        Err(_) => bail!("{name} is no chunk file"),
    }
}

/// How many changes a walk gives.
fn count_changes(mut differences: Differences<'_>) -> u32 {
    let mut count = 0u32;
    while let Some(_) = differences.next() {
        count = count.saturating_add(1);
    }
    count
}
