//! How long the hashes alone, links and the walk over two trees take, for `make bench`. Without
//! words it only says what it times, so that it prints the same each time it is run in the gate.
#![tactic(auto)]

mod hashes;
mod links;
mod samples;
mod trees;

use crate::hashes::time_hashes;
use crate::links::{time_batches, time_link};
use crate::samples::VALUE_BYTES;
use crate::trees::time_diff;
use anyhow::{Context, Result, bail};
use std::env;

const USAGE: &str = "prolly_bench hash PAIRS [VALUE_BYTES] | link ITEMS | batches-of-16 ITEMS | \
     batches-of-64 ITEMS | diff CHANGES OLD NEW";

fn main(rt: HostRuntime) -> Result<()> {
    let mut words = env::args(&rt)?;
    let _ = words.next();
    let Some(what) = words.next() else {
        println!(&rt; "{USAGE}")?;
        return Ok(());
    };
    let Some(count) = words.next() else {
        bail!("{USAGE}");
    };
    let count: u32 = count.parse().context("the count is a number")?;
    match what.as_str() {
        "hash" => {
            let value_bytes = match words.next() {
                Some(word) => word.parse().context("the bytes of a value are a number")?,
                None => VALUE_BYTES,
            };
            time_hashes(&rt, rt.alloc(), count, value_bytes)
        }
        "link" => time_link(rt, rt.alloc(), count),
        "batches-of-16" => time_batches(rt, rt.alloc(), count, 16),
        "batches-of-64" => time_batches(rt, rt.alloc(), count, 64),
        "diff" => match (words.next(), words.next()) {
            (Some(old), Some(new)) => time_diff(&rt, rt.alloc(), (&old, &new), count),
            _ => bail!("{USAGE}"),
        },
        _ => bail!("{USAGE}"),
    }
}
