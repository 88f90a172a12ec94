//! The hashes alone that a tree takes, to compare with.
use crate::samples::Entry;
use anyhow::Result;
use sha2::{Digest, Sha512};
use std::alloc::{AllocError, Global};
use std::io::Print;
use std::time::{Clock, Instant};

/// How many entries a chunk has: as many as one is cut by 12 bits of a hash on average.
const CHUNK_ENTRIES: u32 = 4_096;

/// Times what the format asks to be hashed of so many pairs with keys of 16 bytes and values of so
/// many: each entry by itself, and the bytes of each leaf. The nodes above are left out; they are
/// less than a thousandth.
pub fn time_hashes<R: Print + Clock>(
    rt: &R,
    alloc: Global,
    count: u32,
    value_bytes: u32,
) -> Result<()> {
    let start = Instant::now(rt)?;
    let sum = hash_all(alloc, count, value_bytes)?;
    let millis = start.elapsed(rt)?.as_millis();
    println!(rt; "hash {count} pairs: {millis} ms, sum {sum}")?;
    Ok(())
}

/// Hashes all, and gives a sum of bytes of the hashes, so that no hash is left out.
fn hash_all(alloc: Global, count: u32, value_bytes: u32) -> Result<u32, AllocError> {
    let mut entry = Entry::new(alloc, value_bytes)?;
    let mut sum = 0u32;
    let mut chunk = Sha512::new();
    chunk.update(&[0]);
    for number in 0..count {
        entry.spell(number)?;
        sum = sum.wrapping_add(u32::from(Sha512::digest(entry.bytes())[0]));
        chunk.update(entry.bytes());
        if number % CHUNK_ENTRIES == CHUNK_ENTRIES - 1 {
            sum = sum.wrapping_add(u32::from(chunk.finalize()[0]));
            chunk = Sha512::new();
            chunk.update(&[0]);
        }
    }
    Ok(sum.wrapping_add(u32::from(chunk.finalize()[0])))
}
