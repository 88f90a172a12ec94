//! Pairs of short keys.
use prolly_entry::Pair;
use std::alloc::Global;
use std::test::Fail;

/// The pairs of these keys, each with the value 1.
pub fn pairs_of(alloc: Global, keys: &[&[u8]]) -> Result<Vec<Pair>, Fail> {
    let mut pairs = Vec::new(alloc);
    for key in keys {
        let pair = Pair::new(Vec::from_slice(alloc, key)?, Vec::from_slice(alloc, b"1")?)?;
        pairs.push(pair)?;
    }
    Ok(pairs)
}
