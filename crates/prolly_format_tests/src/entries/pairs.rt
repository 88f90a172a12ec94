//! Pairs, and their copies.
use crate::expect::expect_bytes;
use prolly_entry::{Pair, VALUE_LIMIT};
use std::test::Fail;

#[test]
fn copies_are_whole_whether_short_or_long(rt: HostRuntime) -> Result<(), Fail> {
    let key = [0x6B; 20];
    for length in [0, 19, 20, 21, VALUE_LIMIT] {
        let value = vec![in rt.alloc(); 0x76; length]?;
        let copy = Pair::copy_of(rt.alloc(), &key, &value)?;
        expect_bytes(&rt, copy.key(), &key);
        expect_bytes(&rt, copy.value(), &value);
    }
    Ok(())
}
