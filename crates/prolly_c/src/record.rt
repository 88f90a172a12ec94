//! Writing the records of a record file.
ghost use Rattle.std.specs.Prelude.{◌≡◌, ◌≢◌, ◌⊎◌, ◌+◌, ◌<◌, ◌++◌, length, take, drop};
ghost use Rattle.prolly_entry.specs.Pair.{IsPair};
ghost use Rattle.prolly_entry.specs.Spelling.{pair_spelling};

use crate::put::put_pair;
use crate::status::{DONE, NO_ROOM, USAGE};
use prolly_entry::{KEY_LIMIT, VALUE_LIMIT};

/// Appends a record, which puts a value at a key, behind the first `at` bytes of a buffer, and moves
/// `at` behind it.
///
/// A record has six bytes beside those of its key, of which there are 1,024 at most, and of its
/// value, of which there are 65,536 at most. Where the status is not `DONE`, nothing is changed.
#[unsafe(no_mangle)]
pub extern "C" fn prolly_record(key: &[u8], value: &[u8], out: &mut [u8], at: &mut usize) -> u32
    ensures written { result ≡ 0 → take at.new out.new ≡
        take at.old out.old ++ pair_spelling (record { key = key.now; value = value.now }) }
    ensures behind { result ≡ 0 → drop at.new out.new ≡ drop at.new out.old }
    ensures at { result ≡ 0 → at.new ≡ at.old + (6 + length key.now + length value.now) }
    ensures room { result ≡ 3 → length out.old < at.old + (6 + length key.now + length value.now) }
    ensures fits { (result ≡ 6) ⊎ IsPair (record { key = key.now; value = value.now }) }
    ensures long { result ≡ 6 → IsPair (record { key = key.now; value = value.now }) → ⊥ }
    ensures stays { result ≢ 0 → (out.new ≡ out.old) × (at.new ≡ at.old) }
    ensures status { (result ≡ 0) ⊎ ((result ≡ 3) ⊎ (result ≡ 6)) }
{
    if key.len() > KEY_LIMIT || value.len() > VALUE_LIMIT {
        return USAGE;
    }
    let start = *at;
    let size = 6 + key.len() + value.len();
    if start > out.len() || size > out.len() - start {
        return NO_ROOM;
    }
    put_pair(key, value, out, start);
    *at = start + size;
    DONE
}
