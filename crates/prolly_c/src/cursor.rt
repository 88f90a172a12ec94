//! Going over the pairs of a chunk file, one after another.
ghost use Rattle.std.specs.Prelude.{◌≡◌, ◌≢◌, ◌⊎◌, ◌≤◌, ◌∷◌, [], List};
ghost use Rattle.prolly_entry.specs.Pair.{Pair};
ghost use Rattle.prolly_look_up.specs.Content.{Content};
ghost use Rattle.prolly_look_up.specs.PairsFrom.{pairs_from};
ghost use Rattle.prolly_c.specs.Cursor.{IsAt};
ghost use Rattle.prolly_c.specs.Runs.{IsIndexOf};

use crate::run::Run;
use crate::status::{DONE, NONE, WRONG_INDEX, WrongIndex};
use crate::steps::{cursor_at, next_pair};

/// A place between the pairs of a chunk file: behind it come the pairs whose entries are the bytes
/// from `at` to `end`, and then those of the run of the number `next` and of all runs behind that
/// one. So a cursor of zeros stands before all pairs.
#[repr(C)]
#[derive(Clone, Copy)]
pub struct Cursor {
    pub at: usize,
    pub end: usize,
    pub next: usize,
}

/// A cursor of each of two files.
#[repr(C)]
#[derive(Clone, Copy)]
pub struct Cursors {
    pub before: Cursor,
    pub after: Cursor,
}

/// Puts a cursor before the first pair whose key is not less than `from`, or behind all pairs where
/// there is none.
///
/// Takes no memory. Compares the key with one in each of some log n runs, and with those of one run.
#[unsafe(no_mangle)]
pub extern "C" fn prolly_seek(bytes: &[u8], index: &[Run], from: &[u8], cursor: &mut Cursor) -> u32
    ensures at { (content : Content) → IsIndexOf bytes.now content index.now →
        IsAt bytes.now index.now cursor.new (pairs_from from.now content.pairs) }
    ensures answers { (content : Content) → IsIndexOf bytes.now content index.now → result ≡ 0 }
    ensures stays { result ≢ 0 → cursor.new ≡ cursor.old }
    ensures status { (result ≡ 0) ⊎ (result ≡ 4) }
{
    match cursor_at(bytes, index, from) {
        Ok(at) => {
            *cursor = at;
            DONE
        }
        Err(WrongIndex) => WRONG_INDEX,
    }
}

/// The key and the value of the next pair, behind which the cursor then stands. Where none is left,
/// it stays.
///
/// Takes no memory, and the same time for each pair.
#[unsafe(no_mangle)]
pub extern "C" fn prolly_next<'a>(
    bytes: &'a [u8],
    index: &[Run],
    cursor: &mut Cursor,
    key: &mut &'a [u8],
    value: &mut &'a [u8],
) -> u32
    ensures next { result ≡ 0 → (pairs : List Pair) → IsAt bytes.now index.now cursor.old pairs →
        (rest : List Pair) ×
        (pairs ≡ record { key = key.new.now; value = value.new.now } ∷ rest) ×
        IsAt bytes.now index.now cursor.new rest }
    ensures none { result ≡ 1 → (pairs : List Pair) → IsAt bytes.now index.now cursor.old pairs →
        pairs ≡ [] }
    ensures stays { result ≢ 0 → (cursor.new ≡ cursor.old) ×
        (key.new ≡ key.old) × (value.new ≡ value.old) }
    ensures answers { (pairs : List Pair) → IsAt bytes.now index.now cursor.old pairs → result ≤ 1 }
    ensures status { (result ≤ 1) ⊎ (result ≡ 4) }
{
    match next_pair(bytes, index, *cursor) {
        Ok(Some((pair, behind))) => {
            *key = pair.0;
            *value = pair.1;
            *cursor = behind;
            DONE
        }
        Ok(None) => NONE,
        Err(WrongIndex) => WRONG_INDEX,
    }
}
