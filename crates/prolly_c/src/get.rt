//! Look-ups by an index.
ghost use Rattle.std.specs.Prelude.{◌≡◌, ◌≢◌, ◌⊎◌, ◌≤◌, Some, None};
ghost use Rattle.prolly_tree.specs.LookUp.{find, nth};
ghost use Rattle.prolly_look_up.specs.Content.{Content};
ghost use Rattle.prolly_c.specs.Runs.{IsIndexOf};

use crate::found::{pair_by, value_by};
use crate::run::Run;
use crate::status::{DONE, NONE, WRONG_INDEX, WrongIndex};

/// The value of the key in a chunk file, by the index that [`prolly_index`](crate::prolly_index)
/// wrote of these bytes. It lies in these bytes.
///
/// Takes no memory. Compares the key with one in each of some log n runs, and with those of one run.
#[unsafe(no_mangle)]
pub extern "C" fn prolly_get<'a>(
    bytes: &'a [u8],
    index: &[Run],
    key: &[u8],
    value: &mut &'a [u8],
) -> u32
    ensures found { result ≡ 0 → (content : Content) → IsIndexOf bytes.now content index.now →
        find content.pairs key.now ≡ Some value.new.now }
    ensures none { result ≡ 1 → (content : Content) → IsIndexOf bytes.now content index.now →
        find content.pairs key.now ≡ None }
    ensures answers { (content : Content) → IsIndexOf bytes.now content index.now → result ≤ 1 }
    ensures stays { result ≢ 0 → value.new ≡ value.old }
    ensures status { (result ≤ 1) ⊎ (result ≡ 4) }
{
    match value_by(bytes, index, key) {
        Ok(Some(found)) => {
            *value = found;
            DONE
        }
        Ok(None) => NONE,
        Err(WrongIndex) => WRONG_INDEX,
    }
}

/// The key and the value of the pair of this number, counted from 0 in the order of the keys. Else
/// as [`prolly_get`].
#[unsafe(no_mangle)]
pub extern "C" fn prolly_nth<'a>(
    bytes: &'a [u8],
    index: &[Run],
    number: u64,
    key: &mut &'a [u8],
    value: &mut &'a [u8],
) -> u32
    ensures found { result ≡ 0 → (content : Content) → IsIndexOf bytes.now content index.now →
        nth content.pairs number ≡ Some (record { key = key.new.now; value = value.new.now }) }
    ensures none { result ≡ 1 → (content : Content) → IsIndexOf bytes.now content index.now →
        nth content.pairs number ≡ None }
    ensures answers { (content : Content) → IsIndexOf bytes.now content index.now → result ≤ 1 }
    ensures stays { result ≢ 0 → (key.new ≡ key.old) × (value.new ≡ value.old) }
    ensures status { (result ≤ 1) ⊎ (result ≡ 4) }
{
    match pair_by(bytes, index, number) {
        Ok(Some(found)) => {
            *key = found.0;
            *value = found.1;
            DONE
        }
        Ok(None) => NONE,
        Err(WrongIndex) => WRONG_INDEX,
    }
}
