//! The index of a chunk file.
ghost use Rattle.std.specs.Prelude.{◌≡◌, ◌≢◌, ◌⊎◌, ◌≤◌, ◌<◌, length, take, drop};
ghost use Rattle.prolly_look_up.specs.Content.{Content, IsFileOf};
ghost use Rattle.prolly_c.specs.Cursor.{IsAt, first_place};
ghost use Rattle.prolly_c.specs.Runs.{IsIndexOf, run_count};

use crate::run::Run;
use crate::status::{DONE, NO_FILE, NO_ROOM};
use crate::writer::write_index;

/// Writes the index of a chunk file that was checked, and tells how many runs it has. Where there
/// is room for fewer, the status is `NO_ROOM`, and what stands in `index` means nothing.
///
/// Takes no memory and no hash, and goes over the pairs once. Nothing is believed of the bytes, and
/// nothing but what they are for is promised of an index of bytes that are no chunk file.
#[unsafe(no_mangle)]
pub extern "C" fn prolly_index(bytes: &[u8], index: &mut [Run], count: &mut usize) -> u32
    ensures index { result ≡ 0 → (content : Content) → IsFileOf bytes.now content →
        IsIndexOf bytes.now content (take count.new index.new) }
    ensures within { result ≡ 0 → count.new ≤ length index.new }
    ensures behind { result ≡ 0 → drop count.new index.new ≡ drop count.new index.old }
    ensures room { result ≡ 3 → length index.new < count.new }
    ensures counted { result ≢ 5 → (content : Content) → IsFileOf bytes.now content →
        count.new ≡ run_count content }
    ensures start { result ≡ 0 → (content : Content) → IsFileOf bytes.now content →
        IsAt bytes.now (take count.new index.new) first_place content.pairs }
    ensures stays { result ≡ 5 → count.new ≡ count.old }
    ensures files { (content : Content) → IsFileOf bytes.now content →
        (result ≡ 0) ⊎ (result ≡ 3) }
    ensures status { (result ≡ 0) ⊎ ((result ≡ 3) ⊎ (result ≡ 5)) }
{
    let Some(runs) = write_index(bytes, index) else {
        return NO_FILE;
    };
    *count = runs;
    if runs > index.len() {
        return NO_ROOM;
    }
    DONE
}
