//! What turns one chunk file into another.
ghost use Rattle.std.specs.Prelude.{◌≡◌, ◌≢◌, ◌⊎◌, ◌≤◌, ◌<◌, [], None, Some};
ghost use Rattle.prolly_tree.specs.Walks.{AreMaps, IsFirstChange, Maps};
ghost use Rattle.prolly_tree.specs.Difference.{IsDifference};
ghost use Rattle.prolly_c.specs.Changes.{AreAt};

use crate::changes::{Found, next_change};
use crate::cursor::Cursors;
use crate::run::Run;
use crate::status::{DONE, NONE, WRONG_INDEX, WrongIndex};

/// The next change between two chunk files, each with its index, behind which the cursors then
/// stand. `sides` tells which of them has the key: 1 the old one, 2 the new one, 3 both, with
/// different values. The value of a side that lacks the key stays as it was.
///
/// Takes no memory. Reads the pairs up to the change.
#[unsafe(no_mangle)]
pub extern "C" fn prolly_diff_next<'a>(
    old: &'a [u8],
    old_index: &[Run],
    new: &'a [u8],
    new_index: &[Run],
    cursors: &mut Cursors,
    key: &mut &'a [u8],
    before: &mut &'a [u8],
    after: &mut &'a [u8],
    sides: &mut u32,
) -> u32
    ensures removed { result ≡ 0 → sides.new ≡ 1 → (maps : Maps) → AreMaps maps →
        AreAt old.now old_index.now new.now new_index.now cursors.old maps → (rest : Maps) ×
        IsFirstChange maps key.new.now (Some before.new.now) None rest ×
        AreAt old.now old_index.now new.now new_index.now cursors.new rest }
    ensures added { result ≡ 0 → sides.new ≡ 2 → (maps : Maps) → AreMaps maps →
        AreAt old.now old_index.now new.now new_index.now cursors.old maps → (rest : Maps) ×
        IsFirstChange maps key.new.now None (Some after.new.now) rest ×
        AreAt old.now old_index.now new.now new_index.now cursors.new rest }
    ensures changed { result ≡ 0 → sides.new ≡ 3 → (maps : Maps) → AreMaps maps →
        AreAt old.now old_index.now new.now new_index.now cursors.old maps → (rest : Maps) ×
        IsFirstChange maps key.new.now (Some before.new.now) (Some after.new.now) rest ×
        AreAt old.now old_index.now new.now new_index.now cursors.new rest }
    ensures sides { result ≡ 0 → (0 < sides.new) × (sides.new ≤ 3) }
    ensures none { result ≡ 1 → (maps : Maps) → AreMaps maps →
        AreAt old.now old_index.now new.now new_index.now cursors.old maps →
        IsDifference maps.before maps.after [] }
    ensures stays { result ≢ 0 → (cursors.new ≡ cursors.old) × (sides.new ≡ sides.old) ×
        (key.new ≡ key.old) × (before.new ≡ before.old) × (after.new ≡ after.old) }
    ensures lacking { result ≡ 0 → (sides.new ≡ 1 → after.new ≡ after.old) ×
        (sides.new ≡ 2 → before.new ≡ before.old) }
    ensures answers { (maps : Maps) → AreMaps maps →
        AreAt old.now old_index.now new.now new_index.now cursors.old maps → result ≤ 1 }
    ensures status { (result ≤ 1) ⊎ (result ≡ 4) }
{
    match next_change(old, old_index, new, new_index, *cursors) {
        Ok(Found::Removed(pair, behind)) => {
            *key = pair.0;
            *before = pair.1;
            *cursors = behind;
            *sides = 1;
            DONE
        }
        Ok(Found::Added(pair, behind)) => {
            *key = pair.0;
            *after = pair.1;
            *cursors = behind;
            *sides = 2;
            DONE
        }
        Ok(Found::Changed(pair, value, behind)) => {
            *key = pair.0;
            *before = pair.1;
            *after = value;
            *cursors = behind;
            *sides = 3;
            DONE
        }
        Ok(Found::Nothing) => NONE,
        Err(WrongIndex) => WRONG_INDEX,
    }
}
