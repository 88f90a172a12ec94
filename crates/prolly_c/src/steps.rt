//! Where a cursor goes. Nothing is believed of the cursor, of the index, nor of the bytes.
ghost use Rattle.std.specs.Prelude.{◌≡◌, ◌<◌, [], ℕ, List, MatchOption, IfOk, IfSome};
ghost use Rattle.prolly_entry.specs.Pair.{Pair};
ghost use Rattle.prolly_tree.specs.Difference.{IsMap};
ghost use Rattle.prolly_look_up.specs.PairsFrom.{pairs_from};
ghost use Rattle.prolly_c.specs.Cursor.{IsAt, Steps, weight};
ghost use Rattle.prolly_c.specs.Runs.{Answers, AreRuns};

use crate::cursor::Cursor;
use crate::leaf::{Entry, entries_from};
use crate::run::{Run, bytes_between, count_up_to};
use crate::status::WrongIndex;
use prolly_entry::split_pair;
use prolly_look_up::Sought;

/// The cursor that stands before the first pair whose key is not less than `from`.
pub(crate) fn cursor_at(bytes: &[u8], runs: &[Run], from: &[u8]) -> Result<Cursor, WrongIndex>
    ensures { (pairs : List Pair) → AreRuns bytes.now 0 runs.now pairs → IsMap pairs →
        Answers (λ cursor. IsAt bytes.now runs.now cursor (pairs_from from.now pairs)) result }
{
    let next = count_up_to(bytes, runs, Sought::Key(from));
    if next == 0 {
        return Ok(Cursor {
            at: 0,
            end: 0,
            next,
        });
    }
    let Run { start, end, .. } = runs[next - 1];
    let rest = entries_from(bytes_between(bytes, start, end)?, from)?;
    Ok(Cursor {
        at: end.saturating_sub(rest.len()),
        end,
        next,
    })
}

/// The pair behind a cursor, and the cursor behind that pair.
pub(crate) fn next_pair<'a>(
    bytes: &'a [u8],
    runs: &[Run],
    cursor: Cursor,
) -> Result<Option<(Entry<'a>, Cursor)>, WrongIndex>
    ensures steps { (pairs : List Pair) → IsAt bytes.now runs.now cursor pairs →
        Answers (Steps bytes.now runs.now pairs) result }
    ensures nearer { IfOk result (λ step. IfSome step (λ s. weight runs.now s.1 < weight runs.now cursor)) }
{
    let Some(Cursor { at, end, next }) = in_run(runs, cursor) else {
        return Ok(None);
    };
    let Some((key, value, rest)) = split_pair(bytes_between(bytes, at, end)?) else {
        return Err(WrongIndex);
    };
    let behind = Cursor {
        at: end.saturating_sub(rest.len()),
        end,
        next,
    };
    Ok(Some(((key, value), behind)))
}

/// The same place with a pair in hand: where nothing is left of the run in hand, the next one is
/// taken, if there is one.
fn in_run(runs: &[Run], cursor: Cursor) -> Option<Cursor>
    ensures at { (bytes : List ℕ) (pairs : List Pair) → IsAt bytes runs.now cursor pairs →
        MatchOption result (pairs ≡ []) (λ inside. IsAt bytes runs.now inside pairs × (inside.at < inside.end)) }
    ensures weight { IfSome result (λ inside. weight runs.now inside ≡ weight runs.now cursor) }
{
    if cursor.at != cursor.end {
        return Some(cursor);
    }
    if cursor.next >= runs.len() {
        return None;
    }
    let run = runs[cursor.next];
    Some(Cursor {
        at: run.start,
        end: run.end,
        next: cursor.next + 1,
    })
}
