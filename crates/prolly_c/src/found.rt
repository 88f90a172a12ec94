//! What is found by an index. Nothing is believed of the index, nor of the bytes.
ghost use Rattle.std.specs.Prelude.{◌≡◌, List};
ghost use Rattle.std.specs.Option.{option_copied};
ghost use Rattle.prolly_entry.specs.Pair.{Pair};
ghost use Rattle.prolly_tree.specs.Difference.{IsMap};
ghost use Rattle.prolly_tree.specs.LookUp.{find, nth};
ghost use Rattle.prolly_look_up.specs.FoundPairs.{pair_found};
ghost use Rattle.prolly_c.specs.Runs.{Answers, AreRuns};

use crate::leaf::{Entry, pair_in, value_in};
use crate::run::{Run, bytes_between, count_up_to};
use crate::status::WrongIndex;
use prolly_look_up::Sought;

/// The value of the key.
pub(crate) fn value_by<'a>(
    bytes: &'a [u8],
    runs: &[Run],
    key: &[u8],
) -> Result<Option<&'a [u8]>, WrongIndex>
    ensures { (pairs : List Pair) → AreRuns bytes.now 0 runs.now pairs → IsMap pairs →
        Answers (λ value. option_copied value ≡ find pairs key.now) result }
{
    let count = count_up_to(bytes, runs, Sought::Key(key));
    if count == 0 {
        return Ok(None);
    }
    let run = runs[count - 1];
    value_in(bytes_between(bytes, run.start, run.end)?, key)
}

/// The pair of this number.
pub(crate) fn pair_by<'a>(
    bytes: &'a [u8],
    runs: &[Run],
    number: u64,
) -> Result<Option<Entry<'a>>, WrongIndex>
    ensures { (pairs : List Pair) → AreRuns bytes.now 0 runs.now pairs →
        Answers (λ pair. pair_found pair ≡ nth pairs number) result }
{
    let count = count_up_to(bytes, runs, Sought::Number(number));
    if count == 0 {
        return Ok(None);
    }
    let run = runs[count - 1];
    pair_in(
        bytes_between(bytes, run.start, run.end)?,
        number - run.first,
    )
}
