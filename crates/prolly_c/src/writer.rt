//! Writing the index of a chunk file. Nothing is believed of the bytes.
ghost use Rattle.std.specs.Prelude.{◌≡◌, ◌≤◌, ◌<◌, ◌+◌, ◌-◌, ◌*◌, ◌++◌, List, ℕ, length, take};
ghost use Rattle.std.specs.Prelude.{drop, IfSome, MatchOption};
ghost use Rattle.prolly_entry.specs.Pair.{Pair};
ghost use Rattle.prolly_entry.specs.declared.version.Version.{Version};
ghost use Rattle.prolly_io.specs.Frame.{framed};
ghost use Rattle.prolly_look_up.specs.Content.{Content, IsFileOf};
ghost use Rattle.prolly_look_up.specs.Entries.{Holds};
ghost use Rattle.prolly_c.specs.Runs.{AreRuns, IsEnd, IsRun, run_count};
ghost use Rattle.prolly_c.specs.Writing.{Passes, Spells, Wrote, WroteChunk};

use crate::run::Run;
use prolly_check::laws::files_are_accepted;
use prolly_entry::split_pair;
use prolly_io::{FRAME_FRONT, HEADER_SIZE, front_frame};
use prolly_look_up::LEAF;

/// How many pairs a run has at most.
const RUN_PAIRS: u64 = 16;

/// How many runs there are so far, and how many pairs they hold.
#[derive(Clone, Copy)]
pub(crate) struct Written {
    pub(crate) runs: usize,
    pub(crate) pairs: u64,
}

/// Writes the index of a file as far as there is room, and answers how many runs it has.
pub(crate) fn write_index(bytes: &[u8], out: &mut [Run]) -> Option<usize>
    ensures index { (content : Content) → IsFileOf bytes.now content →
        MatchOption result ⊥ (λ runs. runs ≤ length out.new →
        AreRuns bytes.now 0 (take runs out.new) content.pairs) }
    ensures count { (content : Content) → IsFileOf bytes.now content →
        IfSome result (λ runs. runs ≡ run_count content) }
    ensures behind { IfSome result (λ runs. drop runs out.new ≡ drop runs out.old) }
    ensures room { length out.new ≡ length out.old }
{
    // By this law the frames of a file of a map are those of its chunks.
    files_are_accepted();
    if bytes.len() < HEADER_SIZE {
        return None;
    }
    let (_, mut rest) = bytes.split_at(HEADER_SIZE);
    let mut written = Written { runs: 0, pairs: 0 };
    while let Some((chunk, behind)) = front_frame(rest) {
        written = add_chunk(bytes, rest, chunk, behind, out, written)?;
        rest = behind;
    }
    Some(written.runs)
}

/// Adds the runs of the chunk whose frame begins `rest`, behind which `behind` stands. A node has
/// none.
fn add_chunk(
    bytes: &[u8],
    rest: &[u8],
    chunk: &[u8],
    behind: &[u8],
    out: &mut [Run],
    written: Written,
) -> Option<Written>
    requires within { length rest.now ≤ length bytes.now }
    requires frame { rest.now ≡ framed chunk.now ++ behind.now }
    requires few { 6 * written.pairs ≤ length bytes.now - length rest.now }
    requires fewer { written.runs ≤ written.pairs }
    ensures few { IfSome result (λ w. 6 * w.pairs ≤ length bytes.now - length behind.now) }
    ensures fewer { IfSome result (λ w. w.runs ≤ w.pairs) }
    ensures wrote { (version : Version) (done pairs : List Pair) → IsEnd bytes.now rest.now →
        Holds version chunk.now pairs → Wrote bytes.now out.old written done →
        MatchOption result ⊥ (λ w. WroteChunk bytes.now out.new written w done pairs) }
    ensures more { IfSome result (λ w. written.runs ≤ w.runs) }
    ensures behind { IfSome result (λ w. drop w.runs out.new ≡ drop w.runs out.old) }
    ensures room { length out.new ≡ length out.old }
{
    if chunk.is_empty() || chunk[0] != LEAF {
        return Some(written);
    }
    let (_, entries) = rest.split_at(FRAME_FRONT);
    add_leaf(bytes, entries, behind.len(), out, written)
}

/// Adds the runs of a leaf: `entries` begins with its entries, and has so many bytes behind them.
pub(crate) fn add_leaf(
    bytes: &[u8],
    entries: &[u8],
    behind: usize,
    out: &mut [Run],
    written: Written,
) -> Option<Written>
    requires within { length entries.now ≤ length bytes.now }
    requires few { 6 * written.pairs ≤ length bytes.now - length entries.now }
    requires fewer { written.runs ≤ written.pairs }
    requires behind { behind ≤ length entries.now }
    ensures few { IfSome result (λ w. 6 * w.pairs ≤ length bytes.now - behind) }
    ensures fewer { IfSome result (λ w. w.runs ≤ w.pairs) }
    ensures wrote { (done pairs : List Pair) (tail : List ℕ) → IsEnd bytes.now entries.now →
        Spells entries.now pairs tail → length tail ≡ behind →
        Wrote bytes.now out.old written done →
        MatchOption result ⊥ (λ w. WroteChunk bytes.now out.new written w done pairs) }
    ensures more { IfSome result (λ w. written.runs ≤ w.runs) }
    ensures behind { IfSome result (λ w. drop w.runs out.new ≡ drop w.runs out.old) }
    ensures room { length out.new ≡ length out.old }
{
    let mut left = entries;
    let mut here = written;
    while left.len() > behind {
        let (count, rest) = pass_run(left, behind)?;
        let run = Run {
            start: bytes.len() - left.len(),
            end: bytes.len() - rest.len(),
            first: here.pairs,
        };
        here = add_run(out, here, run, count);
        left = rest;
    }
    if left.len() < behind {
        return None;
    }
    Some(here)
}

/// Adds a run of so many pairs.
fn add_run(out: &mut [Run], written: Written, run: Run, count: u64) -> Written
    requires pairs { written.pairs + count < 18446744073709551616 }
    requires runs { written.runs < 18446744073709551615 }
    ensures pairs { result.pairs ≡ written.pairs + count }
    ensures runs { result.runs ≡ written.runs + 1 }
    ensures wrote { (bytes : List ℕ) (done here : List Pair) → Wrote bytes out.old written done →
        run.first ≡ written.pairs → IsRun bytes run here → count ≡ length here →
        Wrote bytes out.new result (done ++ here) }
    ensures behind { drop result.runs out.new ≡ drop result.runs out.old }
    ensures room { length out.new ≡ length out.old }
{
    if written.runs < out.len() {
        out[written.runs] = run;
    }
    Written {
        runs: written.runs + 1,
        pairs: written.pairs + count,
    }
}

/// Passes over the pairs of one run: how many there are, and what stands behind them.
fn pass_run(entries: &[u8], behind: usize) -> Option<(u64, &[u8])>
    ensures shorter { IfSome result (λ r. length r.1.now + 6 * r.0 ≤ length entries.now) }
    ensures some { behind < length entries.now → IfSome result (λ r. 0 < r.0) }
    ensures few { IfSome result (λ r. r.0 ≤ 16) }
    ensures full { IfSome result (λ r. r.0 < 16 → length r.1.now ≤ behind) }
    ensures passes { (pairs : List Pair) (tail : List ℕ) → Spells entries.now pairs tail →
        length tail ≡ behind →
        MatchOption result ⊥ (λ r. Passes entries.now pairs tail r.0 r.1.now) }
{
    let mut rest = entries;
    let mut count = 0;
    while count < RUN_PAIRS && rest.len() > behind {
        let (_, _, next) = split_pair(rest)?;
        rest = next;
        count += 1;
    }
    Some((count, rest))
}
