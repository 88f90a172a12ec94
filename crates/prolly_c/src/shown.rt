//! The index of the pairs that the proof of a range shows, over the bytes of the proof.
ghost use Rattle.std.specs.Prelude.{◌≡◌, ◌≤◌, ◌-◌, ◌*◌, ◌++◌, List, ℕ, length, take, drop};
ghost use Rattle.std.specs.Prelude.{IfErr, IfOk, IfSome, MatchOption, OnErr};
ghost use Rattle.std.specs.Option.{option_copied};
ghost use Rattle.prolly_entry.specs.Pair.{Pair};
ghost use Rattle.prolly_entry.specs.declared.version.Version.{Version as VersionValue};
ghost use Rattle.prolly_io.specs.Frame.{framed};
ghost use Rattle.prolly_range.specs.KeySet.KeySet.{Range};
ghost use Rattle.prolly_range.specs.SetProof.{IsSetProof};
ghost use Rattle.prolly_tree.specs.lemmas.Maps.{Rises};
ghost use Rattle.prolly_look_up.specs.Entries.{IsLeaf};
ghost use Rattle.prolly_look_up.specs.PairsFrom.{pairs_from};
ghost use Rattle.prolly_c.specs.RangeProofs.{HasShown, IsNoRangeProof, Shows, pairs_behind};
ghost use Rattle.prolly_c.specs.RangeProofs.{runs_shown};
ghost use Rattle.prolly_c.specs.Runs.{Answers, AreRuns, IsEnd};
ghost use Rattle.prolly_c.specs.Writing.{Wrote, WroteChunk};

use crate::leaf::entries_from;
use crate::run::Run;
use crate::status::WrongIndex;
use crate::verified::verified;
use crate::writer::{Written, add_leaf};
use prolly_entry::{Ref, Version};
use prolly_io::front_frame;
use prolly_look_up::LEAF;
use prolly_range::{KeySet, PROOF_START, SetFault};
use std::alloc::Global;

/// Verifies a proof, writes the index of the pairs that it shows, as far as there is room, and answers
/// how many runs that has.
pub(crate) fn shown_index(
    alloc: Global,
    version: Version,
    root: &Ref,
    from: &[u8],
    to: Option<&[u8]>,
    proof: &[u8],
    out: &mut [Run],
) -> Result<usize, SetFault>
    ensures ok { IfOk result (HasShown version root.now.0 (Range from.now (option_copied to.entry))
        proof.now out.new) }
    ensures err { IfErr result (IsNoRangeProof version root.now.0
        (Range from.now (option_copied to.entry)) proof.now) }
    ensures few { IfOk result (λ runs. 6 * runs ≤ length proof.now) }
    ensures behind { IfOk result (λ runs. drop runs out.new ≡ drop runs out.old) }
    ensures stays { OnErr result (out.new ≡ out.old) }
    ensures room { length out.new ≡ length out.old }
{
    verified(alloc, version, root, KeySet::Range { from, to }, proof)?;
    match write_shown(proof, from, to, out) {
        Some(runs) => Ok(runs),
        // Of bytes that were verified each frame and each pair was read before.
        None => Err(SetFault::Stopped),
    }
}

/// Writes the index of the pairs that a proof shows, as far as there is room, and answers how many
/// runs it has. Nothing is believed of the bytes.
fn write_shown(proof: &[u8], from: &[u8], to: Option<&[u8]>, out: &mut [Run]) -> Option<usize>
    ensures index { (version : VersionValue) (root : List ℕ) (pairs : List Pair) →
        IsSetProof version root (Range from.now (option_copied to.entry)) proof.now pairs →
        MatchOption result ⊥ (λ runs. runs ≤ length out.new →
        AreRuns proof.now 0 (take runs out.new) pairs) }
    ensures count { (version : VersionValue) (root : List ℕ) (pairs : List Pair) →
        (p : IsSetProof version root (Range from.now (option_copied to.entry)) proof.now pairs) →
        IfSome result (λ runs. runs ≡
        runs_shown version (Range from.now (option_copied to.entry)) p.chunks) }
    ensures few { IfSome result (λ runs. 6 * runs ≤ length proof.now) }
    ensures behind { IfSome result (λ runs. drop runs out.new ≡ drop runs out.old) }
    ensures room { length out.new ≡ length out.old }
{
    if proof.len() < PROOF_START {
        return None;
    }
    let (_, mut rest) = proof.split_at(PROOF_START);
    let mut written = Written { runs: 0, pairs: 0 };
    while let Some((chunk, behind)) = front_frame(rest) {
        written = add_shown(proof, rest, chunk, behind, from, to, out, written)?;
        rest = behind;
    }
    Some(written.runs)
}

/// Adds the runs of the pairs of the range that a chunk shows, whose frame begins `rest`, and behind
/// which `behind` stands. A node shows none.
fn add_shown(
    proof: &[u8],
    rest: &[u8],
    chunk: &[u8],
    behind: &[u8],
    from: &[u8],
    to: Option<&[u8]>,
    out: &mut [Run],
    written: Written,
) -> Option<Written>
    requires within { length rest.now ≤ length proof.now }
    requires frame { rest.now ≡ framed chunk.now ++ behind.now }
    requires few { 6 * written.pairs ≤ length proof.now - length rest.now }
    requires fewer { written.runs ≤ written.pairs }
    ensures few { IfSome result (λ w. 6 * w.pairs ≤ length proof.now - length behind.now) }
    ensures fewer { IfSome result (λ w. w.runs ≤ w.pairs) }
    ensures wrote { (version : VersionValue) (done pairs : List Pair) → IsEnd proof.now rest.now →
        Shows version (Range from.now (option_copied to.entry)) chunk.now pairs →
        Wrote proof.now out.old written done →
        MatchOption result ⊥ (λ w. WroteChunk proof.now out.new written w done pairs) }
    ensures more { IfSome result (λ w. written.runs ≤ w.runs) }
    ensures behind { IfSome result (λ w. drop w.runs out.new ≡ drop w.runs out.old) }
    ensures room { length out.new ≡ length out.old }
{
    if chunk.is_empty() || chunk[0] != LEAF {
        return Some(written);
    }
    let Ok((wanted, beyond)) = wanted_of(&chunk[1..], from, to) else {
        return None;
    };
    let left = wanted.len() + behind.len();
    let (_, entries) = rest.split_at(rest.len() - left);
    add_leaf(proof, entries, beyond.len() + behind.len(), out, written)
}

/// The entries of a leaf from the first pair of a range on, and those behind its last one.
fn wanted_of<'a>(
    entries: &'a [u8],
    from: &[u8],
    to: Option<&[u8]>,
) -> Result<(&'a [u8], &'a [u8]), WrongIndex>
    ensures leaf { (pairs : List Pair) → IsLeaf entries.now pairs → Rises pairs →
        Answers (λ r. IsLeaf r.0.now (pairs_from from.now pairs) ×
        IsLeaf r.1.now (pairs_behind (option_copied to.entry) (pairs_from from.now pairs))) result }
    ensures end { IfOk result (λ r. IsEnd entries.now r.0.now × (length r.1.now ≤ length r.0.now)) }
{
    let wanted = entries_from(entries, from)?;
    match to {
        None => Ok((wanted, &[])),
        Some(to) => Ok((wanted, entries_from(wanted, to)?)),
    }
}
