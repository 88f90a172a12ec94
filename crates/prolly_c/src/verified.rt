//! Whether bytes in memory are the proof of a set of keys.
ghost use Rattle.std.specs.Prelude.{OnOk, IfErr};
ghost use Rattle.prolly_range.specs.KeySet.{set_of};
ghost use Rattle.prolly_c.specs.RangeProofs.{IsNoRangeProof, IsSomeRangeProof};

use crate::lent::Lent;
use prolly_entry::{Ref, Version};
use prolly_range::{KeySet, SetFault, SetVerifier};
use std::alloc::Global;

/// Reads a proof to its end, or to its first fault.
pub(crate) fn verified(
    alloc: Global,
    version: Version,
    root: &Ref,
    set: KeySet<'_>,
    proof: &[u8],
) -> Result<(), SetFault>
    ensures ok { OnOk result (IsSomeRangeProof version root.now.0 (set_of set.entry) proof.now) }
    ensures err { IfErr result
        (IsNoRangeProof version root.now.0 (set_of set.entry) proof.now) }
{
    let mut source = Lent::new(proof);
    let mut verifier = SetVerifier::open(alloc, version, root, set, &mut source)?;
    while let Some(_) = verifier.next(alloc, &mut source)? {}
    Ok(())
}
