//! Proofs of ranges and of lists of keys of small maps: each is read as it was written, and nothing
//! else is.
mod damaged;
mod lists;
mod ranges;

use crate::expect::expect_eq;
use crate::tree_file::TreeFile;
use prolly_io::{ScriptSink, ScriptSource};
use prolly_range::{KeySet, ProveFault, SetFault, SetVerifier, SortedKeys, prove_set};
use std::alloc::{AllocError, Global};
use std::process::Abort;
use std::test::Fail;

/// More chunks than any of these proofs has.
const MOST_CHUNKS: usize = 1_000;

/// More pairs than any of their chunks shows.
const MOST_PAIRS: usize = 100;

impl TreeFile {
    /// The proof of a set of keys, over a device and a sink whose calls of these numbers fail; 0 for
    /// none. Gives what the sink took, and the fault.
    pub(crate) fn proof_at(
        &self,
        alloc: Global,
        set: KeySet<'_>,
        fail_at: (u64, u64),
    ) -> Result<(Vec<u8>, Option<ProveFault>), AllocError> {
        let mut chunks = self.chunks(alloc, fail_at.0)?;
        let mut sink = ScriptSink::new(alloc, 7, Some(fail_at.1));
        let fault = prove_set(alloc, &mut chunks, self.version, &self.root, set, &mut sink).err();
        Ok((sink.taken().to_vec(alloc)?, fault))
    }

    /// The proof of a set of keys.
    pub(crate) fn proof(
        &self,
        rt: &impl Abort,
        alloc: Global,
        set: KeySet<'_>,
    ) -> Result<Vec<u8>, AllocError> {
        let (proof, fault) = self.proof_at(alloc, set, (0, 0))?;
        expect_eq(rt, &fault, &None);
        Ok(proof)
    }

    /// What a proof shows: the keys and values, joined, and the fault. The source gives so many
    /// bytes at a time, and fails at the read of this number; 0 for none.
    pub(crate) fn shown(
        &self,
        rt: &impl Abort,
        alloc: Global,
        set: KeySet<'_>,
        proof: Vec<u8>,
        fail_at: u64,
    ) -> Result<(Vec<u8>, Option<SetFault>), AllocError> {
        let mut source = ScriptSource::new(proof, 11, Some(fail_at));
        let mut shown = Vec::new(alloc);
        let mut verifier = match SetVerifier::open(
            alloc,
            self.version,
            &self.root,
            set,
            &mut source,
        ) {
            Ok(verifier) => verifier,
            Err(fault) => return Ok((shown, Some(fault))),
        };
        for _ in 0..MOST_CHUNKS {
            match next(alloc, &mut verifier, &mut source)? {
                Ok(Some(pairs)) => shown.extend_from_slice(&pairs)?,
                Ok(None) => return Ok((shown, None)),
                Err(fault) => {
                    expect_stopped(rt, alloc, &mut verifier, &mut source);
                    return Ok((shown, Some(fault)));
                }
            }
        }
        Ok((shown, None))
    }
}

/// The pairs of the next chunk, joined.
fn next(
    alloc: Global,
    verifier: &mut SetVerifier<'_>,
    source: &mut ScriptSource,
) -> Result<Result<Option<Vec<u8>>, SetFault>, AllocError> {
    let chunk = match verifier.next(alloc, source) {
        Ok(Some(chunk)) => chunk,
        Ok(None) => return Ok(Ok(None)),
        Err(fault) => return Ok(Err(fault)),
    };
    let mut pairs = chunk.pairs();
    let mut shown = Vec::new(alloc);
    for _ in 0..MOST_PAIRS {
        let Some((key, value)) = pairs.next() else {
            break;
        };
        shown.extend_from_slice(key)?;
        shown.extend_from_slice(value)?;
    }
    Ok(Ok(Some(shown)))
}

/// Fails unless the verifier shows nothing more.
fn expect_stopped(
    rt: &impl Abort,
    alloc: Global,
    verifier: &mut SetVerifier<'_>,
    source: &mut ScriptSource,
) {
    let again = verifier.next(alloc, source).err();
    expect_eq(rt, &again, &Some(SetFault::Stopped));
}

/// The range of keys of a byte each; to the end of the map where there is no other key.
pub(crate) fn range<'a>(from: &'a [u8], to: Option<&'a [u8]>) -> KeySet<'a> {
    KeySet::Range { from, to }
}

/// The list of these keys, which rise.
pub(crate) fn list(keys: &[Vec<u8>]) -> Result<KeySet<'_>, Fail> {
    let sorted = SortedKeys::new(keys)?;
    Ok(KeySet::Keys(sorted))
}

/// Copies of these keys.
pub(crate) fn copies(alloc: Global, keys: &[&[u8]]) -> Result<Vec<Vec<u8>>, AllocError> {
    let mut copies = Vec::new(alloc);
    for key in keys {
        copies.push(key.to_vec(alloc)?)?;
    }
    Ok(copies)
}
