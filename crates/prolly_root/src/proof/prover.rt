//! The file of a proof of what a map has at a key.
ghost use Rattle.std.specs.Prelude.{◌≡◌, ◌++◌, map, OnOk, IfOk};
ghost use Rattle.std.specs.List.{AllByRecursion};
ghost use Rattle.prolly_io.specs.Frame.{framed, IsSmall};
ghost use Rattle.prolly_root.specs.ProofFile.{proof_file};

use crate::proof::start::proof_start;
use prolly_entry::Version;
use prolly_io::frame_start;
use std::alloc::{AllocError, Global};

/// The file of a proof that has these chunks: those on the way of a look-up, from the root down.
///
/// Its length is that of the chunks, nine bytes for each of them, and five. Takes memory for it, and
/// time linear in it.
pub fn proof_of(alloc: Global, version: Version, chunks: &[&[u8]]) -> Result<Vec<u8>, AllocError>
    ensures { IfOk result (λ proof. AllByRecursion IsSmall (map (λ c. c.now) chunks.now) ×
        (proof.items ≡ proof_file version (map (λ c. c.now) chunks.now))) }
{
    let mut proof = Vec::new(alloc);
    proof.extend_from_slice(&proof_start(version))?;
    for chunk in chunks {
        append_frame(&mut proof, chunk)?;
    }
    Ok(proof)
}

/// Appends the frame of a chunk.
fn append_frame(out: &mut Vec<u8>, chunk: &[u8]) -> Result<(), AllocError>
    ensures framed { OnOk result (out.new.items ≡ out.old.items ++ framed chunk.now) }
    ensures small { IsSmall chunk.now }
{
    out.extend_from_slice(&frame_start(chunk.len() as u64))?;
    out.extend_from_slice(chunk)
}
