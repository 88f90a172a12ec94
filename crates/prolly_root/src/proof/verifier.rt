//! What a proof says, for who knows the root alone.
ghost use Rattle.std.specs.Prelude.{◌≡◌, ◌++◌, true, Option, List, ℕ, IfOk, IfErr, OnOk};
ghost use Rattle.std.specs.Option.{option_copied};
ghost use Rattle.prolly_look_up.specs.Sought.{sought_of};
ghost use Rattle.prolly_look_up.specs.Step.{IsStep};
ghost use Rattle.prolly_look_up.specs.Way.{FallsTo, IsNamed};
ghost use Rattle.prolly_io.specs.Frame.{framed, has_no_frame, IsSmall};
ghost use Rattle.prolly_root.specs.ProofFault.{IsChunkFault, IsFault, IsFrameFault};
ghost use Rattle.prolly_root.specs.ProofFile.{IsProof, proof_start};

use crate::proof::fault::ProofFault;
use crate::proof::start::behind_start;
use prolly_entry::{Ref, Version};
use prolly_io::front_frame;
use prolly_look_up::{Due, Sought, Step, step_at, value_in};

/// The value that the proof shows for the key in the tree with this root, or none where it shows
/// that the key has none.
///
/// The version is that of the tree's chunks. Like the root it has to come from who is trusted, and
/// not from who made the proof: a chunk of one version may be read as one of the other.
///
/// What is answered is what any map with this root has at the key, unless two different chunks have
/// one reference: see [`laws::proofs_are_right`](crate::laws::proofs_are_right).
///
/// Takes no memory, and hashes and reads each chunk of the proof, so in time linear in its length.
pub fn verify<'a>(
    version: Version,
    root: &Ref,
    key: &[u8],
    proof: &'a [u8],
) -> Result<Option<&'a [u8]>, ProofFault>
    ensures proved { IfOk result (λ value. IsProof version root.now.0 key.now proof.now
        (option_copied value)) }
    ensures fault { IfErr result (IsFault version root.now.0 key.now proof.now) }
    ensures refused { IfErr result (λ fault. (value : Option (List ℕ)) →
        IsProof version root.now.0 key.now proof.now value → ⊥) }
{
    let chunks = behind_start(version, proof)?;
    go_down(version, root, key, chunks)
}

/// What the frames of chunks, which stand behind the start of a proof, show for the key.
fn go_down<'a>(
    version: Version,
    root: &Ref,
    key: &[u8],
    chunks: &'a [u8],
) -> Result<Option<&'a [u8]>, ProofFault>
    ensures ok { IfOk result (λ value. IsProof version root.now.0 key.now
        (proof_start version ++ chunks.now) (option_copied value)) }
    ensures err { IfErr result (IsFault version root.now.0 key.now
        (proof_start version ++ chunks.now)) }
{
    let mut due = Due {
        reference: *root,
        above: None,
        sought: Sought::Key(key),
    };
    let mut number = 0;
    let mut rest = chunks;
    loop {
        let (chunk, behind) = next_chunk(rest, number)?;
        match step_due(version, chunk, &due, number)? {
            Step::End(pairs) => {
                return if behind.is_empty() {
                    Ok(value_in(pairs, key))
                } else {
                    Err(ProofFault::Trailing)
                };
            }
            Step::Below(next) => due = next,
        }
        number += 1;
        rest = behind;
    }
}

/// The next chunk, and what stands behind its frame.
fn next_chunk(rest: &[u8], number: usize) -> Result<(&[u8], &[u8]), ProofFault>
    ensures ok { IfOk result (λ r. IsSmall r.0.now × (rest.now ≡ framed r.0.now ++ r.1.now)) }
    ensures err { IfErr result (IsFrameFault number rest.now) }
{
    match front_frame(rest) {
        Some(frame) => Ok(frame),
        None => Err(frame_fault(rest, number)),
    }
}

/// What is wrong with bytes that no whole frame begins.
fn frame_fault(rest: &[u8], number: usize) -> ProofFault
    requires { has_no_frame rest.now ≡ true }
    ensures { IsFrameFault number rest.now result }
{
    match rest.first() {
        None | Some(b'C') => ProofFault::Truncated,
        Some(_) => ProofFault::Frame { chunk: number },
    }
}

/// The step of the look-up at the chunk of this number, where it is the one that is due.
fn step_due<'c, 'a>(
    version: Version,
    chunk: &'c [u8],
    due: &Due<'a>,
    number: usize,
) -> Result<Step<'c, 'a>, ProofFault>
    ensures named { OnOk result (IsNamed version due.now.reference.0 chunk.now) }
    ensures falls { OnOk result (FallsTo due.now.above chunk.now) }
    ensures step { IfOk result (IsStep version (sought_of due.now.sought) chunk.now) }
    ensures err { IfErr result (IsChunkFault version due.now.reference.0 due.now.above chunk.now
        number) }
{
    match step_at(version, chunk, due) {
        Ok(step) => Ok(step),
        Err(flaw) => Err(ProofFault::of_flaw(flaw, number)),
    }
}
