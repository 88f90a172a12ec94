//! The bytes with which a proof begins.
ghost use Rattle.std.specs.Prelude.{◌≡◌, ◌++◌, IfOk, IfErr};
ghost use Rattle.prolly_root.specs.ProofFault.{IsStartOf, IsProofStartFault};
ghost use Rattle.prolly_root.specs.ProofFile.{proof_start};

use crate::proof::fault::ProofFault;
use prolly_entry::Version;

/// What a proof over chunks of the version begins with.
pub(crate) fn proof_start(version: Version) -> [u8; 5]
    ensures { result ≡ proof_start version }
{
    [b'P', b'R', b'L', b'P', version.to_byte()]
}

/// What stands behind the start of a proof over chunks of the version.
pub(crate) fn behind_start(version: Version, proof: &[u8]) -> Result<&[u8], ProofFault>
    ensures ok { IfOk result (λ rest. proof.now ≡ proof_start version ++ rest.now) }
    ensures err { IfErr result (IsProofStartFault version proof.now) }
{
    match proof.strip_prefix(&proof_start(version)) {
        Some(rest) => Ok(rest),
        None => Err(start_fault(version, proof)),
    }
}

/// What is wrong with the start of bytes that do not begin as a proof over chunks of the version.
fn start_fault(version: Version, proof: &[u8]) -> ProofFault
    requires { IsStartOf (proof_start version) proof.now → ⊥ }
    ensures { IsProofStartFault version proof.now result }
{
    if proof_start(version).starts_with(proof) {
        ProofFault::Truncated
    } else if proof.starts_with(&proof_start(version.other())) {
        ProofFault::Version
    } else {
        ProofFault::Header
    }
}
