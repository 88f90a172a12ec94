//! The bytes with which the proof of a set of keys begins.
ghost use Rattle.std.specs.Prelude.{◌≡◌, ◌≤◌, length, OnOk, IfErr};
ghost use Rattle.prolly_range.specs.SetProof.{set_start};
ghost use Rattle.prolly_range.specs.Start.{IsSetStartFault};

use prolly_entry::Version;
use prolly_root::ProofFault;

/// How many bytes the proof of a set of keys begins with: its letters and its version.
pub const PROOF_START: usize = 5;

/// What is added to the byte of the version, so that no such proof begins as that of one key.
const SET_MARK: u8 = 0x10;

/// What a proof over chunks of the version begins with.
pub(crate) fn set_start(version: Version) -> [u8; PROOF_START]
    ensures { result ≡ set_start version }
{
    [b'P', b'R', b'L', b'P', SET_MARK + version.to_byte()]
}

/// Tests the first bytes of a proof over chunks of the version: so many as it begins with, or all
/// where there are fewer.
pub(crate) fn test_start(version: Version, front: &[u8]) -> Result<(), ProofFault>
    requires { length front.now ≤ PROOF_START }
    ensures ok { OnOk result (front.now ≡ set_start version) }
    ensures err { IfErr result (IsSetStartFault version front.now) }
{
    let start = set_start(version);
    if front == start.as_slice() {
        Ok(())
    } else if start.starts_with(front) {
        Err(ProofFault::Truncated)
    } else if front == set_start(version.other()).as_slice() {
        Err(ProofFault::Version)
    } else {
        Err(ProofFault::Header)
    }
}
