//! Whether bytes are a chunk file, and what it says.
ghost use Rattle.std.specs.Prelude.{◌≡◌, ◌≢◌, ◌⊎◌};
ghost use Rattle.prolly_check.specs.Chunks.{IsFile};
ghost use Rattle.prolly_look_up.specs.Content.{Content, IsFileOf};
ghost use Rattle.prolly_c.specs.Report.{IsRefused, IsReport, KeepsRest};

use crate::status::{DONE, check_status, tell};
use prolly_check::{OneThread, check_bytes};
use std::alloc::Global;

/// What a chunk file says, in short; or where its fault lies.
#[repr(C)]
#[derive(Clone, Copy)]
pub struct Report {
    /// The reference of the root.
    pub root: [u8; 20],
    /// 1 or 2.
    pub version: u8,
    /// By how many bits the entries were cut, from 0 to 24.
    pub bits: u8,
    /// How many chunks there are.
    pub chunks: u64,
    /// How many pairs there are.
    pub pairs: u64,
    /// The chunk that a fault names, counted from 0; 0 where it names none.
    pub faulty: u64,
}

/// Checks whether bytes are the one lawful file of some map. Nothing of them is copied.
///
/// Where memory is refused, nothing is told. Else a fault is told by the status and by `faulty`, and
/// the rest of the report stays.
///
/// Takes time linear in the bytes: each chunk and each entry is hashed once. Takes memory for the
/// places and the references of the chunks, and for an open node of each level.
#[unsafe(no_mangle)]
pub extern "C" fn prolly_check(alloc: Global, bytes: &[u8], report: &mut Report) -> u32
    ensures accepted { result ≡ 0 → IsFile bytes.now }
    ensures report { result ≡ 0 → (content : Content) → IsFileOf bytes.now content →
        IsReport content report.new }
    ensures files { (content : Content) → IsFileOf bytes.now content →
        (result ≡ 0) ⊎ (result ≡ 2) }
    ensures refused { (result ≡ 0) ⊎ ((result ≡ 2) ⊎ IsRefused bytes.now result report.new) }
    ensures stays { result ≡ 2 → report.new ≡ report.old }
    ensures rest { result ≢ 0 → KeepsRest report.old report.new }
{
    match check_bytes(&OneThread, alloc, bytes) {
        Ok(found) => {
            let root = found.root.0;
            *report = Report {
                root,
                version: found.version.to_byte(),
                bits: found.bits,
                chunks: found.chunks,
                pairs: found.pairs,
                faulty: 0,
            };
            DONE
        }
        Err(fault) => tell(check_status(fault), &mut report.faulty),
    }
}
