//! The checker of bytes that are in memory, of which nothing is kept.
ghost use Rattle.std.specs.Prelude.{◌≡◌, Err, IfErr, IfOk, OnOk};
ghost use Rattle.prolly_check.specs.Chunks.{AreReferences, IsFile};
ghost use Rattle.prolly_look_up.specs.Content.{Content, IsFileOf, chunks_of};
ghost use Rattle.prolly_check.specs.Report.{IsReportOf};
ghost use Rattle.prolly_check.specs.Verdict.{IsVerdict, UnlessMemory};

use crate::chunks::Chunks;
use crate::file::CheckedFile;
use crate::look_up::Leaves;
use crate::numbers::count_pairs;
use crate::verdict::{CheckFault, ChunkHasher, inspect};
use prolly_entry::{Ref, Version};
use std::alloc::Global;

/// What a chunk file says, in short.
#[derive(Clone, Copy, Debug, PartialEq, Eq)]
pub struct FileReport {
    /// The version of the file.
    pub version: Version,
    /// The number of bits by which the entries were cut.
    pub bits: u8,
    /// The reference of the root.
    pub root: Ref,
    /// The number of chunks.
    pub chunks: u64,
    /// The number of pairs.
    pub pairs: u64,
}

/// Checks bytes in memory as [`check`](crate::check) does those of a source, and copies none of
/// them.
///
/// Answers the first fault in the order that is told there. No read fails, and there are never too
/// many bytes. Takes the time and the memory of a check, beside the bytes.
pub fn check_bytes<H: ChunkHasher>(
    hasher: &H,
    alloc: Global,
    bytes: &[u8],
) -> Result<FileReport, CheckFault>
    requires { H.can_hash hasher.now }
    ensures accepted { OnOk result (IsFile bytes.now) }
    ensures report { IfOk result (λ report. (content : Content) → IsFileOf bytes.now content →
        IsReportOf content report) }
    ensures files { (content : Content) → IsFileOf bytes.now content →
        IfErr result (λ fault. fault ≡ CheckFault.Memory) }
    ensures refused { IfErr result (UnlessMemory (λ fault. IsVerdict bytes.now (Err fault))) }
{
    match inspect(hasher, alloc, bytes) {
        Ok((layout, references, index)) => {
            let chunks = Chunks::new(bytes, &layout);
            let file = CheckedFile::new(layout.header, chunks, &index);
            Ok(report_of(file, &references))
        }
        Err(fault) => Err(fault),
    }
}

/// What a file that was checked says, whose chunks have these references. Goes over all pairs.
fn report_of(file: CheckedFile<'_>, references: &[Ref]) -> FileReport
    requires { AreReferences (chunks_of file) references.now }
    ensures { IsReportOf file.entry result }
{
    FileReport {
        version: file.version(),
        bits: file.bits(),
        root: references[file.root()],
        chunks: file.len() as u64,
        pairs: count_pairs(Leaves::new(file)),
    }
}
