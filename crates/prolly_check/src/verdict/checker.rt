//! The checker: its steps, in the order in which their faults are named.
ghost use Rattle.std.specs.Prelude.{◌≡◌, ◌≢◌, ◌↔◌, ◌⊎◌, ◌∷◌, ◌<◌, ◌≤◌, ◌^◌, true, None, Some};
ghost use Rattle.std.specs.Prelude.{drop, length, Err, IfOk, OnOk, IfErr, IsErrOf};
ghost use Rattle.std.specs.List.{flat_map, AllByRecursion};
ghost use Rattle.prolly_check.specs.FirstFault.{Says, ending_of_chunks};
ghost use Rattle.prolly_check.specs.Verdict.{IsRefusal, IsVerdict, UnlessMemory};
ghost use Rattle.prolly_look_up.specs.Content.{IsFileOf, Content};
ghost use Rattle.prolly_check.specs.Chunks.{IsChecked, IsFile, IsLaidOut, AreReferences};
ghost use Rattle.prolly_check.specs.Digests.{AreDigests};
ghost use Rattle.prolly_look_up.specs.Entries.{AreWhole};
ghost use Rattle.prolly_check.specs.ReadChunks.{IsBad};
ghost use Rattle.prolly_look_up.specs.HeldPairs.{pairs_held};
ghost use Rattle.prolly_check.specs.Frames.{IsWithin, chunks_in};

use crate::chunks::{Chunks, Index, Layout};
use crate::tree::Tree;
use crate::verdict::canonical::test_followed;
use crate::verdict::digests::{ChunkDigest, ChunkHasher, OneThread, references_of};
use crate::verdict::fault::CheckFault;
use crate::verdict::frames::{find_frames, test_ending};
use crate::verdict::order::test_order;
use prolly_entry::{Ref, Sha512Cut, Version};
use prolly_io::{HEADER_SIZE, Header, Source, end_record, read_header, read_whole};
use std::alloc::Global;
use std::ops::Range;

/// Reads a source to its end, and accepts its bytes exactly where they are the file of a map, of a
/// version and a number of bits from 0 to 24, no two of whose chunks have one reference.
///
/// Answers the first fault in this order: the source failed or has more than `max_bytes` bytes; the
/// header; the frames and the end record; the entries of each chunk; the order of the keys; the
/// chunks and the end record against those of the file of the same pairs; the references.
///
/// Takes time linear in the bytes, but for the ordering of the references. Hashes each chunk once,
/// and each entry of a lawful file once. Beside the bytes it holds the span and the digest of each
/// chunk, while the chunks are followed one open node of each level, and then the index of the
/// references.
pub fn check<S: Source>(alloc: Global, source: &mut S, max_bytes: u32) -> Result<Tree, CheckFault>
    // What is accepted are the bytes of the source, and they are the file of a map.
    ensures same { (S.seen source.old).is_honest ≡ true →
        IfOk result (λ tree. tree ≡ (S.seen source.old).left) }
    ensures accepted { IfOk result (λ tree. IsFile tree) }
    ensures within { IfOk result (λ tree. length tree ≤ max_bytes) }

    // No file of a map is refused, but for want of memory or a failed read.
    ensures files { (S.seen source.old).is_honest ≡ true →
        (content : Content) → IsFileOf (S.seen source.old).left content →
        length (S.seen source.old).left ≤ max_bytes →
        IfErr result (λ fault. (fault ≡ CheckFault.Memory) ⊎ (fault ≡ CheckFault.Read)) }

    // Other bytes are refused by their first fault, and only bytes within the limit have a fault.
    ensures refused { (S.seen source.old).is_honest ≡ true →
        IfErr result (IsRefusal (S.seen source.old).left max_bytes) }

    // A failed read is told as one, whatever else would follow it.
    ensures read { IsErrOf result CheckFault.Read ↔
        ((S.seen source.new).failures ≢ (S.seen source.old).failures) }
    ensures unfailed { OnOk result ((S.seen source.new).failures ≡ (S.seen source.old).failures) }
    ensures never { (S.seen source.old).is_steady ≡ true →
        (S.seen source.new).failures ≡ (S.seen source.old).failures }
    ensures honest { (S.seen source.old).is_honest ≡ true → (S.seen source.new).is_honest ≡ true }
    ensures steady { (S.seen source.old).is_steady ≡ true → (S.seen source.new).is_steady ≡ true }
{
    check_by(&OneThread, alloc, source, max_bytes)
}

/// Checks as [`check`] does, and leaves it to `hasher` who takes the hashes: one thread or many.
pub fn check_by<H: ChunkHasher, S: Source>(
    hasher: &H,
    alloc: Global,
    source: &mut S,
    max_bytes: u32,
) -> Result<Tree, CheckFault>
    requires { H.can_hash hasher.now }
    // What is accepted are the bytes of the source, and they are the file of a map.
    ensures same { (S.seen source.old).is_honest ≡ true →
        IfOk result (λ tree. tree ≡ (S.seen source.old).left) }
    ensures accepted { IfOk result (λ tree. IsFile tree) }
    ensures within { IfOk result (λ tree. length tree ≤ max_bytes) }

    // No file of a map is refused, but for want of memory or a failed read.
    ensures files { (S.seen source.old).is_honest ≡ true →
        (content : Content) → IsFileOf (S.seen source.old).left content →
        length (S.seen source.old).left ≤ max_bytes →
        IfErr result (λ fault. (fault ≡ CheckFault.Memory) ⊎ (fault ≡ CheckFault.Read)) }

    // Other bytes are refused by their first fault, and only bytes within the limit have a fault.
    ensures refused { (S.seen source.old).is_honest ≡ true →
        IfErr result (IsRefusal (S.seen source.old).left max_bytes) }

    // A failed read is told as one, whatever else would follow it.
    ensures read { IsErrOf result CheckFault.Read ↔
        ((S.seen source.new).failures ≢ (S.seen source.old).failures) }
    ensures unfailed { OnOk result ((S.seen source.new).failures ≡ (S.seen source.old).failures) }
    ensures never { (S.seen source.old).is_steady ≡ true →
        (S.seen source.new).failures ≡ (S.seen source.old).failures }
    ensures honest { (S.seen source.old).is_honest ≡ true → (S.seen source.new).is_honest ≡ true }
    ensures steady { (S.seen source.old).is_steady ≡ true → (S.seen source.new).is_steady ≡ true }
{
    let bytes = match read_whole(alloc, source, max_bytes) {
        Ok(bytes) => bytes,
        Err(fault) => return Err(CheckFault::from(fault)),
    };
    Tree::of(hasher, alloc, bytes)
}

/// Checks the bytes of a file. Answers its layout, the reference of each chunk, and the index of
/// these.
pub(crate) fn inspect<H: ChunkHasher>(
    hasher: &H,
    alloc: Global,
    bytes: &[u8],
) -> Result<(Layout, Vec<Ref>, Index), CheckFault>
    requires can { H.can_hash hasher.now }
    requires short { length bytes.now < 2 ^ 64 }
    ensures ok { IfOk result (λ r. IsChecked bytes.now r.0.header r.0.spans.items r.2) }
    ensures references { IfOk result (λ r.
        AreReferences (chunks_in bytes.now r.0.spans.items) r.1.items) }
    ensures err { IfErr result (UnlessMemory (λ fault. IsVerdict bytes.now (Err fault))) }
{
    let (layout, digests, end) = lay_out(hasher, alloc, bytes)?;
    let references = test_laid_out(alloc, bytes, &layout, digests, end)?;
    let index = Index::new(alloc, &references)?;
    Ok((layout, references, index))
}

/// The layout of a file, the digests of its chunks, and where its frames end: the header, the frames,
/// the end record and the entries are tested.
fn lay_out<H: ChunkHasher>(
    hasher: &H,
    alloc: Global,
    bytes: &[u8],
) -> Result<(Layout, Vec<ChunkDigest>, usize), CheckFault>
    requires { H.can_hash hasher.now }
    ensures ok { IfOk result (λ r. IsLaidOut bytes.now r.0.header r.0.spans.items r.2) }
    ensures digests { IfOk result (λ r. AreDigests r.0.header.version r.0.header.bits
        (chunks_in bytes.now r.0.spans.items) r.1.items) }
    ensures err { IfErr result (UnlessMemory (λ fault. IsVerdict bytes.now (Err fault))) }
{
    let header = read_header(bytes)?;
    let frames = find_frames(alloc, bytes, HEADER_SIZE)?;
    test_ending(&bytes[frames.end..], frames.spans.len())?;
    let digests = digests_in(hasher, alloc, header, bytes, &frames.spans)?;
    let layout = Layout {
        header,
        spans: frames.spans,
    };
    Ok((layout, digests, frames.end))
}

/// The digests of the chunks that lie there, where each is a level and whole lawful entries of that
/// level's kind; or the first that is not.
fn digests_in<H: ChunkHasher>(
    hasher: &H,
    alloc: Global,
    header: Header,
    bytes: &[u8],
    spans: &[Range<usize>],
) -> Result<Vec<ChunkDigest>, CheckFault>
    requires can { H.can_hash hasher.now }
    requires bits { header.bits ≤ 24 }
    requires within { AllByRecursion (IsWithin bytes.now) spans.now }
    ensures ok { IfOk result (λ digests. AreDigests header.version header.bits
        (chunks_in bytes.now spans.now) digests.items) }
    ensures err { IfErr result (UnlessMemory
        (IsBad header.version (chunks_in bytes.now spans.now))) }
{
    let digests = hasher.digests(alloc, cut_of(header), header.version, bytes, spans)?;
    let count = digests.len();
    if count < spans.len() {
        return Err(CheckFault::BadChunk { chunk: count });
    }
    Ok(digests)
}

/// The cut of a header, whose number of bits was tested.
pub(crate) fn cut_of(header: Header) -> Sha512Cut
    requires { header.bits ≤ 24 }
    ensures { result ≡ header.bits }
{
    match Sha512Cut::new(header.bits) {
        Some(cut) => cut,
        None => unreachable!(),
    }
}

/// Tests the keys, the chunks and the end record of a file that is laid out so, by the digests of its
/// chunks, which are let go. Answers the reference of each chunk.
fn test_laid_out(
    alloc: Global,
    bytes: &[u8],
    layout: &Layout,
    digests: Vec<ChunkDigest>,
    end: usize,
) -> Result<Vec<Ref>, CheckFault>
    requires short { length bytes.now < 2 ^ 64 }
    requires laid { IsLaidOut bytes.now layout.now.header layout.now.spans.items end }
    requires digests { AreDigests layout.now.header.version layout.now.header.bits
        (chunks_in bytes.now layout.now.spans.items) digests.items }
    ensures ok { OnOk result (Says layout.now.header.version layout.now.header.bits
        (chunks_in bytes.now layout.now.spans.items) (drop end bytes.now) None) }
    ensures references { IfOk result (λ references.
        AreReferences (chunks_in bytes.now layout.now.spans.items) references.items) }
    ensures err { IfErr result (UnlessMemory (λ fault. IsVerdict bytes.now (Err fault))) }
{
    let cut = cut_of(layout.header);
    let chunks = Chunks::new(bytes, layout);
    test_canonical(
        alloc,
        cut,
        layout.header.version,
        &chunks,
        &digests,
        &bytes[end..],
    )
}

/// Tests that the keys rise, and that the chunks and the end record are those of the file of the
/// pairs. Answers the reference of each chunk.
fn test_canonical(
    alloc: Global,
    cut: Sha512Cut,
    version: Version,
    chunks: &Chunks,
    digests: &[ChunkDigest],
    end: &[u8],
) -> Result<Vec<Ref>, CheckFault>
    requires whole { AreWhole version chunks.now }
    requires few { length (flat_map pairs_held chunks.now) < 2 ^ 64 }
    requires digests { AreDigests version cut chunks.now digests.now }
    ensures ok { OnOk result (Says version cut chunks.now end.now None) }
    ensures references { IfOk result (λ references.
        AreReferences chunks.now references.items) }
    ensures err { IfErr result (UnlessMemory (λ fault.
        Says version cut chunks.now end.now (Some fault))) }
{
    test_order(version, chunks, digests)?;
    test_followed(alloc, cut, version, chunks, digests)?;
    let references = references_of(alloc, digests)?;
    test_end(end, chunks, &references)?;
    Ok(references)
}

/// Tests that an end record has the reference of the last chunk and the number of chunks.
fn test_end(found: &[u8], chunks: &Chunks, references: &[Ref]) -> Result<(), CheckFault>
    requires some { 0 < length chunks.now }
    requires references { AreReferences chunks.now references.now }
    ensures ok { OnOk result (found.now ≡ 0x45 ∷ ending_of_chunks chunks.now) }
    ensures err { IfErr result (λ fault. (fault ≡ CheckFault.BadEnd)
        × (found.now ≡ 0x45 ∷ ending_of_chunks chunks.now → ⊥)) }
{
    let count = chunks.len();
    if found != end_record(&references[count - 1], count as u64).as_slice() {
        return Err(CheckFault::BadEnd);
    }
    Ok(())
}
