//! The step of a look-up at one chunk.
ghost use Rattle.std.specs.Prelude.{◌≡◌, ◌↔◌, ℕ, ◌<◌, [], All, length, map, Option, IsTrue, IfSome};
ghost use Rattle.std.specs.Prelude.{IfNone, IfOk, IfErr, OnOk};
ghost use Rattle.prolly_entry.specs.Byte.{IsByte};
ghost use Rattle.prolly_entry.specs.Keys.{Rising};
ghost use Rattle.prolly_look_up.specs.Entries.{IsNode, IsWhole, children_in};
ghost use Rattle.prolly_look_up.specs.Kinds.{kind_of};
ghost use Rattle.prolly_look_up.specs.Sought.{IsChildOf, IsMark, EndsAt, sought_of};
ghost use Rattle.prolly_look_up.specs.Step.{IsFlawedChunk, IsStep};
ghost use Rattle.prolly_look_up.specs.Way.{FallsTo, IsNamed, IsOrdered, entry_keys};

use crate::entries::{LEAF, Pairs, is_whole, pairs_of, split_first_child};
use crate::sought::{ChildSought, Mark, Sought, child_sought};
use prolly_entry::{Ref, Version, key_rises};

/// The chunk that is due next on the way of a look-up.
#[derive(Clone, Copy)]
pub struct Due<'a> {
    /// Its reference.
    pub reference: Ref,
    /// The level of the chunk above it; none is above the root.
    pub above: Option<u8>,
    /// What is sought there.
    pub sought: Sought<'a>,
}

/// What a look-up comes to at a chunk.
#[derive(Drop)]
pub enum Step<'c, 'a> {
    /// It ends there, with these pairs: those of a leaf, or none at a node.
    End(Pairs<'c>),
    /// It goes on at the chunk that is due next.
    Below(Due<'a>),
}

/// Why a chunk is not the one that is due, or none that a tree has there.
#[derive(Clone, Copy, Debug, PartialEq, Eq)]
pub enum ChunkFlaw {
    /// It has another reference.
    Reference,
    /// It is not a level, and whole lawful entries of that level's kind.
    Entries,
    /// One of its keys is not greater than the one before it.
    Order,
    /// It does not stand one level below the chunk above it.
    Level,
}

/// The step of a look-up at a chunk that may have come from anywhere.
///
/// Takes no memory. Hashes the chunk and reads it three times, so in time linear in its length.
pub fn step_at<'c, 'a>(
    version: Version,
    chunk: &'c [u8],
    due: &Due<'a>,
) -> Result<Step<'c, 'a>, ChunkFlaw>
    ensures named { OnOk result (IsNamed version due.now.reference.0 chunk.now) }
    ensures falls { OnOk result (FallsTo due.now.above chunk.now) }
    ensures step { IfOk result (IsStep version (sought_of due.now.sought) chunk.now) }
    ensures err { IfErr result (IsFlawedChunk version due.now.reference.0 due.now.above chunk.now) }
{
    test_chunk(version, chunk, &due.reference, due.above)?;
    match step_of(version, chunk, Mark::first(), due.sought) {
        Some(child) => Ok(Step::Below(Due {
            reference: child.reference,
            above: Some(chunk[0]),
            sought: child.sought,
        })),
        None => Ok(Step::End(pairs_of(version, chunk))),
    }
}

/// Tests whether a chunk is the one that is due: it has the reference, is a level and whole lawful
/// entries of that level's kind, whose keys rise, and stands one level below `above`, where there is a
/// chunk above it.
///
/// Takes no memory. Hashes the chunk and reads it twice, so in time linear in its length.
pub fn test_chunk(
    version: Version,
    chunk: &[u8],
    reference: &Ref,
    above: Option<u8>,
) -> Result<(), ChunkFlaw>
    ensures named { OnOk result (IsNamed version reference.now.0 chunk.now) }
    ensures falls { OnOk result (FallsTo above chunk.now) }
    ensures err { IfErr result (IsFlawedChunk version reference.now.0 above chunk.now) }
{
    test_named(version, chunk, reference)?;
    if falls_to(above, chunk) {
        Ok(())
    } else {
        Err(ChunkFlaw::Level)
    }
}

/// The reference of a chunk that is a level and whole lawful entries of that level's kind, whose keys
/// rise; none of other bytes. So a chunk can be tested before it is known which one is due, and who
/// asks for it then compares references alone.
///
/// Takes no memory. Reads the chunk twice and hashes it, so in time linear in its length.
pub fn reference_of_ordered(version: Version, chunk: &[u8]) -> Option<Ref>
    ensures named { IfSome result (λ reference. IsNamed version reference.0 chunk.now) }
    ensures none { IfNone result (IsOrdered version chunk.now → ⊥) }
{
    if is_whole(version, chunk) && keys_rise(version, chunk) {
        Some(Ref::of(chunk))
    } else {
        None
    }
}

/// Tests whether a chunk has the reference, and is a level and whole lawful entries of that level's
/// kind, whose keys rise.
fn test_named(version: Version, chunk: &[u8], reference: &Ref) -> Result<(), ChunkFlaw>
    ensures ok { OnOk result (IsNamed version reference.now.0 chunk.now) }
    ensures err { IfErr result (λ flaw. (above : Option ℕ) →
        IsFlawedChunk version reference.now.0 above chunk.now flaw) }
{
    if Ref::of(chunk) != *reference {
        return Err(ChunkFlaw::Reference);
    }
    if !is_whole(version, chunk) {
        return Err(ChunkFlaw::Entries);
    }
    if !keys_rise(version, chunk) {
        return Err(ChunkFlaw::Order);
    }
    Ok(())
}

/// Whether the chunk, which has a level, stands one level below `above`. A root, above which there is
/// none, may have any. Reads one byte.
pub fn falls_to(above: Option<u8>, chunk: &[u8]) -> bool
    requires { 0 < length chunk.now }
    ensures { IsTrue result ↔ FallsTo above chunk.now }
{
    match above {
        None => true,
        Some(above) => u16::from(above) == u16::from(chunk[0]) + 1,
    }
}

/// The child in which a look-up goes on from a chunk that was tested; none where it ends there: at
/// a leaf, or at a node of whose children it goes on in none. Where the child behind the mark is
/// below the key that is sought, it reads on from there.
///
/// Takes no memory, and time linear in the part of the chunk that is read.
pub fn step_of<'a>(
    version: Version,
    chunk: &[u8],
    mark: Mark,
    sought: Sought<'a>,
) -> Option<ChildSought<'a>>
    requires ordered { IsOrdered version chunk.now }
    requires mark { IsMark version chunk.now mark }
    ensures on { IfSome result (IsChildOf (sought_of sought.entry) (kind_of version chunk.now)) }
    ensures ends { IfNone result (EndsAt (sought_of sought.entry) (kind_of version chunk.now)) }
    ensures passed { IfSome result (λ child. IsMark version chunk.now child.passed) }
    ensures bytes { All IsByte chunk.now }
{
    if chunk[0] == LEAF {
        return None;
    }
    child_sought(version, chunk, mark, sought)
}

/// Whether each key of a chunk's entries is greater than the one before it.
fn keys_rise(version: Version, chunk: &[u8]) -> bool
    requires { IsWhole version chunk.now }
    ensures { IsTrue result ↔ Rising (entry_keys (kind_of version chunk.now)) }
{
    if chunk[0] == LEAF {
        return pairs_rise(pairs_of(version, chunk));
    }
    children_rise(version, &chunk[1..])
}

/// Whether each key of a leaf's pairs is greater than the one before it.
fn pairs_rise(mut leaf: Pairs) -> bool
    ensures { IsTrue result ↔ Rising (map (λ p. p.key) leaf.entry) }
{
    let mut last = None;
    while let Some((key, _)) = leaf.next() {
        if !key_rises(last, key) {
            return false;
        }
        last = Some(key);
    }
    true
}

/// Whether each key of a node's entries is greater than the one before it.
fn children_rise(version: Version, mut entries: &[u8]) -> bool
    requires { IsNode version entries.now [] }
    ensures { IsTrue result ↔ Rising (map (λ c. c.key) (children_in version entries.now)) }
{
    let mut last = None;
    while let Some((child, rest)) = split_first_child(version, entries) {
        if !key_rises(last, child.key) {
            return false;
        }
        last = Some(child.key);
        entries = rest;
    }
    true
}
