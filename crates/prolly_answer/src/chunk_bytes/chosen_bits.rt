//! The bits that are chosen for a tree, and the line that tells them.
ghost use Rattle.std.specs.Prelude.{◌≡◌, ◌↔◌, ◌≤◌, true, IfOk};
ghost use Rattle.prolly_answer.specs.ChunkBytes.{AreLeast, IsEnough, chosen_note, default_note};
ghost use Rattle.prolly_answer.specs.ChunkBytes.{note_line};

use prolly_entry::BITS_LIMIT;
use prolly_fault::append_number;
use std::alloc::{AllocError, Global};

/// The least bits that are chosen. By fewer a node has two or three children on average, and the
/// levels of a build hold few pairs.
const LEAST_BITS: u8 = 2;

/// The bits that were chosen for a tree, and by what.
#[derive(Clone, Copy, Debug, PartialEq, Eq)]
pub struct ChosenBits {
    /// The number of bits.
    pub bits: u8,
    /// How many bytes an entry that was seen has on average, rounded down.
    pub mean: u64,
}

/// The least bits, from 2 on, by which `wanted` is at most 1.4 times the size of a chunk, where an
/// entry has so many bytes; 24 where fewer are not enough.
pub(crate) fn least_bits(entry: u64, wanted: u32) -> u8
    requires { entry ≤ 1000000 }
    ensures { AreLeast entry wanted result }
{
    let mut size = entry << LEAST_BITS;
    for bits in LEAST_BITS..BITS_LIMIT {
        if is_enough(size, wanted) {
            return bits;
        }
        size *= 2;
    }
    BITS_LIMIT
}

/// Whether `wanted` is at most 1.4 times the size.
fn is_enough(size: u64, wanted: u32) -> bool
    requires { size ≤ 10000000000 }
    ensures { (result ≡ true) ↔ IsEnough size wanted }
{
    5 * u64::from(wanted) <= 7 * size
}

/// The line that says which bits were chosen for a tree, and by what; without a choice they are the
/// default.
pub fn bits_note(
    alloc: Global,
    default: u8,
    chosen: Option<ChosenBits>,
) -> Result<Vec<u8>, AllocError>
    ensures { IfOk result (λ line. line.items ≡ note_line default chosen) }
{
    match chosen {
        None => default_note(alloc, default),
        Some(chosen) => chosen_note(alloc, chosen),
    }
}

/// The line that says that the bits are the default.
fn default_note(alloc: Global, bits: u8) -> Result<Vec<u8>, AllocError>
    ensures { IfOk result (λ line. line.items ≡ default_note bits) }
{
    let mut line = Vec::new(alloc);
    line.extend_from_slice(b"prolly: --bits")?;
    append_number(alloc, &mut line, u64::from(bits))?;
    line.extend_from_slice(b", since no record was seen")?;
    line.push(b'\n')?;
    Ok(line)
}

/// The line that says that the bits were chosen.
fn chosen_note(alloc: Global, chosen: ChosenBits) -> Result<Vec<u8>, AllocError>
    ensures { IfOk result (λ line. line.items ≡ chosen_note chosen.bits chosen.mean) }
{
    let mut line = Vec::new(alloc);
    line.extend_from_slice(b"prolly: --bits")?;
    append_number(alloc, &mut line, u64::from(chosen.bits))?;
    line.extend_from_slice(b", since a record has")?;
    append_number(alloc, &mut line, chosen.mean)?;
    line.extend_from_slice(b" bytes on average")?;
    line.push(b'\n')?;
    Ok(line)
}
