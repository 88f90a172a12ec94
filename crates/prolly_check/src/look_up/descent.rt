//! Going down the tree of a file that was checked.
ghost use Rattle.std.specs.Prelude.{map, IfOk, IfSome, IfNone};
ghost use Rattle.prolly_entry.specs.Reference.{reference_of};
ghost use Rattle.prolly_tree.specs.LookUp.{find};
ghost use Rattle.prolly_check.specs.Chunks.{HasFile};
ghost use Rattle.prolly_check.specs.FileWays.{CanBeSought, IsWayEnd, IsNamedAt, IsNextOnWay, IsTop};
ghost use Rattle.prolly_look_up.specs.Content.{nth_chunk, root_bytes};
ghost use Rattle.prolly_look_up.specs.Kinds.{kind_of};
ghost use Rattle.prolly_look_up.specs.Sought.{EndsAt, sought_of};
ghost use Rattle.prolly_look_up.specs.Way.{IsWay};

use crate::file::CheckedFile;
use prolly_look_up::{Mark, Sought, step_of};
use std::alloc::{AllocError, Global};

/// Where a look-up stands: at the chunk of this number, in which this is sought.
#[derive(Clone, Copy)]
pub(crate) struct At<'a> {
    pub(crate) number: usize,
    pub(crate) sought: Sought<'a>,
}

/// Where a look-up in a checked file ends. Goes down from the root, one chunk a level, and takes no
/// memory. Only a file of version Two has the counts by which a number is found.
pub(crate) fn descend<'a>(file: &CheckedFile<'_>, sought: Sought<'a>) -> At<'a>
    requires { CanBeSought file.now.version (sought_of sought) }
    ensures end { IsWayEnd file.now (sought_of sought.entry) result }
    ensures file { HasFile file.now }
{
    let mut at = At {
        number: file.root(),
        sought,
    };
    while let Some(next) = below(file, at) {
        at = next;
    }
    at
}

/// The chunks from the root of a checked file down to the one at which a look-up of the key ends.
pub(crate) fn way_to<'f>(
    alloc: Global,
    file: &CheckedFile<'f>,
    key: &[u8],
) -> Result<Vec<&'f [u8]>, AllocError>
    ensures { IfOk result (λ chunks. IsWay file.now.version (reference_of (root_bytes file.now))
        key.now (map (λ chunk. chunk.now) chunks.items) (find file.now.pairs key.now)) }
{
    let mut chunks = Vec::new(alloc);
    let mut at = At {
        number: file.root(),
        sought: Sought::Key(key),
    };
    loop {
        chunks.push(file.chunk(at.number))?;
        match below(file, at) {
            Some(next) => at = next,
            None => return Ok(chunks),
        }
    }
}

/// Where it goes on from a chunk; none where it ends there.
fn below<'a>(file: &CheckedFile<'_>, at: At<'a>) -> Option<At<'a>>
    requires file { HasFile file.now }
    requires top { IsTop file.now at.number }
    requires counted { CanBeSought file.now.version (sought_of at.sought) }
    ensures named { IsNamedAt file.now at.entry.number }
    ensures on { IfSome result (IsNextOnWay file.now at.entry) }
    ensures ends { IfNone result (EndsAt (sought_of at.entry.sought)
        (kind_of file.now.version (nth_chunk file.now at.entry.number))) }
{
    let chunk = file.chunk(at.number);
    let child = step_of(file.version(), chunk, Mark::first(), at.sought)?;
    Some(At {
        number: file.child(&child.reference),
        sought: child.sought,
    })
}
