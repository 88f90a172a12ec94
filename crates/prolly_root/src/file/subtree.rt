//! Where trees stand in their file. The places of a node's children are found one behind another.
ghost use Rattle.std.specs.Prelude.{◌≡◌, ◌≤◌, IfSome};

use crate::file::marks::{Marks, Reached};
use crate::file::walk::{Frame, Walk};
use crate::root_fault::RootFault;
use prolly_io::Device;

/// Where a chunk stands in its file, and where the frames of what is below it begin.
#[derive(Clone, Copy)]
pub(crate) struct Place {
    pub(crate) frame: Frame,
    pub(crate) below: Walk,
}

/// A tree in a file: where its top stands, and how far the frames below it were gone over.
#[derive(Clone, Copy)]
pub struct Subtree {
    pub(crate) top: Place,
    /// The child of the top that was found last.
    pub(crate) last: Option<LastChild>,
}

/// The child that was found last.
#[derive(Clone, Copy)]
pub(crate) struct LastChild {
    /// Its number among the children, counted from 0.
    number: u64,
    /// Its place.
    place: Place,
    /// Where the frames behind it begin.
    rest: Walk,
}

impl Subtree {
    ghost use Rattle.prolly_root.specs.ChunkFile.{ChunkFile};
    ghost use Rattle.prolly_root.specs.Marks.{AreMarks};
    ghost use Rattle.prolly_root.specs.Subtree.{FindsNth, HasChunksOf, KeepsLastChild};
    ghost use Rattle.prolly_root.specs.Walk.{HasRead, IsBehind, IsWalk};

    /// The place of the child of this number. The children are of this level.
    ///
    /// Goes over the frames from behind the child that was found last, where this one stands
    /// behind it, or else from the nearest place that is remembered. One read for each frame.
    pub(crate) fn child<D: Device>(
        &mut self,
        device: &mut D,
        marks: &Option<Marks>,
        level: u8,
        number: u64,
    ) -> Result<Place, RootFault>
        ensures read { HasRead (D.seen device.old) (D.seen device.new) result }
        ensures top { self.new.top ≡ self.old.top }
        ensures keeps { (file : ChunkFile) → HasChunksOf (D.seen device.old) marks.now file →
            KeepsLastChild file level self.old.top.below self.old.last →
            KeepsLastChild file level self.new.top.below self.new.last }
        ensures place { (file : ChunkFile) → HasChunksOf (D.seen device.old) marks.now file →
            KeepsLastChild file level self.old.top.below self.old.last →
            IsWalk file self.old.top.below →
            FindsNth file level self.old.top.below.number number result }
    {
        if let Some(passed) = self.last {
            if passed.number == number {
                return Ok(passed.place);
            }
        }
        let Reached {
            mut count,
            mut walk,
        } = self.nearest(marks, level, number);
        while count < number {
            let _ = walk.next_of_level(device, level)?;
            count += 1;
        }
        let below = walk;
        let frame = walk.next_of_level(device, level)?;
        let place = Place { frame, below };
        self.last = Some(LastChild {
            number,
            place,
            rest: walk,
        });
        Ok(place)
    }

    /// Where it is nearest to the child of this number, and not behind it.
    fn nearest(&self, marks: &Option<Marks>, level: u8, number: u64) -> Reached
        ensures near { result.count ≤ number }
        ensures reached { (file : ChunkFile) → IfSome marks.now (AreMarks file) →
            KeepsLastChild file level self.now.top.below self.now.last →
            IsWalk file self.now.top.below → IsWalk file result.walk ×
            IsBehind file level self.now.top.below.number result.count result.walk.number }
    {
        match (self.last, marks) {
            (Some(passed), _) if passed.number < number => Reached {
                count: passed.number + 1,
                walk: passed.rest,
            },
            (_, Some(marks)) => marks.nearest(level, self.top.below, number),
            (_, None) => Reached {
                count: 0,
                walk: self.top.below,
            },
        }
    }
}
