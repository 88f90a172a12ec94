//! Places that are remembered while the root is sought, and from which look-ups set out.
ghost use Rattle.std.specs.Prelude.{◌≡◌, ◌≤◌, ◌+◌, ◌<◌, IfSome, true};
ghost use Rattle.prolly_root.specs.ChunkFile.{ChunkFile};
ghost use Rattle.prolly_root.specs.Marks.{AreMarks, AreRuns, IsPlaceMark};
ghost use Rattle.prolly_root.specs.Walk.{IsBehind, IsFrame, IsWalk};

use crate::file::walk::{Frame, Walk};

/// Into how many parts of one size the file is divided. In each, one boundary is remembered.
const PARTS: usize = 32;

/// How many levels are counted, from the leaves up. Nothing of a higher level is remembered.
const LEVELS: usize = 32;

/// How far one has come: over so many children, to where the frames of the next one begin.
#[derive(Clone, Copy)]
pub(crate) struct Reached {
    pub(crate) count: u64,
    pub(crate) walk: Walk,
}

/// The chunks of one level that have no parent yet: it stands behind the last of them.
#[derive(Clone, Copy)]
struct Run {
    /// The number of the chunk at which the frames below the parent begin.
    from: u64,
    count: u64,
}

/// A boundary behind a chunk.
#[derive(Clone, Copy)]
struct Mark {
    /// The level of the chunk.
    level: u8,
    /// The number of the chunk at which the frames below its parent begin.
    from: u64,
    /// How many children of the parent stand before it.
    reached: Reached,
}

impl Mark {
    /// Whether it stands behind children of this level, of a parent whose frames begin at the chunk
    /// `from`: behind more of them than `least`, and at most `most`.
    fn is_between(&self, level: u8, from: u64, least: u64, most: u64) -> bool
        ensures { result ≡ true → (self.now.level ≡ level) × (self.now.from ≡ from) ×
            (self.now.reached.count ≤ most) }
    {
        self.level == level
            && self.from == from
            && least < self.reached.count
            && self.reached.count <= most
    }
}

/// The boundaries that are remembered.
///
/// They have a fixed size, so that to find the root takes no memory. In each part of the file it is
/// the last boundary behind a chunk of the highest level there. So a look-up that sets out from the
/// nearest of them goes over some thirty-second part of the frames.
#[derive(Drop)]
pub(crate) struct Marks {
    /// What has no parent yet, by level.
    runs: [Run; LEVELS],
    /// They stand in the order of the file.
    marks: [Mark; PARTS],
}

impl Marks {
    /// Nothing is remembered but where the frames begin.
    pub(crate) fn begin(walk: Walk) -> Marks
        ensures runs { (file : ChunkFile) → AreRuns file walk.number result.runs }
        ensures marks { (file : ChunkFile) → IsWalk file walk → AreMarks file result }
    {
        let run = Run {
            from: walk.number,
            count: 0,
        };
        let mark = Mark {
            level: 0,
            from: walk.number,
            reached: Reached { count: 0, walk },
        };
        Marks {
            runs: [run; LEVELS],
            marks: [mark; PARTS],
        }
    }

    /// Goes over this frame, to the boundary behind it.
    pub(crate) fn go_over(&mut self, frame: Frame, behind: Walk)
        ensures runs { (file : ChunkFile) → IsFrame file frame →
            behind.number ≡ frame.number + 1 → AreRuns file frame.number self.old.runs →
            AreRuns file behind.number self.new.runs }
        ensures marks { (file : ChunkFile) → IsFrame file frame →
            behind.number ≡ frame.number + 1 → AreRuns file frame.number self.old.runs →
            IsWalk file behind → AreMarks file self.old → AreMarks file self.new }
    {
        if let Some(run) = self.count(frame, behind.number) {
            self.keep(Mark {
                level: frame.level,
                from: run.from,
                reached: Reached {
                    count: run.count,
                    walk: behind,
                },
            });
        }
    }

    /// The nearest boundary before the child of this number. The children are of this level, and the
    /// frames of the first one begin at `first`.
    pub(crate) fn nearest(&self, level: u8, first: Walk, number: u64) -> Reached
        ensures near { result.count ≤ number }
        ensures reached { (file : ChunkFile) → AreMarks file self.now → IsWalk file first →
            IsWalk file result.walk ×
            IsBehind file level first.number result.count result.walk.number }
    {
        let mut nearest = Reached {
            count: 0,
            walk: first,
        };
        for mark in &self.marks {
            if mark.is_between(level, first.number, nearest.count, number) {
                nearest = mark.reached;
            }
        }
        nearest
    }

    /// Counts this chunk, where the chunk `next` is the one behind it. Gives the run that it ends;
    /// none where its level is not counted.
    fn count(&mut self, frame: Frame, next: u64) -> Option<Run>
        ensures marks { self.new.marks ≡ self.old.marks }
        ensures runs { (file : ChunkFile) → IsFrame file frame → next ≡ frame.number + 1 →
            AreRuns file frame.number self.old.runs → AreRuns file next self.new.runs }
        ensures behind { (file : ChunkFile) → IsFrame file frame → next ≡ frame.number + 1 →
            AreRuns file frame.number self.old.runs →
            IfSome result (λ run. IsBehind file frame.level run.from run.count next) }
    {
        let level = frame.level as usize;
        for lower in 0..level.min(LEVELS) {
            self.runs[lower] = Run {
                from: next,
                count: 0,
            };
        }
        if level >= LEVELS {
            return None;
        }
        let mut run = self.runs[level];
        run.count = run.count.saturating_add(1);
        self.runs[level] = run;
        Some(run)
    }

    /// Remembers the boundary in its part of the file, unless one behind a higher chunk is there.
    fn keep(&mut self, mark: Mark)
        ensures runs { self.new.runs ≡ self.old.runs }
        ensures marks { (file : ChunkFile) → IsPlaceMark file mark →
            AreMarks file self.old → AreMarks file self.new }
    {
        let part = mark.reached.walk.part(PARTS);
        if self.marks[part].level <= mark.level {
            self.marks[part] = mark;
        }
    }
}
