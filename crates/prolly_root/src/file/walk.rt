//! The frames of a chunk file on a device, one after another.
ghost use Rattle.std.specs.Prelude.{◌≡◌, ◌+◌, ◌^◌, ◌<◌, ◌≤◌, ◌⊎◌, ℕ, All, [], ◌∷◌, ◌++◌, List};
ghost use Rattle.std.specs.Prelude.{length, drop, Ok, Err, None, OnOk, IfOk, IfErr, IfSome};
ghost use Rattle.prolly_entry.specs.Byte.{IsByte};
ghost use Rattle.prolly_io.specs.Frame.{frame_start};

use crate::file::header::named_header;
use crate::file::marks::Marks;
use crate::root_fault::RootFault;
use prolly_entry::Version;
use prolly_io::{
    Device, END_LETTER, END_SIZE, FRAME_FRONT, FRAME_LETTER, FRAME_START, FrameFault, FrameStart,
    HEADER_SIZE, read_start,
};

/// A chunk of a file, of which the level was read.
#[derive(Clone, Copy)]
pub(crate) struct Frame {
    /// Its number in the file, counted from 0.
    pub(crate) number: u64,
    /// Where its bytes begin.
    pub(crate) start: u64,
    /// How many they are.
    pub(crate) len: u64,
    /// Its level.
    pub(crate) level: u8,
}

/// A boundary between two frames of a file: the offset at which the next one begins.
#[derive(Clone, Copy)]
pub(crate) struct Walk {
    offset: u64,
    /// The number of the chunk whose frame is next.
    pub(crate) number: u64,
    /// The size of the file.
    size: u64,
}

impl Walk {
    ghost use Rattle.prolly_root.specs.ChunkFile.{ChunkFile, HoldsChunks};
    ghost use Rattle.prolly_root.specs.Marks.{FindsLast};
    ghost use Rattle.prolly_root.specs.Walk.{BeginsWalk, GoesOver, GoesToLevel, HasRead};
    ghost use Rattle.prolly_root.specs.Walk.{IsStartOf, IsWalk};

    /// The boundary before the first frame of a chunk file of this version.
    pub(crate) fn begin<D: Device>(device: &mut D, version: Version) -> Result<Walk, RootFault>
        ensures read { HasRead (D.seen device.old) (D.seen device.new) result }
        ensures begins { (file : ChunkFile) → HoldsChunks (D.seen device.old) file →
            BeginsWalk version file result }
    {
        if named_header(device)?.version != version {
            return Err(RootFault::Version);
        }
        Ok(Walk {
            offset: HEADER_SIZE as u64,
            number: 0,
            size: device.len()?,
        })
    }

    /// The boundary behind a frame of the same file. Nothing is read.
    pub(crate) fn behind(&self, frame: &Frame) -> Walk {
        Walk {
            offset: frame.start.saturating_add(frame.len),
            number: frame.number.saturating_add(1),
            size: self.size,
        }
    }

    /// Goes over the next frame; none where the end record is next. One read, of ten bytes.
    pub(crate) fn next<D: Device>(&mut self, device: &mut D) -> Result<Option<Frame>, RootFault>
        ensures read { HasRead (D.seen device.old) (D.seen device.new) result }
        ensures size { self.new.size ≡ self.old.size }
        ensures forward { IfOk result (λ next. IfSome next (λ frame.
            (self.old.offset < self.new.offset) × (self.new.offset ≤ self.new.size))) }
        ensures goes { (file : ChunkFile) → HoldsChunks (D.seen device.old) file →
            IsWalk file self.old → GoesOver file self.old.number self.new result }
    {
        match self.start(device)? {
            FrameStart::End => self.end(),
            FrameStart::Chunk(len, level) => Ok(Some(self.go_over(len, level)?)),
        }
    }

    /// Goes on to the next frame of a chunk of this level, and over it. One read for each frame.
    pub(crate) fn next_of_level<D: Device>(
        &mut self,
        device: &mut D,
        level: u8,
    ) -> Result<Frame, RootFault>
        ensures read { HasRead (D.seen device.old) (D.seen device.new) result }
        ensures goes { (file : ChunkFile) → HoldsChunks (D.seen device.old) file →
            IsWalk file self.old → GoesToLevel file level self.old.number self.new result }
    {
        loop {
            match self.next(device)? {
                Some(frame) if frame.level == level => return Ok(frame),
                Some(_) => {}
                None => return Err(RootFault::Missing),
            }
        }
    }

    /// The last frame of the file, where this is the boundary before the first one, and the marks that
    /// are remembered on the way to it.
    pub(crate) fn last<D: Device>(mut self, device: &mut D) -> Result<(Frame, Marks), RootFault>
        ensures read { HasRead (D.seen device.old) (D.seen device.new) result }
        ensures last { (file : ChunkFile) → HoldsChunks (D.seen device.old) file →
            IsWalk file self → self.number ≡ 0 → FindsLast file result }
    {
        let mut marks = Marks::begin(self);
        let mut last = None;
        while let Some(frame) = self.next(device)? {
            marks.go_over(frame, self);
            last = Some(frame);
        }
        match last {
            Some(frame) => Ok((frame, marks)),
            None => Err(RootFault::Missing),
        }
    }

    /// In which of so many parts of the file, all of one size, it stands. They are counted from 0.
    pub(crate) fn part(&self, parts: usize) -> usize
        requires { 1 < parts }
        ensures { result < parts }
    {
        let size = self.size / parts as u64 + 1;
        let part = (self.offset / size) as usize;
        part.min(parts - 1)
    }

    /// What begins here.
    fn start<D: Device>(&self, device: &mut D) -> Result<FrameStart, RootFault>
        ensures read { HasRead (D.seen device.old) (D.seen device.new) result }
        ensures is { (file : ChunkFile) → HoldsChunks (D.seen device.old) file →
            IsWalk file self.now →
            IsStartOf self.now.number (drop self.now.number file.chunks) file.rest result }
    {
        let mut start = [0; FRAME_FRONT];
        let count = device.read_at(self.offset, &mut start)?;
        start_in(&start[..count], self.number)
    }

    /// None, where the end record, which begins here, ends where the file does.
    fn end(&self) -> Result<Option<Frame>, RootFault>
        ensures none { IfOk result (λ next.
            (next ≡ None) × (self.now.offset + END_SIZE ≡ self.now.size)) }
        ensures fault { IfErr result (λ fault.
            ((fault ≡ RootFault.Truncated) × (self.now.size < self.now.offset + END_SIZE)) ⊎
            ((fault ≡ RootFault.Trailing) × (self.now.offset + END_SIZE < self.now.size))) }
    {
        let left = self.size.saturating_sub(self.offset);
        if left < END_SIZE as u64 {
            return Err(RootFault::Truncated);
        }
        if left > END_SIZE as u64 {
            return Err(RootFault::Trailing);
        }
        Ok(None)
    }

    /// Goes over the frame of a chunk of this length and level.
    fn go_over(&mut self, len: u64, level: u8) -> Result<Frame, RootFault>
        ensures size { self.new.size ≡ self.old.size }
        ensures within { OnOk result (self.new.offset ≤ self.new.size) }
        ensures offset { OnOk result (self.new.offset ≡ self.old.offset + 9 + len) }
        ensures number { self.old.number + 1 < 2 ^ 64 →
            OnOk result (self.new.number ≡ self.old.number + 1) }
        ensures frame { IfOk result (λ frame. (frame.number ≡ self.old.number) ×
            (frame.start ≡ self.old.offset + 9) × (frame.len ≡ len) × (frame.level ≡ level)) }
        ensures fits { OnOk result ((0 < len) × (self.old.offset + 9 + len ≤ self.old.size)) }
        ensures fault { IfErr result (λ fault.
            ((fault ≡ RootFault.Chunk self.old.number) × (len ≡ 0)) ⊎
            ((fault ≡ RootFault.Truncated) × (0 < len) ×
            (self.old.size < self.old.offset + 9 + len))) }
    {
        if len == 0 {
            return Err(RootFault::Chunk { chunk: self.number });
        }
        let room = self
            .size
            .saturating_sub(self.offset)
            .saturating_sub(FRAME_START as u64);
        if len > room {
            return Err(RootFault::Truncated);
        }
        let frame = Frame {
            number: self.number,
            start: self.offset + FRAME_START as u64,
            len,
            level,
        };
        self.offset = frame.start + len;
        self.number = self.number.saturating_add(1);
        Ok(frame)
    }
}

/// What these bytes tell, in the place of the chunk of this number.
fn start_in(bytes: &[u8], number: u64) -> Result<FrameStart, RootFault>
    ensures end { (more : List ℕ) → bytes.now ≡ END_LETTER ∷ more → result ≡ Ok FrameStart.End }
    ensures chunk { (len level : ℕ) (more : List ℕ) → len < 2 ^ 64 →
        bytes.now ≡ frame_start len ++ level ∷ more → result ≡ Ok (FrameStart.Chunk len level) }
    ensures empty { bytes.now ≡ [] → result ≡ Err RootFault.Truncated }
    ensures cut { (more : List ℕ) → bytes.now ≡ FRAME_LETTER ∷ more → length more < FRAME_START →
        result ≡ Err RootFault.Truncated }
    ensures other { (letter : ℕ) (more : List ℕ) → bytes.now ≡ letter ∷ more →
        (letter ≡ END_LETTER → ⊥) → (letter ≡ FRAME_LETTER → ⊥) →
        result ≡ Err (RootFault.Frame number) }
    ensures read { IfErr result (λ fault. fault ≡ RootFault.Read → ⊥) }
    ensures bytes { All IsByte bytes.now }
{
    match read_start(bytes) {
        Ok(start) => Ok(start),
        Err(FrameFault::Truncated) => Err(RootFault::Truncated),
        Err(FrameFault::BadLetter) => Err(RootFault::Frame { chunk: number }),
    }
}
