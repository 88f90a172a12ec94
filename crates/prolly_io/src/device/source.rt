//! Sources: where bytes are read from, one after another.
ghost use Rattle.std.specs.Prelude.{◌≡◌, ◌≤◌, true, All, length, IsOk, IfOk, ◌++◌, take, OnErr};
ghost use Rattle.prolly_entry.specs.Byte.{IsByte};
ghost use Rattle.prolly_io.specs.Failures.{CountsFailure};
ghost use Rattle.prolly_io.specs.Source.{SourceView, HandsOut, HandedOutFewer};

use std::error::Error;
use std::fmt;
use std::fmt::{Display, Formatter};

/// A read that failed.
#[derive(Clone, Copy, Debug, PartialEq, Eq)]
pub struct SourceFault;

impl Display for SourceFault {
    ghost use Rattle.std.specs.Prelude.{Some, codes};

    ghost output = { λ _. Some (codes "read failed") };

    fn fmt<W: fmt::Write>(&self, f: &mut Formatter<W>) -> fmt::Result {
        f.write_str("read failed")
    }
}

impl Error for SourceFault {}

/// What gives bytes, a part at a time.
pub trait Source {
    /// What a contract sees of it: whether it is honest, whether it is steady, the bytes that it
    /// has left, and how many reads failed. An honest source hands out the bytes that are left, in
    /// order, and tells where they end. Of a steady one no read fails.
    ghost seen: { Self → SourceView };

    /// Puts the next bytes at the start of `buf`, and answers how many: as many as it likes, so a
    /// caller goes on until an `Ok(0)` for a buffer that has room, which is the end.
    ///
    /// After a `SourceFault` a further read may well answer. What a failed read leaves in `buf` is
    /// not said, nor what any read leaves behind the bytes that it gave.
    fn read(&mut self, buf: &mut [u8]) -> Result<usize, SourceFault>
        ensures bound { IfOk result (λ n. n ≤ length buf.new) }
        ensures bytes { (seen self.old).is_honest ≡ true →
            HandsOut (seen self.old).left (seen self.new).left result buf.new }
        ensures honest { (seen self.old).is_honest ≡ true → (seen self.new).is_honest ≡ true }
        ensures failures { CountsFailure (seen self.old).failures (seen self.new).failures result }
        ensures succeeds { (seen self.old).is_steady ≡ true → IsOk result }
        ensures steady { (seen self.old).is_steady ≡ true → (seen self.new).is_steady ≡ true };

    /// What an honest source has left are bytes, which contracts see as numbers.
    ghost left_are_bytes: { (s : Self) → (seen s).is_honest ≡ true → All IsByte (seen s).left };
}

/// Takes the first bytes that a source has left off it, into `front`: as many as that has room for,
/// or all where there are fewer. Answers how many these are. So it can be told what a file is
/// before it is read by whoever reads such files, over a [`Rejoined`](crate::Rejoined).
///
/// At a `SourceFault` what was read before it is gone. What is left in `front` behind the bytes
/// that were taken is not said.
pub fn take_front<S: Source>(source: &mut S, front: &mut [u8]) -> Result<usize, SourceFault>
    ensures size { length front.new ≡ length front.old }
    ensures bound { IfOk result (λ count. count ≤ length front.new) }
    ensures joined { (S.seen source.old).is_honest ≡ true → IfOk result (λ count.
        take count front.new ++ (S.seen source.new).left ≡ (S.seen source.old).left) }
    ensures first { (S.seen source.old).is_honest ≡ true → IfOk result (λ count.
        take count front.new ≡ take (length front.old) (S.seen source.old).left) }
    ensures fewer { (S.seen source.old).is_honest ≡ true → OnErr result
        (HandedOutFewer (length front.old) (S.seen source.old).left (S.seen source.new).left) }
    ensures failures { CountsFailure (S.seen source.old).failures
        (S.seen source.new).failures result }
    ensures honest { (S.seen source.old).is_honest ≡ true → (S.seen source.new).is_honest ≡ true }
    ensures steady { (S.seen source.old).is_steady ≡ true → (S.seen source.new).is_steady ≡ true }
    ensures succeeds { (S.seen source.old).is_steady ≡ true → IsOk result }
{
    let mut count = 0;
    while count < front.len() {
        let given = source.read(&mut front[count..])?;
        if given == 0 {
            return Ok(count);
        }
        count += given;
    }
    Ok(count)
}
