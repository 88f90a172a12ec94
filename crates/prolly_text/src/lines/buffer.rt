//! The line that the unparsed bytes of a text begin.
ghost use Rattle.std.specs.Prelude.{◌≡◌, ◌<◌, ◌+◌, ◌≤◌, ◌≢◌, true, All, length, take};
ghost use Rattle.std.specs.Prelude.{◌↔◌, ◌^◌, ◌++◌, IfErr, IfOk, IsErrOf, IsOk, OnOk, Some, slice_get};
ghost use Rattle.prolly_io.specs.Failures.{CountsFailure};
ghost use Rattle.prolly_text.specs.Ahead.{IsWithin, LooksAhead, PassesLine, last_ahead};

use crate::lines::line::first_place;
use prolly_entry::{KEY_LIMIT, VALUE_LIMIT};
use prolly_io::{ReadBuffer, Source, SourceFault, WholeFault};

/// How many bytes the longest line has that stands for a record. A byte of a key or a value takes
/// at most four characters, `\xHH`, and between the two stands one byte.
pub const LINE_LIMIT: usize = 4 * (KEY_LIMIT + VALUE_LIMIT) + 1;

/// The bytes of a text that were read and belong to no line yet. Nothing before them is kept.
pub(crate) type LineBuffer = ReadBuffer<0, LINE_LIMIT>;

/// Looks for the line that the unparsed bytes begin, and reads on until its end is among them,
/// or it is too long. No byte is looked at twice.
pub(crate) fn look_ahead<S: Source>(
    buffer: &mut LineBuffer,
    source: &mut S,
) -> Result<Ahead, SourceFault>
    ensures within { IfOk result (IsWithin buffer.new.unparsed) }
    ensures ahead { (S.seen source.old).is_honest ≡ true → LooksAhead buffer.old.unparsed
        (S.seen source.old).left buffer.new.unparsed (S.seen source.new).left result }
    ensures honest { (S.seen source.old).is_honest ≡ true → (S.seen source.new).is_honest ≡ true }
    ensures steady { (S.seen source.old).is_steady ≡ true → (S.seen source.new).is_steady ≡ true }
    ensures failures { CountsFailure (S.seen source.old).failures
        (S.seen source.new).failures result }
    ensures succeeds { (S.seen source.old).is_steady ≡ true → IsOk result }
{
    let mut scanned = 0;
    loop {
        let end = line_end(buffer, scanned);
        let held = buffer.unparsed().len();
        if end > LINE_LIMIT {
            return Ok(Ahead::TooLong);
        }
        if end < held {
            return Ok(Ahead::Line {
                len: end,
                size: end + 1,
            });
        }
        if buffer.fill(source)? == 0 {
            return Ok(last_line(held));
        }
        scanned = held;
    }
}

/// Passes the line that the unparsed bytes begin, however long it is, and answers how many bytes
/// that are, with its newline. A line of 2^64 bytes and more is told as too long.
///
/// An `Err` leaves a part of the line passed.
pub(crate) fn skip_line<S: Source>(
    buffer: &mut LineBuffer,
    source: &mut S,
) -> Result<u64, WholeFault>
    requires { 0 < length buffer.old.unparsed }
    ensures passed { (S.seen source.old).is_honest ≡ true → IfOk result (PassesLine
        (buffer.old.unparsed ++ (S.seen source.old).left)
        (buffer.new.unparsed ++ (S.seen source.new).left)) }
    ensures too_long { (S.seen source.old).is_honest ≡ true → IsErrOf result WholeFault.TooLong →
        2 ^ 64 ≤ length (buffer.old.unparsed ++ (S.seen source.old).left) }
    ensures some { IfOk result (λ size. 0 < size) }
    ensures no_memory { IsErrOf result WholeFault.Memory → ⊥ }
    ensures read { IsErrOf result WholeFault.Read ↔
        ((S.seen source.new).failures ≢ (S.seen source.old).failures) }
    ensures unfailed { OnOk result ((S.seen source.new).failures ≡
        (S.seen source.old).failures) }
    ensures never { (S.seen source.old).is_steady ≡ true →
        (S.seen source.new).failures ≡ (S.seen source.old).failures }
    ensures honest { (S.seen source.old).is_honest ≡ true → (S.seen source.new).is_honest ≡ true }
    ensures steady { (S.seen source.old).is_steady ≡ true → (S.seen source.new).is_steady ≡ true }
{
    let mut passed = 0;
    loop {
        let end = line_end(buffer, 0);
        if end < buffer.unparsed().len() {
            buffer.consume(end + 1);
            return sum(passed, end as u64 + 1);
        }
        buffer.consume(end);
        passed = sum(passed, end as u64)?;
        if buffer.fill(source)? == 0 {
            return Ok(passed);
        }
    }
}

/// The place of the first newline, or the number of the unparsed bytes where there is none.
/// Among the first `scanned` of them there is none.
fn line_end(buffer: &LineBuffer, scanned: usize) -> usize
    requires within { scanned ≤ length buffer.now.unparsed }
    requires none { All (λ b. b ≢ 0x0A) (take scanned buffer.now.unparsed) }
    ensures bound { result ≤ length buffer.now.unparsed }
    ensures none { All (λ b. b ≢ 0x0A) (take result buffer.now.unparsed) }
    ensures there { result < length buffer.now.unparsed →
        slice_get buffer.now.unparsed result ≡ Some 0x0A }
{
    scanned + first_place(&buffer.unparsed()[scanned..], b'\n')
}

/// The sum of a count of bytes and some more.
pub(crate) fn sum(count: u64, more: u64) -> Result<u64, WholeFault>
    ensures ok { IfOk result (λ sum. sum ≡ count + more) }
    ensures err { IfErr result (λ fault. (fault ≡ WholeFault.TooLong) × (2 ^ 64 ≤ count + more)) }
{
    count.checked_add(more).ok_or(WholeFault::TooLong)
}

/// The last line of a text, which has so many bytes and no newline, or none where it has none.
fn last_line(len: usize) -> Ahead
    ensures { result ≡ last_ahead len }
{
    if len == 0 {
        return Ahead::End;
    }
    Ahead::Line { len, size: len }
}

/// What stands ahead of the unparsed bytes.
#[derive(Clone, Copy)]
pub(crate) enum Ahead {
    /// Nothing: the text is at its end.
    End,
    /// A line of `len` bytes. With its newline, where it has one, it has `size`.
    Line { len: usize, size: usize },
    /// A line that is longer than any that stands for a record.
    TooLong,
}
