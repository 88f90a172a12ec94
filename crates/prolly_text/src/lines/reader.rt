//! Records out of the lines of a text, one after another, as the text is read.
ghost use Rattle.std.specs.Prelude.{◌≡◌, ◌≢◌, ◌↔◌, ◌<◌, ◌^◌, ◌++◌, true, [], IfOk, IsErrOf, OnOk};

use crate::lines::buffer::{Ahead, LineBuffer, look_ahead};
use crate::lines::form::LineForm;
use crate::lines::pack::{LinesFault, record_at};
use prolly_entry::Record;
use prolly_io::{Source, SourceFault};
use std::alloc::{AllocError, Global};
use std::fmt;
use std::fmt::{Display, Formatter};
use std::marker::Model;
use thiserror::Error;

/// Why a reader of lines gives no record. Lines are numbered from 0.
#[derive(Clone, Copy, Debug, PartialEq, Eq, Error)]
pub enum ReadLinesFault {
    /// The source failed.
    Read,
    /// The line stands for no record, or memory was refused.
    Line(LinesFault),
    /// The line is longer than any that stands for a record: see
    /// [`LINE_LIMIT`](crate::LINE_LIMIT).
    LineTooLong { line: u64 },
    /// The text has more than 2^64 - 1 lines, so that there is no number for the next one.
    TooManyLines,
}

impl From<SourceFault> for ReadLinesFault {
    ghost use Rattle.prolly_text.specs.declared.lines.reader.ReadLinesFault.TheVariants.{Read};

    ghost from_gives = { λ _ fault. fault ≡ Read };

    fn from(_: SourceFault) -> Self {
        ReadLinesFault::Read
    }
}

impl From<LinesFault> for ReadLinesFault {
    ghost use Rattle.prolly_text.specs.declared.lines.reader.ReadLinesFault.TheVariants.{Line};

    ghost from_gives = { λ line fault. fault ≡ Line line };

    fn from(line: LinesFault) -> Self {
        ReadLinesFault::Line(line)
    }
}

impl Display for ReadLinesFault {
    ghost use Rattle.std.specs.Prelude.{Some};
    ghost use Rattle.prolly_text.specs.LinesFaults.{read_lines_text};

    ghost output = { λ fault. Some (read_lines_text fault) };

    fn fmt<W: fmt::Write>(&self, f: &mut Formatter<W>) -> fmt::Result {
        match self {
            ReadLinesFault::Read => f.write_str("read failed"),
            ReadLinesFault::Line(fault) => fault.fmt(f),
            ReadLinesFault::LineTooLong { line } => write!(f, "line {line}: line too long"),
            ReadLinesFault::TooManyLines => f.write_str("too many lines"),
        }
    }
}

/// Reads lines from a source, and gives the record of each.
///
/// Holds one buffer of 324 KiB, however long the text is, and offers each read 64 KiB or more.
#[derive(Drop)]
pub struct RecordLines {
    alloc: Global,
    form: LineForm,
    buffer: LineBuffer,
    number: u64,
}

impl Model for RecordLines {
    ghost use Rattle.prolly_text.specs.RecordLines.{LinesInHand};

    ghost Value = { LinesInHand };

    ghost view = { λ l. record {
      form = l.form;
      unparsed = l.buffer.unparsed;
      number = l.number;
    } };

    ghost invariant = { λ l. Unit {0} };
}

impl RecordLines {
    ghost use Rattle.prolly_text.specs.RecordLines.{IsNextOf, number_behind};

    /// A reader of lines in this form, at the start of a text. Takes its buffer.
    pub fn new(alloc: Global, form: LineForm) -> Result<RecordLines, AllocError>
        ensures { IfOk result (λ lines.
            lines ≡ record { form = form; unparsed = []; number = 0 }) }
    {
        Ok(RecordLines {
            alloc,
            form,
            buffer: LineBuffer::new(alloc)?,
            number: 0,
        })
    }

    /// How many lines were given.
    pub fn number(&self) -> u64
        ensures { result ≡ self.now.number }
    {
        self.number
    }

    /// The record of the next line, or none at the end of the text. Whether keys rise is not
    /// tested.
    ///
    /// An `Err` passes no line: the next call looks at it again, and tells the same fault of it,
    /// but for a failed read and want of memory. The source is not read while a whole line is at
    /// hand.
    ///
    /// Takes time linear in the line, and memory for its record alone.
    pub fn next<S: Source>(&mut self, source: &mut S) -> Result<Option<Record>, ReadLinesFault>
        ensures form { self.new.form ≡ self.old.form }
        ensures number { self.new.number ≡ number_behind self.old.number result }
        ensures fits { self.new.number < 2 ^ 64 }
        ensures given { (S.seen source.old).is_honest ≡ true → IsNextOf self.old.form
            self.old.number (self.old.unparsed ++ (S.seen source.old).left)
            (self.new.unparsed ++ (S.seen source.new).left) result }

        // A failed read is told, and nothing else is told as one.
        ensures read { IsErrOf result ReadLinesFault.Read ↔
            ((S.seen source.new).failures ≢ (S.seen source.old).failures) }
        ensures unfailed { OnOk result ((S.seen source.new).failures ≡
            (S.seen source.old).failures) }
        ensures never { (S.seen source.old).is_steady ≡ true →
            (S.seen source.new).failures ≡ (S.seen source.old).failures }
        ensures honest { (S.seen source.old).is_honest ≡ true →
            (S.seen source.new).is_honest ≡ true }
        ensures steady { (S.seen source.old).is_steady ≡ true →
            (S.seen source.new).is_steady ≡ true }
    {
        let (len, size) = match look_ahead(&mut self.buffer, source)? {
            Ahead::End => return Ok(None),
            Ahead::TooLong => return Err(ReadLinesFault::LineTooLong { line: self.number }),
            Ahead::Line { len, size } => (len, size),
        };
        if self.number == u64::MAX {
            return Err(ReadLinesFault::TooManyLines);
        }
        let line = &self.buffer.unparsed()[..len];
        let record = record_at(self.alloc, self.form, line, self.number)?;
        self.buffer.consume(size);
        self.number += 1;
        Ok(Some(record))
    }
}
