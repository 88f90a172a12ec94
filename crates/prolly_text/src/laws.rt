//! Laws of the notations. Each is the contract of a function that does nothing: to call it is to
//! know the law, and to prove the crate is to prove it.
ghost use Rattle.prolly_text.specs.Names.{NamesShow};
ghost use Rattle.prolly_text.specs.Notations.{OneTextReading, TextsStandApart, WrittenIsRead};
ghost use Rattle.prolly_text.specs.Notations.{WrittenShows};
ghost use Rattle.prolly_text.specs.PackedLines.{LinesArePacked, LinesAreShort};

/// What is written for bytes stands for them.
pub fn written_is_read()
    ensures { WrittenIsRead }
{}

/// A text stands for one list of bytes at most.
pub fn one_reading()
    ensures { OneTextReading }
{}

/// No text that stands for bytes has a newline, or what stands between a key and its value.
pub fn texts_stand_apart()
    ensures { TextsStandApart }
{}

/// What is written is UTF-8, and no character of it is a control character or a byte order mark.
pub fn written_shows()
    ensures { WrittenShows }
{}

/// What a line shows of a name stands for that name alone, as text, and has no hidden character.
pub fn names_show()
    ensures { NamesShow }
{}

/// No line that stands for a record is longer than [`LINE_LIMIT`](crate::LINE_LIMIT).
pub fn lines_are_short()
    ensures { LinesAreShort }
{}

/// What `pack` makes of lines that were written is the record file of the same records.
pub fn lines_are_packed()
    ensures { LinesArePacked }
{}
