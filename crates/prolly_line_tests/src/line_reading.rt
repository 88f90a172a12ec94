//! The records of lines, as a reader gives them one after another.
use crate::expect::{expect_bytes, expect_eq};
use crate::packing::{FAULTY_TEXT_LINES, HEX_LINES, TEXT_LINES};
use prolly_entry::append_record;
use prolly_io::ScriptSource;
use prolly_text::{
    LINE_LIMIT, LineForm, LinesFault, Notation, PackFault, ReadLinesFault, RecordLines,
};
use std::alloc::Global;
use std::process::Abort;
use std::test::Fail;

/// How many bytes a read gives.
const STEPS: [usize; 3] = [1, 3, 1_000_000];

/// More lines than a text of these tests has.
const MANY_LINES: u64 = 16;

/// Lines of text of which a key alone may be a removal.
fn text_form(removals: bool) -> LineForm {
    LineForm {
        notation: Notation::Text,
        removals,
    }
}

/// Reads lines up to their end or a fault, appends the spellings of their records, and answers how
/// many they are.
fn read_on(
    lines: &mut RecordLines,
    source: &mut ScriptSource,
    out: &mut Vec<u8>,
) -> Result<Result<u64, ReadLinesFault>, Fail> {
    for _ in 0..MANY_LINES {
        match lines.next(source) {
            Ok(Some(record)) => append_record(out, &record)?,
            Ok(None) => return Ok(Ok(lines.number())),
            Err(fault) => return Ok(Err(fault)),
        }
    }
    Ok(Ok(MANY_LINES))
}

/// Reads a text at each step, and compares what comes of it.
fn expect_read(
    rt: &impl Abort,
    alloc: Global,
    (form, text): (LineForm, &[u8]),
    wanted: Result<u64, ReadLinesFault>,
    records: &[u8],
) -> Result<(), Fail> {
    for step in STEPS {
        let mut source = ScriptSource::new(text.to_vec(alloc)?, step.max(1), None);
        let mut lines = RecordLines::new(alloc, form)?;
        let mut out = Vec::new(alloc);
        let read = read_on(&mut lines, &mut source, &mut out)?;
        expect_eq(rt, &read, &wanted);
        expect_bytes(rt, &out, records);
    }
    Ok(())
}

#[test]
fn gives_the_records_of_lines(rt: HostRuntime) -> Result<(), Fail> {
    for &(text, count, records) in HEX_LINES {
        let form = LineForm::hex();
        expect_read(&rt, rt.alloc(), (form, text), Ok(count), records)?;
    }
    for &(text, removals, count, records) in TEXT_LINES {
        let form = text_form(removals);
        expect_read(&rt, rt.alloc(), (form, text), Ok(count), records)?;
    }
    Ok(())
}

/// The first faulty line, before which the tests give lines that stand for records.
#[test]
fn names_the_line_at_fault(rt: HostRuntime) -> Result<(), Fail> {
    for &(text, removals, line) in FAULTY_TEXT_LINES {
        let form = text_form(removals);
        let fault = ReadLinesFault::Line(LinesFault::BadText { line });
        let records: &[u8] = if line == 0 {
            b""
        } else {
            b"\0\x01a\0\0\0\x011"
        };
        expect_read(&rt, rt.alloc(), (form, text), Err(fault), records)?;
    }
    let fault = ReadLinesFault::Line(LinesFault::ByteOrderMark);
    let text: &[u8] = b"\xEF\xBB\xBFa\t1\n";
    expect_read(&rt, rt.alloc(), (text_form(true), text), Err(fault), b"")
}

/// A failed read is told, and the next call goes on where it was.
#[test]
fn goes_on_after_a_failed_read(rt: HostRuntime) -> Result<(), Fail> {
    let text: &[u8] = b"a\t1\nb\t2\n";
    let mut source = ScriptSource::new(text.to_vec(rt.alloc())?, 1, Some(6));
    let mut lines = RecordLines::new(rt.alloc(), text_form(false))?;
    let mut out = Vec::new(rt.alloc());
    let read = read_on(&mut lines, &mut source, &mut out)?;
    expect_eq(&rt, &read, &Err(ReadLinesFault::Read));
    expect_eq(&rt, &lines.number(), &1);
    let read = read_on(&mut lines, &mut source, &mut out)?;
    expect_eq(&rt, &read, &Ok(2));
    expect_bytes(&rt, &out, b"\0\x01a\0\0\0\x011\0\x01b\0\0\0\x012");
    Ok(())
}

/// A line of one key and its removal, `len` bytes long, behind a line.
fn long_line(alloc: Global, len: usize) -> Result<Vec<u8>, Fail> {
    let mut text = b"a\t1\n".to_vec(alloc)?;
    for _ in 0..len {
        text.push(b'b')?;
    }
    Ok(text)
}

/// A line that is too long is told as such, whatever it holds.
#[test]
fn refuses_a_long_line(rt: HostRuntime) -> Result<(), Fail> {
    let record: &[u8] = b"\0\x01a\0\0\0\x011";
    let form = text_form(true);
    let text = long_line(rt.alloc(), LINE_LIMIT + 1)?;
    let fault = ReadLinesFault::LineTooLong { line: 1 };
    expect_read(&rt, rt.alloc(), (form, &text), Err(fault), record)?;
    let text = long_line(rt.alloc(), LINE_LIMIT)?;
    let fault = ReadLinesFault::Line(PackFault::KeyTooLong { line: 1 }.into());
    expect_read(&rt, rt.alloc(), (form, &text), Err(fault), record)
}

/// The texts of the faults that lines of text alone do not have.
#[test]
fn tells_faults_of_reading(rt: HostRuntime) -> Result<(), Fail> {
    let texts = [
        (ReadLinesFault::Read, "read failed"),
        (
            ReadLinesFault::LineTooLong { line: 7 },
            "line 7: line too long",
        ),
        (ReadLinesFault::TooManyLines, "too many lines"),
        (
            ReadLinesFault::Line(LinesFault::ByteOrderMark),
            "line 0: begins with a byte order mark",
        ),
    ];
    for (fault, text) in texts {
        expect_bytes(
            &rt,
            format!(in rt.alloc(); "{fault}")?.as_bytes(),
            text.as_bytes(),
        );
    }
    Ok(())
}
