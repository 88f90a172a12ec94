//! What `explain --lines` answers.
use super::expect_answer;
use prolly_answer::answer_explain_lines;
use prolly_io::{FromRead, ScriptSource};
use prolly_text::{LineForm, Notation};
use std::test::Fail;

/// Lines of text, whether all faulty ones are asked for, the status, and what is shown.
const EXPLAINED: &[(&[u8], bool, u8, &[u8])] = &[
    (b"", false, 0, b"ok 0\n"),
    (b"a\t1\nb\t2", true, 0, b"ok 2\n"),
    (
        b"a\t1\n\xFFb\\q\tc\td\n\n",
        false,
        1,
        b"line 2 at byte 4: second tab at byte 10\nthe line: \\xffb\\\\q\\tc\\td\n\
          right: a tab within a key or a value is written \\t\n",
    ),
    (
        b"a\\q\t1\n\n",
        true,
        1,
        b"line 1 at byte 0: bad escape at byte 1\nthe line: a\\\\q\\t1\n\
          right: \\\\ for a backslash, \\b \\t \\n \\v \\f \\r, or \\x and two hexadecimal digits\n\
          line 2 at byte 6: no tab\nthe line: \n\
          right: a key, a tab and a value; with --removals a key alone is its removal\n",
    ),
];

#[test]
fn tells_where_and_why_lines_are_at_fault(rt: HostRuntime) -> Result<(), Fail> {
    let form = LineForm {
        notation: Notation::Text,
        removals: false,
    };
    for &(text, all, status, out) in EXPLAINED {
        let answer = answer_explain_lines(rt.alloc(), &mut FromRead::new(text), form, all)?;
        expect_answer(&rt, &answer, status, out, b"");
    }
    Ok(())
}

#[test]
fn tells_that_lines_cannot_be_read(rt: HostRuntime) -> Result<(), Fail> {
    let text: &[u8] = b"61 31\n62";
    let mut source = ScriptSource::new(text.to_vec(rt.alloc())?, 4, Some(2));
    let answer = answer_explain_lines(rt.alloc(), &mut source, LineForm::hex(), false)?;
    expect_answer(&rt, &answer, 5, b"", b"prolly: file 0: read failed\n");
    Ok(())
}
