//! What `explain` and `stat` show where they are refused memory.
use super::{FILE_OF_ONE, RECORD, expect_shown};
use prolly_answer::{StatForm, answer_explain, answer_explain_lines, answer_stat};
use prolly_check::OneThread;
use prolly_io::FromRead;
use prolly_text::{LineForm, Notation};

#[test]
fn a_record_file_is_explained_or_wants_memory(rt: HostRuntime) {
    let alloc = rt.alloc();
    let good = answer_explain(alloc, &mut FromRead::new(RECORD), Notation::Hex);
    expect_shown(&rt, good, 0, b"ok 1\n");
    let mut falling = FromRead::new(b"\0\x01b\0\0\0\0\0\x01a\0\0\0\0".as_slice());
    let flawed = answer_explain(alloc, &mut falling, Notation::Text);
    let reason = b"record 1 at byte 7: key out of order\nits key: a\nthe key before: b\n";
    expect_shown(&rt, flawed, 1, reason);
}

#[test]
fn lines_are_explained_or_want_memory(rt: HostRuntime) {
    let alloc = rt.alloc();
    let mut good = FromRead::new(b"61 31\n".as_slice());
    let answer = answer_explain_lines(alloc, &mut good, LineForm::hex(), false);
    expect_shown(&rt, answer, 0, b"ok 1\n");
    let mut faulty = FromRead::new(b"61 3\n".as_slice());
    let answer = answer_explain_lines(alloc, &mut faulty, LineForm::hex(), true);
    let lines = b"line 1 at byte 0: odd number of digits from byte 3\n\
          the line: 61 3\nright: two digits a byte\n";
    expect_shown(&rt, answer, 1, lines);
}

#[test]
fn a_file_is_shown_in_numbers_or_wants_memory(rt: HostRuntime) {
    let alloc = rt.alloc();
    let lines = StatForm::Lines(Notation::Hex);
    let records = answer_stat(&OneThread, alloc, FromRead::new(RECORD), lines);
    let numbers = b"records 1\nremovals 0\nbytes 8\nfirst 61\nlast 61\n";
    expect_shown(&rt, records.answer, 0, numbers);
    let tree = answer_stat(&OneThread, alloc, FromRead::new(FILE_OF_ONE), lines);
    let table = b"root siohomb4dih8dpq7rscofpf57l9lfog4\nformat 1\nbits 0\n\
          pairs 1\nchunks 1\nbytes 9\n\
          level      chunks     entries         bytes       least      middle    greatest\n\
          \x20   0           1           1             9           9           9           9  #\n";
    expect_shown(&rt, tree.answer, 0, table);
    let line = b"{\"root\":\"siohomb4dih8dpq7rscofpf57l9lfog4\",\"format\":1,\"bits\":0,\
          \"pairs\":1,\"chunks\":1,\"bytes\":9,\"levels\":[{\"level\":0,\"chunks\":1,\"entries\":1,\
          \"bytes\":9,\"least\":9,\"middle\":9,\"greatest\":9}]}\n";
    let tree = answer_stat(
        &OneThread,
        alloc,
        FromRead::new(FILE_OF_ONE),
        StatForm::Json,
    );
    expect_shown(&rt, tree.answer, 0, line);
}
