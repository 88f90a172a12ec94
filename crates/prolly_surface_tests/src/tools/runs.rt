//! Runs into a sink, by `prolly_tool`, and what is answered of them.
use prolly_entry::Ref;
use prolly_file::{Buffered, ScriptDevice, ScriptSink, ScriptSource};
use prolly_root::FileChunks;
use prolly_stage::OpenGate;
use prolly_tool::{Answer, Config, HeldBack, answer_apply_into, answer_build_into};
use std::test::Fail;

/// The line of the empty map: one chunk, no pairs, one level.
const EMPTY_LINE: &[u8] = b"n0i4q0k9g7b97brr8llfhrt4pbb3qa1e 1 0 1\n";

/// The text of the root in that line.
const EMPTY_ROOT: &[u8] = b"n0i4q0k9g7b97brr8llfhrt4pbb3qa1e";

/// The line of a write that failed.
const FAILED_WRITE: &[u8] = b"prolly: write failed\n";

/// The line of a record file of one byte.
const CUT_RECORD: &[u8] = b"prolly: file 0: record 0 is cut\n";

/// The size of the header of a file.
const HEADER: usize = 6;

/// The size of the file of the empty map: header, frame, the level of its leaf, end record.
const EMPTY_FILE: usize = 45;

/// Room for more than is written.
const ROOM: usize = 65_536;

fn is_line(answer: &Answer, line: &[u8]) -> bool {
    answer.status == 0 && &answer.out[..] == line && answer.err.is_empty()
}

fn is_failed_write(answer: &Answer) -> bool {
    answer.status == 5 && answer.out.is_empty() && &answer.err[..] == FAILED_WRITE
}

#[test]
fn a_build_is_answered_behind_its_flush(rt: HostRuntime) -> Result<(), Fail> {
    let alloc = rt.alloc();
    let config = Config::new(0, 12, 4, 1_000)?;
    let mut none: Vec<ScriptSource> = Vec::new(alloc);
    let mut sink = ScriptSink::new(alloc, ROOM, None);
    let answer = answer_build_into(
        &rt,
        alloc,
        &config,
        &mut none,
        &mut sink,
        &OpenGate,
        HeldBack::Written,
    )?;
    assert!(rt; is_line(&answer, EMPTY_LINE) && sink.taken().len() == EMPTY_FILE);
    let mut full = Buffered::with_capacity(alloc, ROOM, ScriptSink::new(alloc, ROOM, Some(1)))?;
    let answer = answer_build_into(
        &rt,
        alloc,
        &config,
        &mut none,
        &mut full,
        &OpenGate,
        HeldBack::Lost,
    )?;
    assert!(rt; is_failed_write(&answer));
    Ok(())
}

#[test]
fn what_a_sink_holds_back_at_a_fault_is_written_or_lost(rt: HostRuntime) -> Result<(), Fail> {
    let alloc = rt.alloc();
    let config = Config::new(0, 12, 4, 1_000)?;
    for (held_back, taken) in [(HeldBack::Written, HEADER), (HeldBack::Lost, 0)] {
        let cut = ScriptSource::new(Vec::from_slice(alloc, &[0])?, 1, None);
        let mut sources = vec![in alloc; cut]?;
        let mut sink = Buffered::with_capacity(alloc, ROOM, ScriptSink::new(alloc, ROOM, None))?;
        let answer = answer_build_into(
            &rt,
            alloc,
            &config,
            &mut sources,
            &mut sink,
            &OpenGate,
            held_back,
        )?;
        assert!(rt; answer.status == 3 && &answer.err[..] == CUT_RECORD);
        assert!(rt; sink.sink().taken().len() == taken);
    }
    Ok(())
}

#[test]
fn changes_are_answered_behind_their_flush(rt: HostRuntime) -> Result<(), Fail> {
    let alloc = rt.alloc();
    let config = Config::new(0, 12, 4, 1_000)?;
    let root = Ref::from_text(EMPTY_ROOT).ok_or("the text of a root")?;
    let mut none: Vec<ScriptSource> = Vec::new(alloc);
    let mut file = ScriptSink::new(alloc, ROOM, None);
    answer_build_into(
        &rt,
        alloc,
        &config,
        &mut none,
        &mut file,
        &OpenGate,
        HeldBack::Written,
    )?;
    let old = Vec::from_slice(alloc, file.taken())?;
    let old = FileChunks::new(ScriptDevice::new(old, None));
    let mut sink = ScriptSink::new(alloc, ROOM, None);
    let answer = answer_apply_into(
        &rt,
        alloc,
        &config,
        &root,
        old,
        &mut none,
        &mut sink,
        &OpenGate,
        HeldBack::Written,
    )?;
    assert!(rt; is_line(&answer, EMPTY_LINE) && sink.taken() == file.taken());
    Ok(())
}
