//! A writer of std as a sink.
use super::{flushes, writes};
use crate::expect::{expect_bytes, expect_eq};
use prolly_io::{SinkFault, ToWrite};
use std::io;
use std::io::{ErrorKind, Write};
use std::test::Fail;

/// A writer that counts its calls. Its second write is interrupted, and its fourth fails, as does
/// its second flush.
#[derive(Drop)]
struct Counts {
    writes: u8,
    flushes: u8,
}

impl Write for Counts {
    fn write(&mut self, buf: &[u8]) -> io::Result<usize> {
        self.writes = self.writes.wrapping_add(1);
        match self.writes {
            2 => Err(io::Error::from(ErrorKind::Interrupted)),
            4 => Err(io::Error::from(ErrorKind::InvalidData)),
            _ => Ok(buf.len()),
        }
    }

    fn flush(&mut self) -> io::Result<()> {
        self.flushes = self.flushes.wrapping_add(1);
        if self.flushes == 2 {
            return Err(io::Error::from(ErrorKind::InvalidData));
        }
        Ok(())
    }
}

#[test]
fn writes_memory(rt: HostRuntime) -> Result<(), Fail> {
    let mut out = b"a".to_vec(rt.alloc())?;
    let mut sink = ToWrite::new(&mut out);
    writes(&rt, &mut sink, b"bc", &[Ok(2)]);
    flushes(&rt, &mut sink, &[Ok(())]);
    expect_bytes(&rt, &out, b"abc");
    Ok(())
}

#[test]
fn flushes_the_writer_and_errors_are_faults_but_interruptions(rt: HostRuntime) {
    let mut writer = Counts {
        writes: 0,
        flushes: 0,
    };
    let mut sink = ToWrite::new(&mut writer);
    writes(
        &rt,
        &mut sink,
        b"abc",
        &[Ok(3), Ok(3), Err(SinkFault), Ok(3)],
    );
    flushes(&rt, &mut sink, &[Ok(()), Err(SinkFault), Ok(())]);
    expect_eq(&rt, &(writer.writes, writer.flushes), &(5, 3));
}
