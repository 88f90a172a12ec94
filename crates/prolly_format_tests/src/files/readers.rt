//! A reader of std as a source.
use super::reads;
use crate::expect::expect_bytes;
use prolly_io::{FromRead, SourceFault};
use std::io;
use std::io::{ErrorKind, Read};

/// A reader that gives a byte at each read, but is interrupted at the second, fails at the third
/// and says at the fifth that it has no more.
#[derive(Drop)]
struct Stutters {
    reads: u8,
}

impl Read for Stutters {
    fn read(&mut self, buf: &mut [u8]) -> io::Result<usize> {
        self.reads = self.reads.wrapping_add(1);
        match self.reads {
            2 => Err(io::Error::from(ErrorKind::Interrupted)),
            3 => Err(io::Error::from(ErrorKind::InvalidData)),
            5 => Ok(0),
            reads => {
                if buf.is_empty() {
                    return Ok(0);
                }
                buf[0] = reads;
                Ok(1)
            }
        }
    }
}

#[test]
fn reads_memory(rt: HostRuntime) {
    let mut source = FromRead::new(b"abc".as_slice());
    let mut buf = [0; 2];
    reads(&rt, &mut source, &mut buf, &[Ok(2)]);
    expect_bytes(&rt, &buf, b"ab");
    reads(&rt, &mut source, &mut buf, &[Ok(1)]);
    expect_bytes(&rt, &buf[..1], b"c");
    reads(&rt, &mut source, &mut buf, &[Ok(0)]);
}

#[test]
fn errors_are_faults_but_interruptions_and_the_end_is_for_good(rt: HostRuntime) {
    let mut source = FromRead::new(Stutters { reads: 0 });
    let mut buf = [0; 2];
    let answers = [Ok(1), Err(SourceFault), Ok(1)];
    reads(&rt, &mut source, &mut buf, &answers);
    expect_bytes(&rt, &buf[..1], &[4]);
    reads(&rt, &mut source, &mut buf, &[Ok(0), Ok(0)]);
}
