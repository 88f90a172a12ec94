//! A device over what gives less than was asked, as a file may.
use crate::expect::{expect_bytes, expect_eq};
use prolly_io::{Device, FromFile, PlacedRead};
use std::io;

/// Bytes that come two at a time, from any offset on.
#[derive(Drop)]
struct InPairs<'a> {
    bytes: &'a [u8],
}

impl<'a> PlacedRead for InPairs<'a> {
    ghost use Rattle.std.specs.Prelude.{Some};

    ghost known = { λ pairs. Some pairs.bytes.now };

    fn size(&mut self) -> io::Result<u64> {
        Ok(self.bytes.len() as u64)
    }

    fn read_some_at(&self, buf: &mut [u8], offset: u64) -> io::Result<usize> {
        let start = usize::try_from(offset)
            .unwrap_or(usize::MAX)
            .min(self.bytes.len());
        let count = buf.len().min(self.bytes.len() - start).min(2);
        buf[..count].copy_from_slice(&self.bytes[start..start + count]);
        Ok(count)
    }
}

#[test]
fn gives_all_that_is_asked_of_parts(rt: HostRuntime) {
    let mut device = FromFile::new(InPairs { bytes: b"abcdefg" });
    expect_eq(&rt, &device.len(), &Ok(7));
    let mut buf = [0; 5];
    for (offset, count, given) in [
        (0, 5, b"abcde"),
        (1, 5, b"bcdef"),
        (4, 3, b"efgef"),
        (7, 0, b"efgef"),
    ] {
        expect_eq(&rt, &device.read_at(offset, &mut buf), &Ok(count));
        expect_bytes(&rt, &buf, given);
    }
    expect_eq(&rt, &device.read_at(u64::MAX, &mut buf), &Ok(0));
    expect_eq(&rt, &device.read_at(u64::MAX, &mut []), &Ok(0));
}
