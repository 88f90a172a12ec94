//! Devices that follow a script.
use crate::expect::{expect_bytes, expect_eq};
use prolly_io::{Device, ScriptDevice, SourceFault};
use std::process::Abort;
use std::test::Fail;

/// Reads from each of these places into four bytes, and compares the answers and what was given.
fn expect_reads(
    rt: &impl Abort,
    device: &mut ScriptDevice,
    reads: &[(u64, Result<usize, SourceFault>, &[u8])],
) {
    for &(place, answer, given) in reads {
        let mut buf = [0; 4];
        expect_eq(rt, &device.read_at(place, &mut buf), &answer);
        expect_bytes(rt, &buf, given);
    }
}

#[test]
fn gives_bytes_from_any_place_and_fails_once(rt: HostRuntime) -> Result<(), Fail> {
    let mut device = ScriptDevice::new(b"abcdef".to_vec(rt.alloc())?, Some(3));
    expect_eq(&rt, &device.len(), &Ok(6));
    expect_reads(
        &rt,
        &mut device,
        &[
            (1, Ok(4), b"bcde"),
            (1, Err(SourceFault), b"\0\0\0\0"),
            (4, Ok(2), b"ef\0\0"),
            (0, Ok(4), b"abcd"),
            (6, Ok(0), b"\0\0\0\0"),
            (u64::MAX, Ok(0), b"\0\0\0\0"),
        ],
    );
    let mut device = ScriptDevice::new(Vec::new(rt.alloc()), Some(1));
    expect_eq(&rt, &device.len(), &Err(SourceFault));
    expect_eq(&rt, &device.len(), &Ok(0));
    Ok(())
}
