//! Entries, as they are spelled.
use crate::expect::expect_bytes;
use prolly_entry::{
    Pair, Record, Ref, Version, append_child, append_child_as, append_pair, append_record,
};
use std::alloc::AllocError;
use std::process::Abort;
use std::test::Fail;

const REFERENCE: Ref = Ref([
    0xDD, 0xAF, 0x35, 0xA1, 0x93, 0x61, 0x7A, 0xBA, 0xCC, 0x41, 0x73, 0x49, 0xAE, 0x20, 0x41, 0x31,
    0x12, 0xE6, 0xFA, 0x4E,
]);

#[test]
fn appends_a_pair(rt: HostRuntime) -> Result<(), Fail> {
    let mut out = [0].to_vec(rt.alloc())?;
    append_pair(&mut out, &Pair::copy_of(rt.alloc(), b"a", b"1")?)?;
    expect_bytes(&rt, &out, b"\0\0\x01a\0\0\0\x011");
    Ok(())
}

/// Fails unless the bytes are these once a record is appended to them.
fn expect_appended(
    rt: &impl Abort,
    out: &mut Vec<u8>,
    record: Record,
    bytes: &[u8],
) -> Result<(), AllocError> {
    append_record(out, &record)?;
    expect_bytes(rt, out, bytes);
    Ok(())
}

#[test]
fn appends_records(rt: HostRuntime) -> Result<(), Fail> {
    let alloc = rt.alloc();
    let mut out = Vec::new(alloc);
    let removal = Record::removal_of(alloc, b"a")?;
    expect_appended(&rt, &mut out, removal, b"\0\x01a\xFF\xFF\xFF\xFF")?;
    let put = Record::put(Pair::copy_of(alloc, b"", b"")?);
    let both = b"\0\x01a\xFF\xFF\xFF\xFF\0\0\0\0\0\0";
    expect_appended(&rt, &mut out, put, both)?;
    Ok(())
}

#[test]
fn appends_child_entries(rt: HostRuntime) -> Result<(), Fail> {
    let mut out = Vec::new(rt.alloc());
    append_child(&mut out, b"a", &REFERENCE)?;
    assert!(rt; out.len() == 23);
    expect_bytes(&rt, &out[..3], b"\0\x01a");
    expect_bytes(&rt, &out[3..], &REFERENCE.0);
    append_child_as(&mut out, Version::Two, b"a", &REFERENCE, 1)?;
    assert!(rt; out.len() == 54);
    expect_bytes(&rt, &out[46..], b"\0\0\0\0\0\0\0\x01");
    Ok(())
}
