//! Boundaries, as they follow from printed digests.
use crate::expect::expect_eq;
use prolly_entry::{Cut, KeyCut, Sha512Cut};
use sha2::{Digest, Sha512};
use std::alloc::{AllocError, Global};
use std::process::Abort;
use std::test::Fail;

/// Messages with their digests, as FIPS 180-4's examples and other tools print them.
const DIGESTS: [(&[u8], &str); 3] = [
    (
        b"",
        "cf83e1357eefb8bdf1542850d66d8007d620e4050b5715dc83f4a921d36ce9ce\
         47d0d13c5d85f2b0ff8318d2877eec2f63b931bd47417a81a538327af927da3e",
    ),
    (
        b"abc",
        "ddaf35a193617abacc417349ae20413112e6fa4e89a97ea20a9eeee64b55d39a\
         2192992a274fc1a836ba3c23a3feebbd454d4423643ce80e2a9ac94fa54ca49f",
    ),
    (
        b"\0",
        "b8244d028981d693af7b456af8efa4cad63d282e19ff14942c246e50d9351d22\
         704a802a71c3580b6370de4ceb293c324a8423342557d4e5c38438f0e36910ee",
    ),
];

/// Fails unless a message has this digest.
fn expect_digest(
    rt: &impl Abort,
    alloc: Global,
    message: &[u8],
    digest: &str,
) -> Result<(), AllocError> {
    let text = hex::encode(alloc, Sha512::digest(message).as_slice())?;
    expect_eq(rt, &text.as_str(), &digest);
    Ok(())
}

#[test]
fn sha512_is_the_standard(rt: HostRuntime) -> Result<(), Fail> {
    for (message, digest) in &DIGESTS {
        expect_digest(&rt, rt.alloc(), message, digest)?;
    }
    Ok(())
}

/// Entries, and whether they are boundaries at so many bits.
const BOUNDARIES: [(&[u8], u8, bool); 5] = [
    (b"abc", 0, true),
    (b"abc", 1, true),
    (b"abc", 2, false),
    (b"", 2, true),
    (b"", 3, false),
];

#[test]
fn boundaries_are_multiples(rt: HostRuntime) -> Result<(), Fail> {
    for case in &BOUNDARIES {
        let (entry, bits, _) = *case;
        let cut = Sha512Cut::new(bits).ok_or("bits")?;
        expect_eq(&rt, &(entry, cut.bits(), cut.is_boundary(entry)), case);
    }
    expect_eq(&rt, &Sha512Cut::new(25).is_none(), &true);
    Ok(())
}

#[test]
fn key_cut_looks_at_the_keys_last_byte(rt: HostRuntime) {
    expect_eq(&rt, &KeyCut.bits(), &255);
    assert!(rt; KeyCut.is_boundary(b"\0\x02b!\0\0\0\x011"));
    assert!(rt; !KeyCut.is_boundary(b"\0\x01a\0\0\0\x01!"));
    assert!(rt; !KeyCut.is_boundary(b"\0\x00!"));
    assert!(rt; !KeyCut.is_boundary(b"\0\x03b!"));
}
