//! References and their texts.
use crate::expect::expect_eq;
use prolly_entry::Ref;

/// What a message hashes to, by another program, and the text of that.
const ABC: [u8; 20] = [
    0xdd, 0xaf, 0x35, 0xa1, 0x93, 0x61, 0x7a, 0xba, 0xcc, 0x41, 0x73, 0x49, 0xae, 0x20, 0x41, 0x31,
    0x12, 0xe6, 0xfa, 0x4e,
];

const ABC_TEXT: &[u8; 32] = b"rmnjb8cjc5tblj21ed4qs821649eduie";

/// Messages, and the texts of what they hash to.
const TEXTS: [(&[u8], &[u8; 32]); 3] = [
    (b"abc", ABC_TEXT),
    (b"", b"pu1u2dbutusbrsak518dcrc00vb21p05"),
    (b"\0", b"n0i4q0k9g7b97brr8llfhrt4pbb3qa1e"),
];

#[test]
fn references_have_their_text(rt: HostRuntime) {
    expect_eq(&rt, &Ref::of(b"abc"), &Ref(ABC));
    for (message, text) in &TEXTS {
        expect_eq(&rt, &Ref::of(message).to_text(), *text);
    }
}

#[test]
fn only_the_text_of_a_reference_is_read(rt: HostRuntime) {
    expect_eq(&rt, &Ref::from_text(ABC_TEXT), &Some(Ref(ABC)));
    for text in [
        &ABC_TEXT[..31],
        b"wmnjb8cjc5tblj21ed4qs821649eduie",
        b"Rmnjb8cjc5tblj21ed4qs821649eduie",
    ] {
        expect_eq(&rt, &Ref::from_text(text), &None);
    }
}
