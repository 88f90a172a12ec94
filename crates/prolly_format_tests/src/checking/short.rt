//! Bytes that end in the header or in the first frame.

use super::expect_fault;
use prolly_check::CheckFault;

const FAULTS: [(&[u8], CheckFault); 7] = [
    (b"", CheckFault::Truncated),
    (b"PQ", CheckFault::BadHeader),
    (b"PRLY\x02\0", CheckFault::Truncated),
    (b"PRLY\x03\0", CheckFault::BadHeader),
    (b"PRLY\x01\0D", CheckFault::BadFrame { chunk: 0 }),
    (
        b"PRLY\x01\0C\xFF\xFF\xFF\xFF\xFF\xFF\xFF\xFF",
        CheckFault::Truncated,
    ),
    (
        b"PRLY\x01\0E\0\0\0\0\0\0\0\0\0\0\0\0\0\0\0\0\0\0\0\0\0\0\0\0\0\0\0\0",
        CheckFault::NotCanonical { chunk: 0 },
    ),
];

#[test]
fn names_the_fault_of_short_bytes(rt: HostRuntime) {
    for (bytes, fault) in &FAULTS {
        expect_fault(&rt, rt.alloc(), bytes, *fault);
    }
}
