//! Laws of the verdict. Each is the contract of a function that does nothing: to call it is to know
//! the law, and to prove the crate is to prove it.
ghost use Rattle.prolly_check.specs.Verdict.{OneVerdict, AcceptsFiles};

/// Bytes have one verdict. What is accepted is the file of a map, and such a file of fewer than
/// 2^64 bytes is accepted.
pub fn files_are_accepted()
    ensures one { OneVerdict }
    ensures accepted { AcceptsFiles }
{}
