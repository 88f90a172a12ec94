//! Files that are checked while they are read, by their root.
ghost use Rattle.std.specs.Prelude.{◌<◌};

use super::damaged::FAULTS;
use super::{FILE_OF_NONE, checked, file_cut_by, file_of_three, put};
use crate::expect::expect_eq;
use prolly_check::{CheckFault, OneThread, RootReport, StreamFault, check_by_root};
use prolly_entry::{Ref, Version};
use prolly_io::{FromRead, ScriptSource};
use prolly_look_up::ManyThreads;
use prolly_test_parts::{flip, pairs_of};
use std::alloc::{AllocError, Global};
use std::num::NonZeroUsize;
use std::process::Abort;
use std::test::Fail;
use std::thread::Threads;

/// A file, its version, and the root by which it is checked.
#[derive(Drop)]
struct Named {
    file: Vec<u8>,
    version: Version,
    root: Ref,
}

impl Named {
    /// A lawful file, whose root `check` gives.
    fn of(alloc: Global, file: Vec<u8>, version: Version) -> Result<Named, Fail> {
        let root = checked(alloc, &file)?.root();
        Ok(Named {
            file,
            version,
            root,
        })
    }

    /// The file of a=1, b=1 and c=1, of 0 bits.
    fn of_three(alloc: Global, version: Version) -> Result<Named, Fail> {
        Named::of(alloc, file_of_three(alloc, version)?, version)
    }

    /// What is said of these bytes in place of the file.
    fn answer_to(&self, alloc: Global, bytes: &[u8]) -> Result<RootReport, StreamFault> {
        let mut source = FromRead::new(bytes);
        check_by_root(&OneThread, alloc, &mut source, self.version, &self.root)
    }

    /// What is said of the file.
    fn checked(&self, alloc: Global) -> Result<RootReport, StreamFault> {
        self.answer_to(alloc, &self.file)
    }

    /// What is said of the file where a read gives so many bytes, and the read of this number fails.
    fn checked_in_parts(
        &self,
        alloc: Global,
        step: usize,
        fail_at: Option<u64>,
    ) -> Result<Result<RootReport, StreamFault>, AllocError>
        requires { 0 < step }
    {
        let mut source = ScriptSource::new(self.file.to_vec(alloc)?, step, fail_at);
        let (version, root) = (self.version, &self.root);
        Ok(check_by_root(&OneThread, alloc, &mut source, version, root))
    }

    /// Fails unless the same is said of the file wherever the reads cut it.
    fn expect_same_in_parts(&self, rt: &impl Abort, alloc: Global) -> Result<(), AllocError> {
        let whole = self.checked(alloc);
        for last in 0..self.file.len() {
            let answer = (last, self.checked_in_parts(alloc, last + 1, None)?);
            expect_eq(rt, &answer, &(last, whole));
        }
        Ok(())
    }

    /// What so many threads say of the file.
    fn checked_by<T: Threads + Sync>(
        &self,
        threads: &T,
        count: NonZeroUsize,
        alloc: Global,
    ) -> Result<RootReport, StreamFault> {
        let hasher = ManyThreads::new(threads, count);
        let mut source = FromRead::new(self.file.as_slice());
        check_by_root(&hasher, alloc, &mut source, self.version, &self.root)
    }

    /// Fails unless the file is refused for this fault.
    fn expect_refused(&self, rt: &impl Abort, alloc: Global, place: usize, fault: StreamFault) {
        let answer = (place, self.checked(alloc));
        expect_eq(rt, &answer, &(place, Err(fault)));
    }

    /// Fails unless the file is refused where it ends early.
    fn expect_refused_parts(&self, rt: &impl Abort, alloc: Global) {
        for len in 0..self.file.len() {
            let answer = (len, self.answer_to(alloc, &self.file[..len]));
            let truncated = StreamFault::Check(CheckFault::Truncated);
            expect_eq(rt, &answer, &(len, Err(truncated)));
        }
    }

    /// Fails unless the file is refused with the highest bit of any byte flipped.
    fn expect_refused_where_flipped(&mut self, rt: &impl Abort, alloc: Global) {
        for place in 0..self.file.len() {
            flip(&mut self.file, place);
            let answer = self.checked(alloc);
            assert!(rt; answer.is_err(), "at {place}");
            flip(&mut self.file, place);
        }
    }
}

/// A place whose flipped bit makes a frame longer: the chunk in it comes before the frame behind it.
const FRAME_LENGTH: usize = 14;

/// What is wrong with the file of three by its root, once the highest bit of a place is flipped.
fn fault_by_root(place: usize, fault: CheckFault) -> CheckFault {
    if place == FRAME_LENGTH {
        return CheckFault::BadChunk { chunk: 0 };
    }
    fault
}

#[test]
fn names_the_first_fault_in_the_order_of_the_bytes(rt: HostRuntime) -> Result<(), Fail> {
    let mut named = Named::of_three(rt.alloc(), Version::One)?;
    for &(place, fault) in &FAULTS {
        let fault = StreamFault::Check(fault_by_root(place, fault));
        flip(&mut named.file, place);
        named.expect_refused(&rt, rt.alloc(), place, fault);
        named.expect_same_in_parts(&rt, rt.alloc())?;
        flip(&mut named.file, place);
    }
    Ok(())
}

#[test]
fn tells_each_read_that_fails(rt: HostRuntime) -> Result<(), Fail> {
    let named = Named::of_three(rt.alloc(), Version::Two)?;
    // Five reads give bytes, and the sixth tells that there are no more.
    for number in 1..7 {
        let answer = named.checked_in_parts(rt.alloc(), 64, Some(number))?;
        let read = StreamFault::Check(CheckFault::Read);
        expect_eq(&rt, &(number, answer), &(number, Err(read)));
    }
    Ok(())
}

#[test]
fn refuses_by_the_root_whatever_is_damaged(rt: HostRuntime) -> Result<(), Fail> {
    for version in [Version::One, Version::Two] {
        let mut named = Named::of_three(rt.alloc(), version)?;
        named.expect_refused_where_flipped(&rt, rt.alloc());
        named.expect_refused_parts(&rt, rt.alloc());
    }
    Ok(())
}

#[test]
fn refuses_another_end_by_the_root(rt: HostRuntime) -> Result<(), Fail> {
    let mut named = Named::of_three(rt.alloc(), Version::One)?;
    // One chunk more than there are.
    put(&mut named.file, 233, 7);
    named.expect_refused(&rt, rt.alloc(), 233, StreamFault::Check(CheckFault::BadEnd));
    put(&mut named.file, 233, 6);
    named.file.push(0)?;
    let trailing = StreamFault::Check(CheckFault::Trailing);
    named.expect_refused(&rt, rt.alloc(), 234, trailing);
    Ok(())
}

#[test]
fn refuses_a_lawful_file_of_another_root_or_version(rt: HostRuntime) -> Result<(), Fail> {
    let mut named = Named::of_three(rt.alloc(), Version::One)?;
    named.root = Ref([0; 20]);
    named.expect_refused(&rt, rt.alloc(), 0, StreamFault::OtherRoot);
    named.version = Version::Two;
    named.expect_refused(&rt, rt.alloc(), 0, StreamFault::Version);
    Ok(())
}

/// Fails unless one thread, and two, three and sixteen, accept a file, with its bits and as many
/// chunks as `check` counts.
fn expect_accepted<T: Threads + Sync>(
    rt: &impl Abort,
    threads: &T,
    alloc: Global,
    bits: u8,
    named: &Named,
) -> Result<(), Fail> {
    let chunks = checked(alloc, &named.file)?.chunks();
    let report = Ok(RootReport { bits, chunks });
    expect_eq(rt, &named.checked(alloc), &report);
    for count in [1, 2, 3, 16] {
        if let Some(count) = NonZeroUsize::new(count) {
            expect_eq(rt, &named.checked_by(threads, count, alloc), &report);
        }
    }
    Ok(())
}

#[test]
fn accepts_the_file_of_a_root(rt: HostRuntime) -> Result<(), Fail> {
    let alloc = rt.alloc();
    let none = Named::of(alloc, FILE_OF_NONE.to_vec(alloc)?, Version::One)?;
    expect_accepted(&rt, &rt, alloc, 0, &none)?;
    let keys: [&[u8]; 6] = [b"a", b"b", b"c", b"d", b"e", b"f"];
    let pairs = pairs_of(alloc, &keys)?;
    for bits in [0, 1, 2, 24] {
        for version in [Version::One, Version::Two] {
            let file = file_cut_by(alloc, bits, version, &pairs)?;
            let named = Named::of(alloc, file, version)?;
            expect_accepted(&rt, &rt, alloc, bits, &named)?;
        }
    }
    Ok(())
}
