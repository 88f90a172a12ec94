//! A device that serves short reads from a block.
use crate::expect::expect_eq;
use prolly_io::{Blocks, Device, ScriptDevice, SourceFault};
use std::alloc::{AllocError, Global};
use std::process::Abort;
use std::test::Fail;

/// How many bytes the device below has: a block and a half.
const SIZE: usize = 98_304;

/// The bytes of the device below.
fn bytes(alloc: Global) -> Result<Vec<u8>, AllocError> {
    let mut bytes = Vec::new(alloc);
    for place in 0..SIZE {
        bytes.push((place % 251) as u8)?;
    }
    Ok(bytes)
}

/// A device over one whose call of this number fails, and no other.
fn blocks(alloc: Global, fail_at: u64) -> Result<Blocks<ScriptDevice>, AllocError> {
    Blocks::new(alloc, ScriptDevice::new(bytes(alloc)?, Some(fail_at)))
}

/// Asks for so many bytes from a place on, and wants the answer, and the bytes that stand there.
fn reads(
    rt: &impl Abort,
    alloc: Global,
    device: &mut Blocks<ScriptDevice>,
    place: usize,
    len: usize,
    answer: Result<usize, SourceFault>,
) -> Result<(), AllocError> {
    let mut buf = vec![in alloc; 0; len]?;
    expect_eq(rt, &device.read_at(place as u64, &mut buf), &answer);
    if let Ok(count) = answer {
        let there = bytes(alloc)?;
        let end = place.saturating_add(count);
        expect_eq(rt, &buf.get(..count), &there.get(place..end));
    }
    Ok(())
}

#[test]
fn of_near_reads_one_a_block_goes_to_the_device(rt: HostRuntime) -> Result<(), Fail> {
    // The first two reads are calls, the third one is that of a block, and the fourth call fails.
    let mut device = blocks(rt.alloc(), 4)?;
    for place in [
        0, 10, 8_212, 16_000, 24_000, 32_000, 40_000, 48_000, 56_000, 64_000, 68_000,
    ] {
        reads(&rt, rt.alloc(), &mut device, place, 10, Ok(10))?;
    }
    reads(&rt, rt.alloc(), &mut device, 73_740, 10, Err(SourceFault))?;
    // Nothing was kept of the block that could not be read.
    reads(&rt, rt.alloc(), &mut device, 73_750, 10, Ok(10))?;
    Ok(())
}

// A walk reads the first ten bytes of a frame, and then its chunk, whose first byte is the tenth.
#[test]
fn a_walk_over_frames_is_served_from_a_block(rt: HostRuntime) -> Result<(), Fail> {
    // The first two reads are calls, the third one is that of a block, and the fourth call fails.
    let mut device = blocks(rt.alloc(), 4)?;
    for frame in 0..100 {
        let start = frame * 609;
        reads(&rt, rt.alloc(), &mut device, start, 10, Ok(10))?;
        reads(&rt, rt.alloc(), &mut device, start + 9, 600, Ok(600))?;
    }
    Ok(())
}

#[test]
fn far_reads_go_to_the_device(rt: HostRuntime) -> Result<(), Fail> {
    for places in [[0, 8_203, 16_413], [50_000, 10, 20], [0, 0, 70_000]] {
        let mut device = blocks(rt.alloc(), 3)?;
        for place in &places[..2] {
            reads(&rt, rt.alloc(), &mut device, *place, 10, Ok(10))?;
        }
        reads(
            &rt,
            rt.alloc(),
            &mut device,
            places[2],
            10,
            Err(SourceFault),
        )?;
    }
    Ok(())
}

#[test]
fn a_read_longer_than_a_block_is_no_block(rt: HostRuntime) -> Result<(), Fail> {
    let mut device = blocks(rt.alloc(), 0)?;
    for place in [0, 10, 20] {
        reads(&rt, rt.alloc(), &mut device, place, 70_000, Ok(70_000))?;
    }
    Ok(())
}

#[test]
fn fewer_bytes_are_read_where_the_device_ends(rt: HostRuntime) -> Result<(), Fail> {
    let mut device = blocks(rt.alloc(), 0)?;
    for place in [98_200, 98_210, 98_220] {
        reads(&rt, rt.alloc(), &mut device, place, 10, Ok(10))?;
    }
    reads(&rt, rt.alloc(), &mut device, 98_299, 10, Ok(5))?;
    reads(&rt, rt.alloc(), &mut device, 98_304, 10, Ok(0))?;
    expect_eq(&rt, &device.len(), &Ok(SIZE as u64));
    Ok(())
}
