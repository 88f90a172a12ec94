//! What a link between two threads costs.
ghost use Rattle.std.specs.Prelude.{◌≤◌};

use anyhow::{Result, bail};
use prolly_link::{End, In, Next, Out, batch_link, link};
use std::alloc::Global;
use std::io::Print;
use std::sync::Wait;
use std::thread;
use std::thread::Threads;
use std::time::{Clock, Instant};

/// How many messages a link holds.
const CAPACITY: usize = 64;

/// Times so many items over a plain link.
pub fn time_link<R: Print + Clock + Threads + Wait + Copy + Send + 'static>(
    rt: R,
    alloc: Global,
    count: u32,
) -> Result<()> {
    let Ok((sender, receiver)) = link::<u64>(alloc, CAPACITY) else {
        bail!("out of memory");
    };
    let (nanos, sum) = time_across(rt, sender, receiver, count)?;
    println!(&rt; "link: {nanos} ns an item, {count} items, sum {sum}")?;
    Ok(())
}

/// Times so many items over a link in batches.
pub fn time_batches<R: Print + Clock + Threads + Wait + Copy + Send + 'static>(
    rt: R,
    alloc: Global,
    count: u32,
    batch: usize,
) -> Result<()>
    requires { (1 ≤ batch) × (batch ≤ 1024) }
{
    let Ok((sender, receiver)) = batch_link::<u64>(alloc, CAPACITY, batch) else {
        bail!("out of memory");
    };
    let (nanos, sum) = time_across(rt, sender, receiver, count)?;
    println!(&rt; "batches of {batch}: {nanos} ns an item, {count} items, sum {sum}")?;
    Ok(())
}

/// Sends so many numbers from another thread to this one. Gives the time that one took, in
/// nanoseconds, and the sum of all.
fn time_across<
    O: Out<u64> + Send + Drop + 'static,
    I: In<u64> + Drop,
    R: Clock + Threads + Wait + Copy + Send + 'static,
>(rt: R, sender: O, mut receiver: I, count: u32) -> Result<(u128, u64)>
where
    O::Closed: Send + Drop + 'static,
{
    let start = Instant::now(&rt)?;
    let Ok(child) = thread::spawn(&rt, move || send_all(&rt, sender, count)) else {
        bail!("no thread");
    };
    let sum = receive_all(&rt, &mut receiver);
    let _closed = child.join(&rt);
    let nanos = start.elapsed(&rt)?.as_nanos() / u128::from(count.max(1));
    Ok((nanos, sum))
}

fn send_all<O: Out<u64>, R: Wait>(rt: &R, mut out: O, count: u32) -> O::Closed {
    for number in 0..count {
        let _ = out.send(rt, u64::from(number));
    }
    out.close(rt, End::Clean)
}

fn receive_all<I: In<u64>, R: Wait>(rt: &R, input: &mut I) -> u64 {
    let mut sum = 0u64;
    for _ in rt.forever() {
        match input.recv(rt) {
            Next::Item(number) => sum = sum.wrapping_add(number),
            Next::End(_) | Next::Lost => return sum,
        }
    }
    sum
}
