//! Sources none of whose reads fails.
ghost use Rattle.std.specs.Prelude.{◌≢◌, ℕ, IfErr};
ghost use Rattle.prolly_link.specs.declared.fault.RunFault.TheVariants.{Read};

use super::faults::OUT_OF_ORDER;
use super::*;
use crate::expect::expect_eq;
use prolly_build::laws::failed_reads_are_true;
use prolly_test_parts::Zeros;

/// Builds from files of zeros without an end, of which no read fails.
fn built_of_zeros<R: Wait + Threads + Sync>(
    rt: &R,
    alloc: Global,
    config: &Config,
    files: &mut Vec<Zeros>,
    sink: &mut ScriptSink,
) -> Result<Report, RunFault>
    ensures { IfErr result (λ fault. (file : ℕ) → fault ≢ Read file) }
{
    // By this law no read is told to have failed.
    failed_reads_are_true::<Zeros, ScriptSink>();
    build(rt, alloc, config, files, sink, &OpenGate)
}

#[test]
fn zeros_are_records_out_of_order(rt: HostRuntime) -> Result<(), Fail> {
    let alloc = rt.alloc();
    let config = settings(12)?;
    let mut files = Vec::new(alloc);
    files.push(Zeros)?;
    files.push(Zeros)?;
    let mut sink = open_sink(alloc);
    let made = built_of_zeros(&rt, alloc, &config, &mut files, &mut sink);
    expect_eq(&rt, &made.err(), &OUT_OF_ORDER);
    Ok(())
}
