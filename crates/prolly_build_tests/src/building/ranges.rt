//! The ranges of the settings of a build.
use crate::expect::expect_eq;
use prolly_build::{Config, ConfigFault};
use std::process::Abort;

/// Fails unless the settings are refused for this fault, or taken.
fn expect_config(rt: &impl Abort, config: Result<Config, ConfigFault>, fault: Option<ConfigFault>) {
    expect_eq(rt, &config.err(), &fault);
}

/// The bits of a boundary, the stages, the capacity of the links, the limit of records, and the
/// fault.
const NUMBERS: [(u8, u8, u32, u32, Option<ConfigFault>); 5] = [
    (25, 0, 0, 0, Some(ConfigFault::BadBits)),
    (24, 13, 1, 1, Some(ConfigFault::BadStages)),
    (0, 1, 4_097, 1, Some(ConfigFault::BadCapacity)),
    (0, 1, 1, 0, Some(ConfigFault::BadMaxRecords)),
    (0, 12, 4_096, 16_777_216, None),
];

#[test]
fn numbers_have_ranges(rt: HostRuntime) {
    for &(bits, stages, capacity, max_records, fault) in &NUMBERS {
        expect_config(&rt, Config::new(bits, stages, capacity, max_records), fault);
    }
}

#[test]
fn batches_and_versions_have_ranges(rt: HostRuntime) {
    let Ok(config) = Config::new(0, 1, 1, 1) else {
        return;
    };
    let bad_batch = Some(ConfigFault::BadBatch);
    expect_config(&rt, config.with_batch(0), bad_batch);
    expect_config(&rt, config.with_batch(1_025), bad_batch);
    expect_config(&rt, config.with_batch(1_024), None);
    expect_config(&rt, config.with_version(3), Some(ConfigFault::BadVersion));
    expect_config(&rt, config.with_version(2), None);
}
