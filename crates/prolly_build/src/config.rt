//! What a build is set to.
ghost use Rattle.std.specs.Prelude.{◌≡◌, ◌≢◌, ◌<◌, ◌≤◌, ◌-◌, IfOk, IfErr};
ghost use Rattle.prolly_entry.specs.Version.{version_byte};
ghost use Rattle.prolly_build.specs.Config.{AreLawful, first_settings, IsOutside, IsConfigFault};
ghost use Rattle.prolly_build.specs.declared.config.ConfigFault.TheVariants.{BadBatch, BadVersion};

use prolly_entry::{Sha512Cut, Version};
use std::marker::Model;
use thiserror::Error;

/// Which number is outside its range.
#[derive(Clone, Copy, Debug, PartialEq, Eq, Error)]
pub enum ConfigFault {
    /// Bits are 0 to 24.
    #[error("bits are 0 to 24")]
    BadBits,
    /// Stages are 1 to 12.
    #[error("stages are 1 to 12")]
    BadStages,
    /// A capacity is 1 to 4,096.
    #[error("a capacity is 1 to 4,096")]
    BadCapacity,
    /// The records of a file are at most 1 to 16,777,216.
    #[error("the records of a file are at most 1 to 16,777,216")]
    BadMaxRecords,
    /// A batch is 1 to 1,024.
    #[error("a batch is 1 to 1,024")]
    BadBatch,
    /// A version is 1 or 2.
    #[error("a version is 1 or 2")]
    BadVersion,
}

/// What a build is set to. Bits and version decide what the chunk file holds; stages and the
/// greatest number of records are limits; capacity and batch change only memory and time: a link
/// holds at most their product of items, and larger batches cost less an item.
#[derive(Clone, Copy)]
pub struct Config {
    bits: u8,
    stages: u8,
    capacity: u32,
    max_records: u32,
    batch: u32,
    version: Version,
}

impl Model for Config {
    ghost use Rattle.prolly_build.specs.Config.{Settings, AreLawful, settings_of};

    ghost Value = { Settings };

    ghost view = { λ c. settings_of c.bits c.stages c.capacity c.max_records c.batch c.version };

    ghost invariant = { λ c. AreLawful
        (settings_of c.bits c.stages c.capacity c.max_records c.batch c.version) };

    ghost inverse = { λ s. record {
      bits = s.bits;
      stages = s.stages;
      capacity = s.capacity;
      max_records = s.max_records;
      batch = s.batch;
      version = s.version;
    } };
}

impl Config {
    /// The bits of the cut (0 to 24), the greatest number of levels (1 to 12), how many messages a
    /// link holds (1 to 4,096) and how many records a file has at most (1 to 16,777,216). The first
    /// number that is outside its range is told. Each message has one item, and the version is One.
    pub fn new(bits: u8, stages: u8, capacity: u32, max_records: u32) -> Result<Config, ConfigFault>
        ensures ok { IfOk result
            (λ config. config ≡ first_settings bits stages capacity max_records) }
        ensures lawful { IfOk result AreLawful }
        ensures err { IfErr result (IsConfigFault bits stages capacity max_records) }
    {
        if bits > 24 {
            return Err(ConfigFault::BadBits);
        }
        if !(1..=12).contains(&stages) {
            return Err(ConfigFault::BadStages);
        }
        if !(1..=4_096).contains(&capacity) {
            return Err(ConfigFault::BadCapacity);
        }
        if !(1..=16_777_216).contains(&max_records) {
            return Err(ConfigFault::BadMaxRecords);
        }
        Ok(Config {
            bits,
            stages,
            capacity,
            max_records,
            batch: 1,
            version: Version::One,
        })
    }

    /// These settings with messages of at most so many items (1 to 1,024).
    pub fn with_batch(self, batch: u32) -> Result<Config, ConfigFault>
        ensures ok { IfOk result (λ config. config ≡ record self { batch = batch }) }
        ensures lawful { IfOk result AreLawful }
        ensures err { IfErr result (λ fault. (fault ≡ BadBatch) × IsOutside 1024 batch) }
    {
        if !(1..=1_024).contains(&batch) {
            return Err(ConfigFault::BadBatch);
        }
        Ok(Config { batch, ..self })
    }

    /// These settings with the version of the chunk file that a byte stands for (1 or 2).
    pub fn with_version(self, version: u8) -> Result<Config, ConfigFault>
        ensures ok { IfOk result (λ config. (config ≡ record self { version = config.version }) ×
            (version_byte config.version ≡ version)) }
        ensures lawful { IfOk result AreLawful }
        ensures err { IfErr result (λ fault. (fault ≡ BadVersion) × (version ≢ 1) × (version ≢ 2)) }
    {
        match Version::of(version) {
            Some(version) => Ok(Config { version, ..self }),
            None => Err(ConfigFault::BadVersion),
        }
    }

    /// The bits of the cut.
    pub(crate) fn bits(&self) -> u8
        ensures value { result ≡ self.now.bits }
        ensures range { self.now.bits ≤ 24 }
    {
        self.bits
    }

    /// The version of the chunk file.
    pub(crate) fn version(&self) -> Version
        ensures { result ≡ self.now.version }
    {
        self.version
    }

    /// The level of the last stage.
    pub(crate) fn last_level(&self) -> u8
        ensures value { result ≡ self.now.stages - 1 }
        ensures lawful { AreLawful self.now }
    {
        self.stages - 1
    }

    /// How many records a file has at most.
    pub(crate) fn max_records(&self) -> u32
        ensures { result ≡ self.now.max_records }
    {
        self.max_records
    }

    /// The cut of its bits.
    pub(crate) fn cut(&self) -> Sha512Cut
        ensures { result ≡ self.now.bits }
    {
        Sha512Cut::new(self.bits).unwrap()
    }

    /// How many messages a link holds.
    pub(crate) fn capacity(&self) -> usize
        ensures value { result ≡ self.now.capacity }
        ensures range { (1 ≤ result) × (result ≤ 4096) }
    {
        self.capacity as usize
    }

    /// How many items a message has at most.
    pub(crate) fn batch(&self) -> usize
        ensures value { result ≡ self.now.batch }
        ensures range { (1 ≤ result) × (result ≤ 1024) }
    {
        self.batch as usize
    }
}
