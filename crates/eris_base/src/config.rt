ghost use Rattle.std.specs.Prelude.{◌≡◌, IfOk, IfErr, Some};
ghost use Rattle.eris_base.specs.Configs.{config_fault};

use std::marker::Model;
use thiserror::Error;

/// The sizes of a system, kept in their limits: 1 to 64 shards, 0 to 3 faults that each shard outlives,
/// and 1 to 128 clients.
#[derive(Clone, Copy, Debug, PartialEq, Eq)]
pub struct Config {
    shards: u8,
    f: u8,
    clients: u8,
}

/// Why three numbers are no config.
#[derive(Clone, Copy, Debug, PartialEq, Eq, Error)]
pub enum ConfigFault {
    #[error("the number of shards is not 1 to 64")]
    Shards,
    #[error("the number of faults is above 3")]
    Faults,
    #[error("the number of clients is not 1 to 128")]
    Clients,
}

impl Model for Config {
    ghost use Rattle.eris_base.specs.ConfigLimits.{ConfigValue, IsConfig};

    ghost Value = { ConfigValue };

    ghost view = { λ c. record { shards = c.shards; f = c.f; clients = c.clients } };

    ghost invariant = { λ c. IsConfig (record { shards = c.shards; f = c.f; clients = c.clients }) };

    ghost inverse = { λ c. record { shards = c.shards; f = c.f; clients = c.clients } };
}

impl Config {
    ghost use Rattle.eris_base.specs.ConfigLimits.{IsConfig};

    /// The config of these sizes; else the first of them that is out of its limits. It takes no memory.
    ///
    /// # Errors
    ///
    /// `Shards` exactly where `shards` isn't 1 to 64, else `Faults` exactly where `f` is above 3, else
    /// `Clients` exactly where `clients` isn't 1 to 128.
    pub fn new(shards: u8, f: u8, clients: u8) -> Result<Config, ConfigFault>
        ensures ok { IfOk result (λ c. (c ≡ record { shards = shards; f = f; clients = clients }) × IsConfig c) }
        ensures err { IfErr result (λ fault. config_fault shards f clients ≡ Some fault) }
    {
        if shards < 1 || shards > 64 {
            return Err(ConfigFault::Shards);
        }
        if f > 3 {
            return Err(ConfigFault::Faults);
        }
        if clients < 1 || clients > 128 {
            return Err(ConfigFault::Clients);
        }
        Ok(Config { shards, f, clients })
    }

    /// How many shards there are, 1 to 64. It takes no memory.
    pub fn shards(&self) -> u8
        ensures exact { result ≡ self.now.shards }
        ensures fits { IsConfig self.now }
    {
        self.shards
    }

    /// How many faults each shard of 2f+1 replicas outlives, 0 to 3. It takes no memory.
    pub fn f(&self) -> u8
        ensures exact { result ≡ self.now.f }
        ensures fits { IsConfig self.now }
    {
        self.f
    }

    /// How many clients there are, 1 to 128. It takes no memory.
    pub fn clients(&self) -> u8
        ensures exact { result ≡ self.now.clients }
        ensures fits { IsConfig self.now }
    {
        self.clients
    }
}
