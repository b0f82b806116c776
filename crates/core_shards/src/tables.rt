//! The tables, before the first entry.
ghost use Rattle.std.specs.Prelude.{◌≡◌, [], IfOk};
ghost use Rattle.core_shards.specs.Tables.{StandsAll};

use crate::opened::Opened;
use bank_shards::BankShards;
use std::alloc::Global;
use std::hash::RandomState;
use std::marker::Model;
use txn_shards::TxnShards;
use upi_base::NoMemory;
use vpa_directory::Directory;

/// All that a switch keeps, but for its list of entries.
#[derive(Drop)]
pub struct CoreShards {
    pub(crate) alloc: Global,
    pub(crate) dir: Directory,
    pub(crate) txns: TxnShards,
    pub(crate) banks: BankShards,
    pub(crate) opened: Opened,
    pub(crate) flight: u128,
    pub(crate) closed: bool,
}

impl Model for CoreShards {
    ghost use Rattle.core_shards.specs.Tables.{Tables};

    ghost Value = { Tables };

    ghost view = { λ c. record { lines = c.dir.lines; txns = c.txns; banks = c.banks; opened = c.opened; flight = c.flight; closed = c.closed } };
}

impl CoreShards {
    /// The tables of a setup, before the first entry. Accounts and transactions are hashed with
    /// `hashes`. It fails only for want of memory.
    pub fn new(alloc: Global, hashes: RandomState, dir: Directory) -> Result<CoreShards, NoMemory>
        ensures lines { IfOk result (λ c. c.lines ≡ dir.lines) }
        ensures stands { IfOk result (λ c. StandsAll [] c) }
    {
        let _accepted = dir.setup();
        let banks = BankShards::over(alloc, hashes, &dir)?;
        let txns = TxnShards::new(alloc, hashes)?;
        Ok(CoreShards {
            alloc,
            dir,
            txns,
            banks,
            opened: Opened::new(alloc),
            flight: 0,
            closed: false,
        })
    }
}
