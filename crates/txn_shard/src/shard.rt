//! The shard: its rows by name, and when each is due.
ghost use Rattle.std.specs.Prelude.{◌≡◌, ◌≤◌, [], length, IsOk, OnOk};

use expiry_clock::DueIndex;
use indexmap::IndexMap;
use std::alloc::Global;
use std::hash::RandomState;
use std::marker::Model;
use txn_row::Row;
use upi_base::{NoMemory, TxnId};

/// A shard of transactions. Contracts see its rows in the order of their openings, and how many more
/// there is room for.
#[derive(Drop)]
pub struct TxnShard {
    pub(crate) alloc: Global,
    pub(crate) rows: IndexMap<TxnId, Row, RandomState>,
    pub(crate) dues: DueIndex,
}

impl Model for TxnShard {
    ghost use Rattle.std.specs.Prelude.{min};
    ghost use Rattle.std.specs.Map.{values_of};
    ghost use Rattle.indexmap.specs.IndexMap.{spare};
    ghost use Rattle.txn_shard.specs.Rows.{Shard, IsKept};

    ghost Value = { Shard };

    ghost view = { λ s. record { rows = values_of s.rows.entries; spare = min (spare s.rows) s.dues.spare } };

    ghost invariant = { λ s. IsKept s.rows.entries s.dues };
}

impl TxnShard {
    /// A shard with no transaction. It takes no memory.
    ///
    /// Transactions are hashed with `rows` and `dues`, so whoever chooses their names can't choose
    /// them to collide.
    pub fn new(alloc: Global, rows: RandomState, dues: RandomState) -> TxnShard
        ensures { result.rows ≡ [] }
    {
        TxnShard {
            alloc,
            rows: IndexMap::with_hasher(alloc, rows),
            dues: DueIndex::new(alloc, dues),
        }
    }

    /// Makes room for `n` transactions more. It fails only for want of memory; the rows stay either
    /// way.
    pub fn reserve(&mut self, n: usize) -> Result<(), NoMemory>
        ensures ok { OnOk result (n ≤ self.new.spare) }
        ensures ready { n ≤ self.old.spare → IsOk result }
        ensures rows { self.new.rows ≡ self.old.rows }
        ensures room { self.old.spare ≤ self.new.spare }
    {
        self.rows.reserve(n)?;
        self.dues.reserve(n)
    }

    /// How many transactions more there is room for.
    pub fn spare(&self) -> usize
        ensures { result ≡ self.now.spare }
    {
        let spare = self.rows.capacity() - self.rows.len();
        spare.min(self.dues.spare())
    }

    /// How many transactions were opened.
    pub fn len(&self) -> usize
        ensures { result ≡ length self.now.rows }
    {
        self.rows.len()
    }
}
