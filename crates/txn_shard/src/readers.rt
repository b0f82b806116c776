//! What a shard says of its transactions.
ghost use Rattle.std.specs.Prelude.{◌≡◌, slice_get, IfOk};
ghost use Rattle.std.specs.Option.{option_copied};
ghost use Rattle.txn_shard.specs.Rows.{row_at, outcome_at, closed_outcome_at, due_at, IsDueOf};

use crate::shard::TxnShard;
use txn_row::Row;
use upi_base::{NoMemory, Outcome, TxnId};

impl TxnShard {
    /// The row of a transaction, if it was opened here.
    pub fn find(&self, txn: &TxnId) -> Option<&Row>
        ensures { option_copied result ≡ row_at self.now.rows txn.now }
    {
        self.rows.get(txn)
    }

    /// The row that opened at a place, the first at 0, if there are so many.
    pub fn row(&self, place: usize) -> Option<&Row>
        ensures { option_copied result ≡ slice_get self.now.rows place }
    {
        match self.rows.get_index(place) {
            Some((_txn, row)) => Some(row),
            None => None,
        }
    }

    /// The outcome of a transaction, if there is one.
    pub fn outcome(&self, txn: &TxnId) -> Option<Outcome>
        ensures { result ≡ outcome_at self.now.rows txn.now }
    {
        match self.find(txn) {
            Some(row) => row.outcome(),
            None => None,
        }
    }

    /// The outcome of a transaction after a Close, if it was opened.
    pub fn closed_outcome(&self, txn: &TxnId) -> Option<Outcome>
        ensures { result ≡ closed_outcome_at self.now.rows txn.now }
    {
        match self.find(txn) {
            Some(row) => row.closed_outcome(),
            None => None,
        }
    }

    /// When a transaction is due, in seconds, if it is.
    pub fn due_moment(&self, txn: &TxnId) -> Option<u64>
        ensures { result ≡ due_at self.now.rows txn.now }
    {
        self.dues.get(txn)
    }

    /// The transactions that are due at a moment, with their due moments: by the moment, then by the
    /// bytes of the name. It fails only for want of memory.
    pub fn due(&self, now: u64) -> Result<Vec<(u64, TxnId)>, NoMemory>
        ensures { IfOk result (λ found. IsDueOf now self.now.rows found.items) }
    {
        self.dues.due(now)
    }
}
