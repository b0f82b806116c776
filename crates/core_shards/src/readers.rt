//! What the tables say.
ghost use Rattle.std.specs.Prelude.{◌≡◌, IfOk};
ghost use Rattle.std.specs.Option.{option_copied};
ghost use Rattle.upi_words.specs.Prelude.{History, opening, outcome_of};
ghost use Rattle.upi_model.specs.DueList.{due_list};
ghost use Rattle.bank_shards.specs.Histories.{balance_named};
ghost use Rattle.core_shards.specs.Tables.{StandsAll};

use crate::tables::CoreShards;
use upi_base::{AccountRef, NoMemory, Outcome, TxnId};
use upi_model::Opening;
use vpa_directory::Directory;

impl CoreShards {
    /// The setup, with its tables.
    pub fn directory(&self) -> &Directory
        ensures { result.now.lines ≡ self.now.lines }
    {
        &self.dir
    }

    /// Whether the switch was closed.
    pub fn is_closed(&self) -> bool
        ensures { result ≡ self.now.closed }
    {
        self.closed
    }

    /// The money in flight, in paise.
    pub fn flight(&self) -> u128
        ensures { result ≡ self.now.flight }
    {
        self.flight
    }

    /// The outcome of a transaction, if it has one.
    pub fn outcome(&self, txn: &TxnId) -> Option<Outcome>
        ensures { (h : History) → StandsAll h self.now → result ≡ outcome_of self.now.lines txn.now h }
    {
        self.txns.outcome(txn, self.closed)
    }

    /// How a transaction was opened, if it was.
    pub fn opening(&self, txn: &TxnId) -> Option<&Opening>
        ensures { (h : History) → StandsAll h self.now → option_copied result ≡ opening self.now.lines txn.now h }
    {
        match self.txns.find(txn) {
            Some(row) => Some(row.opening()),
            None => None,
        }
    }

    /// What an account has, in paise; `None` exactly where the setup has no such account.
    pub fn balance(&self, ac: &AccountRef) -> Option<u64>
        ensures { (h : History) → StandsAll h self.now → result ≡ balance_named self.now.lines h ac.now }
    {
        self.banks.balance(ac)
    }

    /// The transactions whose due moment isn't after this one, with their due moments: by these, then
    /// by the bytes of their names. After a Close there is none. It fails only for want of memory.
    pub fn due(&self, now: u64) -> Result<Vec<(u64, TxnId)>, NoMemory>
        ensures { IfOk result (λ v. (h : History) → StandsAll h self.now → v.items ≡ due_list self.now.lines h now) }
    {
        if self.closed {
            return Ok(Vec::new(self.alloc));
        }
        self.txns.due(now)
    }
}
