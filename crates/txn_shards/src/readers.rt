//! What the shards say of their transactions.
ghost use Rattle.std.specs.Prelude.{◌≡◌, ◌++◌, ◌<◌, false, slice_get, IfOk, OnOk};
ghost use Rattle.std.specs.Option.{option_copied};
ghost use Rattle.upi_words.specs.Prelude.{Setup, History, Legal, is_closed, outcome_of};
ghost use Rattle.upi_model.specs.DueList.{due_list};
ghost use Rattle.txn_shards.specs.Txns.{StandTxns, Appends, all_return, entries_in, returns_of, row_in, rows_all};

use crate::txns::TxnShards;
use txn_row::Row;
use upi_base::{NoMemory, Outcome, Sent, TxnId, txn_shard};
use vpa_directory::Directory;

impl TxnShards {
    /// The outcome of a transaction, if there is one: after a Close where `closed` says so.
    pub fn outcome(&self, txn: &TxnId, closed: bool) -> Option<Outcome>
        ensures { (S : Setup) (h : History) → is_closed h ≡ closed → StandTxns S (entries_in h) (rows_all self.now) → result ≡ outcome_of S txn.now h }
    {
        let place = txn_shard(txn) as usize;
        let shard = &self.shards[place];
        if closed {
            shard.closed_outcome(txn)
        } else {
            shard.outcome(txn)
        }
    }

    /// The row of a transaction, if it was opened.
    pub fn find(&self, txn: &TxnId) -> Option<&Row>
        ensures { option_copied result ≡ row_in (rows_all self.now) txn.now }
    {
        let place = txn_shard(txn) as usize;
        let shard = &self.shards[place];
        shard.find(txn)
    }

    // Appends the reversals that a Close would make arrive of the shard at a place.
    fn returns_at(&self, dir: &Directory, place: usize, out: &mut Vec<Sent>) -> Result<(), NoMemory>
        requires { place < 16 }
        ensures { OnOk result (out.new.items ≡ out.old.items ++ returns_of dir.now.lines (slice_get (rows_all self.now) place)) }
    {
        let shard = &self.shards[place];
        let mut some = shard.at_close(dir)?;
        out.append(&mut some)?;
        Ok(())
    }

    /// The orders for the reversals that a Close makes arrive, shard after shard, in each in the order
    /// of the openings. It fails only for want of memory.
    pub fn at_close(&self, dir: &Directory) -> Result<Vec<Sent>, NoMemory>
        ensures { IfOk result (λ v. v.items ≡ all_return dir.now.lines (rows_all self.now)) }
    {
        let mut out = Vec::new(self.alloc);
        for place in 0..16 {
            self.returns_at(dir, place, &mut out)?;
        }
        Ok(out)
    }

    // Appends what is due of the shard at a place.
    fn due_at(&self, now: u64, place: usize, out: &mut Vec<(u64, TxnId)>) -> Result<(), NoMemory>
        requires { place < 16 }
        ensures { OnOk result (Appends now (rows_all self.now) place out.old.items out.new.items) }
    {
        let shard = &self.shards[place];
        let mut some = shard.due(now)?;
        out.append(&mut some)?;
        Ok(())
    }

    /// The transactions whose due moment isn't after this one, with their due moments: by these, then
    /// by the bytes of their names. Before a Close only. It fails only for want of memory.
    pub fn due(&self, now: u64) -> Result<Vec<(u64, TxnId)>, NoMemory>
        ensures { IfOk result (λ v. (S : Setup) (h : History) → Legal S h → is_closed h ≡ false → StandTxns S (entries_in h) (rows_all self.now) → v.items ≡ due_list S h now) }
    {
        let mut out = Vec::new(self.alloc);
        for place in 0..16 {
            self.due_at(now, place, &mut out)?;
        }
        out.sort_unstable();
        Ok(out)
    }
}
