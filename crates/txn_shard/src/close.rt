//! What a Close would make arrive.
ghost use Rattle.std.specs.Prelude.{◌≡◌, ◌++◌, slice_get, IfOk, OnOk};
ghost use Rattle.txn_shard.specs.Rows.{rows_return};
ghost use Rattle.txn_shard.specs.calls.Plans.{returned_by};

use crate::shard::TxnShard;
use upi_base::{NoMemory, Sent};
use vpa_directory::Directory;

impl TxnShard {
    // Adds the reversal that a Close would make arrive of the row at a place, if it would.
    fn return_at(&self, dir: &Directory, place: usize, out: &mut Vec<Sent>) -> Result<(), NoMemory>
        ensures { OnOk result (out.new.items ≡ out.old.items ++ returned_by dir.now.lines (slice_get self.now.rows place)) }
    {
        match self.row(place) {
            Some(row) => row.at_close(dir, out),
            None => Ok(()),
        }
    }

    /// The orders for the reversals that a Close would make arrive, in the order of the openings: one
    /// of each transaction that is being debited or reversed. It fails only for want of memory.
    pub fn at_close(&self, dir: &Directory) -> Result<Vec<Sent>, NoMemory>
        ensures { IfOk result (λ v. v.items ≡ rows_return dir.now.lines self.now.rows) }
    {
        let mut out = Vec::new(self.alloc);
        'rows: for place in 0..self.len() {
            self.return_at(dir, place, &mut out)?;
        }
        Ok(out)
    }
}
