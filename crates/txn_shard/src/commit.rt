//! Changes of rows: they take no memory.
ghost use Rattle.std.specs.Prelude.{◌≡◌, ◌+◌, ◌<◌, ◌≤◌, ◌∷◌, ◌++◌, [], List, ℕ, None, if◌then◌else◌};
ghost use Rattle.std.specs.Str.{bytes_eq};
ghost use Rattle.expiry_clock.specs.Dues.{moment_of};
ghost use Rattle.txn_shard.specs.Rows.{row_at, turned};
ghost use Rattle.txn_shard.specs.Shard.{IsPlanned, CanGo, rows_after};
ghost use Rattle.txn_shard.specs.declared.step.Change.{Change as AChange};

use crate::shard::TxnShard;
use crate::step::{Change, Step};
use expiry_clock::DueIndex;
use txn_row::{Progress, Row};
use upi_base::TxnId;

// Sets when a transaction is due, or that it isn't.
fn set_due(dues: &mut DueIndex, txn: TxnId, due: Option<u64>)
    requires { 0 < dues.old.spare }
    ensures moments { (q : List ℕ) → moment_of dues.new q ≡ (if bytes_eq txn q then due else moment_of dues.old q) }
    ensures room { dues.old.spare ≤ dues.new.spare + 1 }
{
    match due {
        Some(due) => dues.set(txn, due),
        None => dues.remove(&txn),
    }
}

impl TxnShard {
    // Adds the row of a transaction that opens.
    fn add(&mut self, row: Row)
        requires new { row_at self.old.rows row.opening.terms.txn ≡ None }
        requires room { 0 < self.old.spare }
        ensures rows { self.new.rows ≡ self.old.rows ++ row ∷ [] }
        ensures room { self.old.spare ≤ self.new.spare + 1 }
    {
        let txn = row.opening().terms.txn.copy();
        let due = row.due();
        self.rows.insert(txn.copy(), row).unwrap();
        set_due(&mut self.dues, txn, due);
    }

    // Sets how far a transaction has come.
    fn go(&mut self, txn: TxnId, progress: Progress)
        requires row { CanGo (row_at self.old.rows txn) (AChange.Goes txn progress) }
        requires room { 0 < self.old.spare }
        ensures rows { self.new.rows ≡ turned txn progress self.old.rows }
        ensures room { self.old.spare ≤ self.new.spare + 1 }
    {
        let Some(row) = self.rows.get_mut(&txn) else {
            unreachable!();
        };
        row.go(progress);
        let due = row.due();
        set_due(&mut self.dues, txn, due);
    }

    /// Commits what was planned here. It takes no memory, and always succeeds.
    pub fn commit(&mut self, step: Step)
        requires { IsPlanned self.old step }
        ensures rows { self.new.rows ≡ rows_after self.old.rows step.change }
        ensures room { self.old.spare ≤ self.new.spare + 1 }
    {
        let change = step.change;
        match change {
            Change::Still => {}
            Change::Opens(row) => self.add(row),
            Change::Goes(txn, progress) => self.go(txn, progress),
        }
    }
}
