//! Settlement, from the rows of transactions.
ghost use Rattle.std.specs.Prelude.{◌≡◌, IfOk};
ghost use Rattle.upi_model.specs.Settlement as Spec;

use crate::lists::{self, Lists};
use crate::rows::{copies, listed, reconciled};
use crate::sums::net_of;
use std::alloc::Global;
use std::marker::Model;
use upi_base::{BankCode, Item, NoMemory, Recon, TxnRow};

/// What was settled among banks by some transactions. Contracts see the rows of these transactions.
///
/// Each bank's items are gathered once, so to ask for every bank takes time in proportion to the
/// rows and the banks together.
#[derive(Drop)]
pub struct Settlement {
    alloc: Global,
    rows: Vec<TxnRow>,
    lists: Lists,
}

impl Model for Settlement {
    ghost use Rattle.std.specs.Prelude.{List};
    ghost use Rattle.upi_words.specs.Prelude.{TxnRow};
    ghost use Rattle.settlement.specs.calls.Settled.{ListsAll};

    ghost Value = { List TxnRow };

    ghost view = { λ s. s.rows.items };

    ghost invariant = { λ s. ListsAll s.lists s.rows.items };
}

impl Settlement {
    /// The settlement of these transactions, in opening order. A transaction without an outcome
    /// has no part in it. It fails only for want of memory.
    pub fn of(alloc: Global, rows: &[TxnRow]) -> Result<Settlement, NoMemory>
        ensures { IfOk result (λ s. s ≡ rows.now) }
    {
        let lists = listed(alloc, rows)?;
        let rows = copies(alloc, rows)?;
        Ok(Settlement { alloc, rows, lists })
    }

    // The items of a bank.
    fn list(&self, bank: &BankCode) -> &[Item]
        ensures { result.now ≡ Spec.settlement_items bank.now self.now }
    {
        match self.lists.get(bank) {
            None => &[],
            Some(list) => list,
        }
    }

    /// The settlement list of a bank, in opening order; where it paid itself, paid and then
    /// received. It fails only for want of memory.
    pub fn items(&self, bank: &BankCode) -> Result<Vec<Item>, NoMemory>
        ensures { IfOk result (λ v. v.items ≡ Spec.settlement_items bank.now self.now) }
    {
        lists::copies(self.alloc, self.list(bank))
    }

    /// What a bank received less what it paid, in paise.
    pub fn net(&self, bank: &BankCode) -> i128
        ensures { result ≡ Spec.net_of (Spec.settlement_items bank.now self.now) }
    {
        net_of(self.list(bank))
    }

    /// The reconciliation items, in opening order: each transaction that is deemed and whose credit
    /// didn't move, at the payee's bank. It fails only for want of memory.
    pub fn recon(&self) -> Result<Vec<Recon>, NoMemory>
        ensures { IfOk result (λ v. v.items ≡ Spec.recon_items self.now) }
    {
        reconciled(self.alloc, &self.rows)
    }
}
