//! A switch that was played, read: outcomes, balances, money in flight, and the rows of its
//! transactions.
ghost use Rattle.std.specs.Prelude.{◌≡◌, ◌≤◌, ◌<◌, ◌^◌, true, is_some, IfOk, map};
ghost use Rattle.std.specs.Option.{option_copied};
ghost use Rattle.upi_base.specs.Setup as Lines;
ghost use Rattle.upi_model.specs.Outcomes.{outcome_of};
ghost use Rattle.upi_model.specs.Postings;
ghost use Rattle.upi_model.specs.Settlement;
ghost use Rattle.upi_replay.specs.Rows;
ghost use Rattle.upi_replay.specs.Banked.{IsBanked, AreBanked, row_txn};

use crate::postings::{balance, is_posted};
use crate::rows::{Row, row_at};
use crate::switch::Replay;
use std::alloc::Global;
use upi_base::{Account, Addr, BankCode, NoMemory, Outcome, SetupLine, TxnId, TxnRow, account_at};

fn in_flight(row: &Row) -> u64
    ensures flight { result ≡ Rows.row_flight row.now }
    ensures bound { result ≤ 1_000_000_000_000_000 }
{
    if is_posted(row.debited) && !is_posted(row.credited) && !is_posted(row.reversed) {
        row.opening.terms.amount.get()
    } else {
        0
    }
}

/// The money in flight over these rows, in paise.
fn all_in_flight(rows: &[Row]) -> u128
    ensures flight { result ≡ Rows.rows_flight rows.now }
    ensures bound { result < 2 ^ 120 }
{
    let mut sum: u128 = 0;
    for row in rows {
        sum += u128::from(in_flight(row));
    }
    sum
}

fn outcome_in(row: Option<&Row>) -> Option<Outcome>
    ensures { result ≡ Rows.outcome_in (option_copied row.entry) }
{
    match row {
        None => None,
        Some(row) => row.outcome(),
    }
}

/// The bank of the account of an address that has one.
fn bank_at(setup: &[SetupLine], addr: &Addr) -> BankCode
    requires { is_some (Lines.account_at setup.now addr.now) ≡ true }
    ensures { result ≡ Settlement.bank_at setup.now addr.now }
{
    match account_at(setup, addr) {
        Some(account) => account.ac.bank,
        None => unreachable!(),
    }
}

/// A transaction as settlement and the report see it.
fn txn_of_row(setup: &[SetupLine], row: &Row) -> TxnRow
    requires { IsBanked setup.now row.now }
    ensures { result ≡ row_txn setup.now row.now }
{
    let terms = &row.opening.terms;
    TxnRow {
        txn: terms.txn.copy(),
        payer_bank: bank_at(setup, &terms.payer),
        payee_bank: bank_at(setup, &terms.payee),
        amount: terms.amount,
        outcome: row.outcome(),
        credit_moved: is_posted(row.credited),
    }
}

fn all_txns(alloc: Global, setup: &[SetupLine], rows: &[Row]) -> Result<Vec<TxnRow>, NoMemory>
    requires { AreBanked setup.now rows.now }
    ensures { IfOk result (λ v. v.items ≡ map (row_txn setup.now) rows.now) }
{
    let mut all = Vec::new(alloc);
    for row in rows {
        all.push(txn_of_row(setup, row))?;
    }
    Ok(all)
}

impl Replay {
    /// The outcome of a transaction, if it has one.
    pub fn outcome(&self, txn: &TxnId) -> Option<Outcome>
        ensures { result ≡ outcome_of self.now.setup txn.now self.now.history }
    {
        outcome_in(row_at(&self.found.rows, txn))
    }

    /// The balance of an account, in paise.
    pub fn balance(&self, account: &Account) -> u128
        ensures { result ≡ Postings.balance self.now.setup account.now self.now.history }
    {
        balance(self.lines.items(), &self.found.rows, account)
    }

    /// The money in flight, in paise: what was taken from a payer, and neither given to the payee
    /// nor returned.
    pub fn flight(&self) -> u128
        ensures { result ≡ Postings.flight self.now.setup self.now.history }
    {
        all_in_flight(&self.found.rows)
    }

    /// The transactions as settlement and the report see them, in opening order. It fails only for
    /// want of memory.
    pub fn rows(&self) -> Result<Vec<TxnRow>, NoMemory>
        ensures { IfOk result (λ v. v.items ≡ Settlement.txn_rows self.now.setup self.now.history) }
    {
        let all = all_txns(self.alloc, self.lines.items(), &self.found.rows)?;
        Ok(all)
    }
}
