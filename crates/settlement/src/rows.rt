//! A transaction's part in settlement.
ghost use Rattle.std.specs.Prelude.{◌≡◌, ◌++◌, OnOk, IfOk};
ghost use Rattle.std.specs.List.{flat_map};
ghost use Rattle.upi_words.specs.Prelude.{Text};
ghost use Rattle.upi_model.specs.Settlement as Spec;
ghost use Rattle.settlement.specs.calls.Lists.{list_at};
ghost use Rattle.settlement.specs.calls.Settled.{row_items, row_recon, ListsAll};

use crate::lists::{Lists, add};
use std::alloc::Global;
use upi_base::{Item, NoMemory, Outcome, Recon, Side, TxnRow};

// Whether a transaction with this outcome is settled.
fn is_settled(outcome: Option<Outcome>) -> bool
    ensures { result ≡ Spec.is_settled outcome }
{
    match outcome {
        Some(Outcome::Success) => true,
        Some(Outcome::Deemed) => true,
        _ => false,
    }
}

// Whether an outcome is DEEMED.
fn is_deemed(outcome: Option<Outcome>) -> bool
    ensures { result ≡ Spec.is_deemed outcome }
{
    match outcome {
        Some(Outcome::Deemed) => true,
        _ => false,
    }
}

// Whether a transaction is deemed, and its credit didn't move.
fn is_unmatched(row: &TxnRow) -> bool
    ensures { result ≡ Spec.is_unmatched row.now }
{
    is_deemed(row.outcome) && !row.credit_moved
}

/// The same row.
fn copy(row: &TxnRow) -> TxnRow
    ensures { result ≡ row.now }
{
    TxnRow {
        txn: row.txn.copy(),
        payer_bank: row.payer_bank.copy(),
        payee_bank: row.payee_bank.copy(),
        amount: row.amount,
        outcome: row.outcome,
        credit_moved: row.credit_moved,
    }
}

/// The same rows.
pub(crate) fn copies(alloc: Global, rows: &[TxnRow]) -> Result<Vec<TxnRow>, NoMemory>
    ensures { IfOk result (λ v. v.items ≡ rows.now) }
{
    let mut out = Vec::new(alloc);
    for row in rows {
        out.push(copy(row))?;
    }
    Ok(out)
}

// A transaction as an item of a bank on this side.
fn item(row: &TxnRow, side: Side) -> Item
    ensures { result ≡ record { txn = row.now.txn; side = side; amount = row.now.amount } }
{
    Item {
        txn: row.txn.copy(),
        side,
        amount: row.amount,
    }
}

// Adds the items of a transaction to the lists of its banks, if it is settled: paid, then received.
fn add_row(alloc: Global, lists: &mut Lists, row: &TxnRow) -> Result<(), NoMemory>
    ensures { OnOk result ((b : Text) → list_at lists.new b ≡ list_at lists.old b ++ row_items b row.now) }
{
    if !is_settled(row.outcome) {
        return Ok(());
    }
    add(alloc, lists, &row.payer_bank, item(row, Side::Paid))?;
    add(alloc, lists, &row.payee_bank, item(row, Side::Received))?;
    Ok(())
}

/// The settlement list of each bank.
pub(crate) fn listed(alloc: Global, rows: &[TxnRow]) -> Result<Lists, NoMemory>
    ensures { IfOk result (λ lists. ListsAll lists rows.now) }
{
    let mut lists = Lists::new(alloc);
    for row in rows {
        add_row(alloc, &mut lists, row)?;
    }
    Ok(lists)
}

// Adds the reconciliation item of a transaction, if it has one.
fn push_recon(row: &TxnRow, out: &mut Vec<Recon>) -> Result<(), NoMemory>
    ensures { OnOk result (out.new.items ≡ out.old.items ++ row_recon row.now) }
{
    if !is_unmatched(row) {
        return Ok(());
    }
    out.push(Recon {
        txn: row.txn.copy(),
        bank: row.payee_bank.copy(),
        amount: row.amount,
    })?;
    Ok(())
}

/// The reconciliation items.
pub(crate) fn reconciled(alloc: Global, rows: &[TxnRow]) -> Result<Vec<Recon>, NoMemory>
    ensures { IfOk result (λ v. v.items ≡ Spec.recon_items rows.now) }
{
    let mut out = Vec::new(alloc);
    for row in rows {
        push_recon(row, &mut out)?;
    }
    Ok(out)
}
