//! What settlement and reconciliation list, the counts of a history, and the verdict over it.
use crate::code::Outcome;
use crate::paise::Paise;
use crate::setup::AccountRef;
use crate::{BankCode, TxnId};

/// A transaction as settlement and the report see it.
#[derive(Clone, Drop, PartialEq, Eq)]
pub struct TxnRow {
    /// Its name (`Txn.id`).
    pub txn: TxnId,
    /// The bank of the payer's account.
    pub payer_bank: BankCode,
    /// The bank of the payee's account.
    pub payee_bank: BankCode,
    /// What is paid, 1 to 1,000,000,000 paise.
    pub amount: Paise,
    /// The outcome, if there is one.
    pub outcome: Option<Outcome>,
    /// Whether the credit moved money.
    pub credit_moved: bool,
}

/// On which side of a settled transaction a bank stands.
#[derive(Clone, Copy, Debug, PartialEq, Eq)]
pub enum Side {
    /// The payer's bank.
    Paid,
    /// The payee's bank.
    Received,
}

/// An item of a bank's settlement list.
#[derive(Clone, Drop, PartialEq, Eq)]
pub struct Item {
    /// The transaction that is settled.
    pub txn: TxnId,
    /// Whether the bank paid or received the amount.
    pub side: Side,
    /// What was paid, 1 to 1,000,000,000 paise.
    pub amount: Paise,
}

/// A reconciliation item: a deemed payment whose credit didn't move, at the payee's bank.
#[derive(Clone, Drop, PartialEq, Eq)]
pub struct Recon {
    /// The deemed transaction.
    pub txn: TxnId,
    /// The payee's bank.
    pub bank: BankCode,
    /// What its credit should have moved, 1 to 1,000,000,000 paise.
    pub amount: Paise,
}

/// What moved at a bank's accounts, in paise.
#[derive(Clone, Copy, Debug, PartialEq, Eq)]
pub struct Position {
    /// What debits took from them.
    pub debits: u64,
    /// What reversals gave back to them.
    pub reversals: u64,
    /// What credits added to them.
    pub credits: u64,
}

/// The counts of a history.
#[derive(Clone, Copy, Debug, PartialEq, Eq)]
pub struct Summary {
    /// Transactions that ended in SUCCESS.
    pub success: u64,
    /// Transactions that ended in FAILURE.
    pub failure: u64,
    /// Transactions that ended in DEEMED.
    pub deemed: u64,
    /// Reconciliation items.
    pub items: u64,
    /// The money in flight, in paise.
    pub flight: u128,
    /// Entries.
    pub entries: u64,
    /// Sent messages.
    pub messages: u64,
}

/// Why a history isn't legal, or a journal isn't right.
#[derive(Clone, Copy, Debug, PartialEq, Eq)]
pub enum AuditWhy {
    /// The call may not come there.
    Call,
    /// Another reply is due.
    Reply,
    /// Other messages are due.
    Sent,
    /// There is no Close.
    NoClose,
    /// The report differs.
    Report,
}

/// Whether a history is legal.
#[derive(Clone, Copy, Debug, PartialEq, Eq)]
pub enum Verdict {
    /// It is, with this count of entries.
    Yes { entries: u64 },
    /// It isn't: the first entry that is wrong, counted from 1, and the first reason.
    No { entry: u64, why: AuditWhy },
}
