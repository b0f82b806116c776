//! What a shard of accounts keeps, and what its banks say.
ghost use Rattle.std.specs.Prelude.{◌≡◌, ◌≤◌, ◌<◌, ◌*◌, ◌^◌, length};
ghost use Rattle.upi_model.specs.Accounts;

use crate::postings::{is_posted, post_credit, post_debit, post_reversal};
use crate::rules::same_leg;
use upi_base::{Account, AccountRef, Answer, Leg, SetupLine, TxnId, account_named, same_account};
use upi_model::{Kept, Order};

fn is_kept(txn: &TxnId, leg: Leg, row: &Kept) -> bool
    ensures { result ≡ Accounts.is_kept txn.now leg row.now }
{
    row.order.txn == *txn && same_leg(row.order.its_leg, leg)
}

/// How a leg was answered.
pub fn kept_answer(rows: &[Kept], txn: &TxnId, leg: Leg) -> Option<Answer>
    ensures { result ≡ Accounts.kept_answer rows.now txn.now leg }
{
    for row in rows {
        if is_kept(txn, leg, row) {
            return Some(row.answer);
        }
    }
    None
}

fn kept_share(ac: &AccountRef, leg: Leg, row: &Kept) -> u64
    ensures share { result ≡ Accounts.kept_share ac.now leg row.now }
    ensures bound { result ≤ 1_000_000_000_000_000 }
{
    if same_leg(row.order.its_leg, leg)
        && (same_account(&row.order.ac, ac) && is_posted(Some(row.answer)))
    {
        row.order.amount.get()
    } else {
        0
    }
}

fn kept_total(rows: &[Kept], ac: &AccountRef, leg: Leg) -> u128
    ensures sum { result ≡ Accounts.kept_total rows.now ac.now leg }
    ensures bound { result ≤ 1_000_000_000_000_000 * length rows.now }
{
    let mut sum: u128 = 0;
    for row in rows {
        sum += u128::from(kept_share(ac, leg, row));
    }
    sum
}

/// What an account has.
pub fn kept_balance(rows: &[Kept], account: &Account) -> u128
    ensures sum { result ≡ Accounts.kept_balance rows.now account.now }
    ensures bound { result < 2 ^ 120 }
{
    let returned = kept_total(rows, &account.ac, Leg::Reversal);
    let given = kept_total(rows, &account.ac, Leg::Credit);
    let taken = kept_total(rows, &account.ac, Leg::Debit);
    (u128::from(account.opening.get()) + returned + given).saturating_sub(taken)
}

/// What the bank answers to the first order of a leg.
pub fn kept_post(setup: &[SetupLine], rows: &[Kept], order: &Order) -> Option<Answer>
    ensures { result ≡ Accounts.kept_post setup.now rows.now order.now }
{
    match order.its_leg {
        Leg::Debit => match account_named(setup, &order.ac) {
            None => None,
            Some(account) => {
                let reversed = kept_answer(rows, &order.txn, Leg::Reversal);
                let balance = kept_balance(rows, &account);
                Some(post_debit(reversed, balance, order.amount.get(), &account))
            }
        },
        Leg::Credit => match account_named(setup, &order.ac) {
            None => None,
            Some(account) => {
                let balance = kept_balance(rows, &account);
                Some(post_credit(balance, order.amount.get(), &account))
            }
        },
        Leg::Reversal => Some(post_reversal(kept_answer(rows, &order.txn, Leg::Debit))),
    }
}

/// What the bank says to an order, the first or a later one.
pub fn kept_says(setup: &[SetupLine], rows: &[Kept], order: &Order) -> Option<Answer>
    ensures { result ≡ Accounts.kept_says setup.now rows.now order.now }
{
    match kept_answer(rows, &order.txn, order.its_leg) {
        Some(answer) => Some(answer),
        None => kept_post(setup, rows, order),
    }
}
